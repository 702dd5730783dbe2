ghost use Rattle.std.specs.Prelude.{◌≡◌, OnErr, None, Some, MatchOption, [], ◌∷◌};
ghost use Rattle.object_operations.specs.declared.method.BuiltinMethod.TheVariants as method;
ghost use Rattle.py_store.specs.declared.cell.Cell.TheVariants as cell;
ghost use Rattle.py_store.specs.EntryLists.{entry_value, without_entry};
ghost use Rattle.language_rules.specs.AtOnce.{Changes};
ghost use Rattle.language_rules.specs.DictMethods.{dict_method};
ghost use Rattle.language_rules.specs.Entries.{one_more};
ghost use Rattle.language_rules.specs.Items.{set_item_rule, delete_item_rule};

use crate::ends::{missing, none};
use crate::operations::MOST_ENTRIES;
use py_store::{Entries, Key};
use rp_base::{Beyond, OpEnd, Value};
use std::alloc::Global;

/// No entry is left.
#[tactic(auto, using(crate::proofs::CellLemmas::kept))]
pub(crate) fn clear(alloc: Global, entries: &mut Entries, shape: &mut u64) -> Result<Value, OpEnd>
    ensures comes { Changes (λ n. dict_method n entries.old shape.old method.Clear []) (cell.Dict entries.old shape.old) result (cell.Dict entries.new shape.new) }
    ensures kept { OnErr result ((entries.new ≡ entries.old) × (shape.new ≡ shape.old)) }
{
    if entries.is_empty() {
        return Ok(none());
    }
    *entries = Entries::new(alloc);
    *shape = shape.saturating_add(1);
    Ok(none())
}

/// The value of a key is taken out.
pub(crate) fn pop(
    alloc: Global,
    entries: &mut Entries,
    shape: &mut u64,
    key: &Value,
) -> Result<Value, OpEnd>
    ensures comes { Changes (λ n. dict_method n entries.old shape.old method.Pop (key.now ∷ [])) (cell.Dict entries.old shape.old) result (cell.Dict entries.new shape.new) }
    ensures kept { OnErr result ((entries.new ≡ entries.old) × (shape.new ≡ shape.old)) }
{
    let Value::Plain(key) = key else {
        return Err(OpEnd::Beyond(Beyond::Key));
    };
    let key = Key::new(key.copy(alloc)?);
    match take_value(entries, shape, &key) {
        Some(value) => Ok(value),
        None => Err(missing(alloc, key.into_plain())),
    }
}

/// The value of a key is taken out, or is else this one.
#[tactic(auto, using(crate::proofs::CellLemmas::kept))]
pub(crate) fn pop_or(
    alloc: Global,
    entries: &mut Entries,
    shape: &mut u64,
    key: &Value,
    otherwise: Value,
) -> Result<Value, OpEnd>
    ensures comes { Changes (λ n. dict_method n entries.old shape.old method.Pop (key.now ∷ otherwise ∷ [])) (cell.Dict entries.old shape.old) result (cell.Dict entries.new shape.new) }
    ensures kept { OnErr result ((entries.new ≡ entries.old) × (shape.new ≡ shape.old)) }
{
    let Value::Plain(key) = key else {
        return Err(OpEnd::Beyond(Beyond::Key));
    };
    let key = Key::new(key.copy(alloc)?);
    match take_value(entries, shape, &key) {
        Some(value) => Ok(value),
        None => Ok(otherwise),
    }
}

/// The value of a key, or else this one, which the dict gets.
#[tactic(auto, using(crate::proofs::CellLemmas::kept))]
pub(crate) fn set_default(
    alloc: Global,
    entries: &mut Entries,
    shape: &mut u64,
    key: &Value,
    otherwise: Value,
) -> Result<Value, OpEnd>
    ensures comes { Changes (λ n. dict_method n entries.old shape.old method.SetDefault (key.now ∷ otherwise ∷ [])) (cell.Dict entries.old shape.old) result (cell.Dict entries.new shape.new) }
    ensures kept { OnErr result ((entries.new ≡ entries.old) × (shape.new ≡ shape.old)) }
{
    let Value::Plain(key) = key else {
        return Err(OpEnd::Beyond(Beyond::Key));
    };
    let key = Key::new(key.copy(alloc)?);
    if let Some(value) = entries.get(&key) {
        return Ok(value.copy(alloc)?);
    }
    if entries.len() >= MOST_ENTRIES {
        return Err(OpEnd::Beyond(Beyond::Size));
    }
    let answer = otherwise.copy(alloc)?;
    entries.put(key.into_plain(), otherwise)?;
    *shape = shape.saturating_add(1);
    Ok(answer)
}

/// Another value for a key, which the dict gets where it is new.
pub(crate) fn set_item(
    alloc: Global,
    entries: &mut Entries,
    shape: &mut u64,
    key: &Value,
    item: Value,
) -> Result<Value, OpEnd>
    ensures comes { Changes (λ n. set_item_rule n key.now item (cell.Dict entries.old shape.old)) (cell.Dict entries.old shape.old) result (cell.Dict entries.new shape.new) }
    ensures kept { OnErr result ((entries.new ≡ entries.old) × (shape.new ≡ shape.old)) }
{
    let Value::Plain(key) = key else {
        return Err(OpEnd::Beyond(Beyond::Key));
    };
    let key = Key::new(key.copy(alloc)?);
    if entries.get(&key).is_some() {
        entries.put(key.into_plain(), item)?;
        return Ok(none());
    }
    if entries.len() >= MOST_ENTRIES {
        return Err(OpEnd::Beyond(Beyond::Size));
    }
    entries.put(key.into_plain(), item)?;
    *shape = shape.saturating_add(1);
    Ok(none())
}

/// The dict without a key.
pub(crate) fn delete_item(
    alloc: Global,
    entries: &mut Entries,
    shape: &mut u64,
    key: &Value,
) -> Result<Value, OpEnd>
    ensures comes { Changes (λ n. delete_item_rule n key.now (cell.Dict entries.old shape.old)) (cell.Dict entries.old shape.old) result (cell.Dict entries.new shape.new) }
    ensures kept { OnErr result ((entries.new ≡ entries.old) × (shape.new ≡ shape.old)) }
{
    let Value::Plain(key) = key else {
        return Err(OpEnd::Beyond(Beyond::Key));
    };
    let key = Key::new(key.copy(alloc)?);
    match take_value(entries, shape, &key) {
        Some(_) => Ok(none()),
        None => Err(missing(alloc, key.into_plain())),
    }
}

/// Takes the value of a key out.
#[tactic(auto, using(crate::proofs::EntryLemmas::value_of_entry))]
fn take_value(entries: &mut Entries, shape: &mut u64, key: &Key) -> Option<Value>
    ensures { MatchOption result ((entry_value key.now entries.old ≡ None) × (entries.new ≡ entries.old) × (shape.new ≡ shape.old)) (λ v. (entry_value key.now entries.old ≡ Some v) × (entries.new ≡ without_entry key.now entries.old) × (shape.new ≡ one_more shape.old)) }
{
    if entries.get(key).is_none() {
        return None;
    }
    let (_, value) = entries.take(key)?;
    *shape = shape.saturating_add(1);
    Some(value)
}
