ghost use Rattle.std.specs.Prelude.{◌≡◌, [], ◌∷◌};
ghost use Rattle.object_operations.specs.declared.method.BuiltinMethod.TheVariants as method;
ghost use Rattle.py_store.specs.declared.cell.Cell.TheVariants as cell;
ghost use Rattle.language_rules.specs.AtOnce.{Reads};
ghost use Rattle.language_rules.specs.Containing.{contains_rule};
ghost use Rattle.language_rules.specs.DictMethods.{dict_method};
ghost use Rattle.language_rules.specs.Items.{get_item_rule};
ghost use Rattle.language_rules.specs.Lengths.{length_rule, truth_rule};

use crate::ends::{missing, none};
use py_store::{Entries, Key};
use rp_base::{Beyond, OpEnd, Plain, Value};
use std::alloc::Global;

/// The greatest length that `len` gives.
const LONGEST: u64 = 9_223_372_036_854_775_807;

/// How many entries there are.
pub(crate) fn length(entries: &Entries, shape: u64) -> Result<Value, OpEnd>
    ensures { Reads (λ n. length_rule n (cell.Dict entries.now shape)) result }
{
    if entries.len() as u64 > LONGEST {
        return Err(OpEnd::Beyond(Beyond::Int));
    }
    Ok(Value::Plain(Plain::Int(entries.len() as i128)))
}

/// Whether there is an entry.
pub(crate) fn truth(entries: &Entries, shape: u64) -> Result<Value, OpEnd>
    ensures { Reads (λ n. truth_rule n (cell.Dict entries.now shape)) result }
{
    Ok(Value::Plain(Plain::Bool(!entries.is_empty())))
}

/// Whether there is an entry of this key.
pub(crate) fn contains(
    alloc: Global,
    entries: &Entries,
    shape: u64,
    key: &Value,
) -> Result<Value, OpEnd>
    ensures { Reads (λ n. contains_rule n key.now (cell.Dict entries.now shape)) result }
{
    let Value::Plain(key) = key else {
        return Err(OpEnd::Beyond(Beyond::Key));
    };
    let key = Key::new(key.copy(alloc)?);
    Ok(Value::Plain(Plain::Bool(entries.get(&key).is_some())))
}

/// The value of a key.
pub(crate) fn get_item(
    alloc: Global,
    entries: &Entries,
    shape: u64,
    key: &Value,
) -> Result<Value, OpEnd>
    ensures { Reads (λ n. get_item_rule n key.now (cell.Dict entries.now shape)) result }
{
    let Value::Plain(key) = key else {
        return Err(OpEnd::Beyond(Beyond::Key));
    };
    let key = Key::new(key.copy(alloc)?);
    match entries.get(&key) {
        Some(value) => Ok(value.copy(alloc)?),
        None => Err(missing(alloc, key.into_plain())),
    }
}

/// The value of a key, or else None.
pub(crate) fn get(alloc: Global, entries: &Entries, shape: u64, key: &Value) -> Result<Value, OpEnd>
    ensures { Reads (λ n. dict_method n entries.now shape method.Get (key.now ∷ [])) result }
{
    let Value::Plain(key) = key else {
        return Err(OpEnd::Beyond(Beyond::Key));
    };
    let key = Key::new(key.copy(alloc)?);
    match entries.get(&key) {
        Some(value) => Ok(value.copy(alloc)?),
        None => Ok(none()),
    }
}

/// The value of a key, or else this one.
pub(crate) fn get_or(
    alloc: Global,
    entries: &Entries,
    shape: u64,
    key: &Value,
    otherwise: &Value,
) -> Result<Value, OpEnd>
    ensures { Reads (λ n. dict_method n entries.now shape method.Get (key.now ∷ otherwise.now ∷ [])) result }
{
    let Value::Plain(key) = key else {
        return Err(OpEnd::Beyond(Beyond::Key));
    };
    let key = Key::new(key.copy(alloc)?);
    match entries.get(&key) {
        Some(value) => Ok(value.copy(alloc)?),
        None => Ok(otherwise.copy(alloc)?),
    }
}
