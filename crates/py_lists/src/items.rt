ghost use Rattle.std.specs.Prelude.{◌≡◌, OnErr};
ghost use Rattle.language_rules.specs.Items.{get_item_rule, set_item_rule, delete_item_rule};
ghost use Rattle.language_rules.specs.Lengths.{length_rule, truth_rule};
ghost use Rattle.py_store.specs.declared.cell.Cell.TheVariants as cell;
ghost use Rattle.language_rules.specs.AtOnce.{Reads};
ghost use Rattle.py_lists.specs.Lists.{ChangesList};

use crate::ends::{fails, none};
use crate::positions::{as_int, place_among};
use py_store::Values;
use rp_base::{Beyond, ExcKind, OpEnd, Plain, Value};
use std::alloc::Global;

/// The greatest length that `len` gives.
const LONGEST: u64 = 9_223_372_036_854_775_807;

/// How many items there are.
pub(crate) fn length(items: &[Value]) -> Result<Value, OpEnd>
    ensures { Reads (λ n. length_rule n (cell.List items.now)) result }
{
    if items.len() as u64 > LONGEST {
        return Err(OpEnd::Beyond(Beyond::Int));
    }
    Ok(Value::Plain(Plain::Int(items.len() as i128)))
}

/// Whether there is an item.
pub(crate) fn truth(items: &[Value]) -> Result<Value, OpEnd>
    ensures { Reads (λ n. truth_rule n (cell.List items.now)) result }
{
    Ok(Value::Plain(Plain::Bool(!items.is_empty())))
}

/// The item at a position.
pub(crate) fn get_item(alloc: Global, items: &[Value], key: &Value) -> Result<Value, OpEnd>
    ensures { Reads (λ n. get_item_rule n key.now (cell.List items.now)) result }
{
    let Some(position) = as_int(key) else {
        return Err(fails(alloc, ExcKind::TypeError, "index is no integer"));
    };
    let Some(at) = place_among(items.len(), position) else {
        return Err(fails(alloc, ExcKind::IndexError, "list index out of range"));
    };
    Ok(items[at].copy(alloc)?)
}

/// Another item at a position.
pub(crate) fn set_item(
    alloc: Global,
    items: &mut Values,
    key: &Value,
    item: Value,
) -> Result<Value, OpEnd>
    ensures comes { ChangesList (λ n. set_item_rule n key.now item (cell.List items.old)) result items.new }
    ensures kept { OnErr result (items.new ≡ items.old) }
{
    let Some(position) = as_int(key) else {
        return Err(fails(alloc, ExcKind::TypeError, "index is no integer"));
    };
    let Some(at) = place_among(items.len(), position) else {
        return Err(fails(alloc, ExcKind::IndexError, "list index out of range"));
    };
    items.replace(at, item);
    Ok(none())
}

/// The list without the item at a position.
pub(crate) fn delete_item(alloc: Global, items: &mut Values, key: &Value) -> Result<Value, OpEnd>
    ensures comes { ChangesList (λ n. delete_item_rule n key.now (cell.List items.old)) result items.new }
    ensures kept { OnErr result (items.new ≡ items.old) }
{
    let Some(position) = as_int(key) else {
        return Err(fails(alloc, ExcKind::TypeError, "index is no integer"));
    };
    let Some(at) = place_among(items.len(), position) else {
        return Err(fails(alloc, ExcKind::IndexError, "list index out of range"));
    };
    items.remove(at);
    Ok(none())
}
