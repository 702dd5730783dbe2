ghost use Rattle.std.specs.Prelude.{◌≡◌, ◌≤◌, OnErr, [], ◌∷◌, negsuc};
ghost use Rattle.object_operations.specs.declared.method.BuiltinMethod.TheVariants as method;
ghost use Rattle.language_rules.specs.ListMethods.{list_method, nearest_place, pops};
ghost use Rattle.py_lists.specs.Lists.{ChangesList};

use crate::ends::{fails, none};
use crate::positions::{as_int, is_count, nearest_place, place_among};
use py_store::Values;
use rp_base::{Beyond, ExcKind, OpEnd, Value};
use std::alloc::Global;

/// The greatest number of items of a list.
pub const MOST_ITEMS: usize = 1_048_576;

/// One item more, behind the others. `Beyond(Size)` past the limit.
pub(crate) fn append(items: &mut Values, item: Value) -> Result<Value, OpEnd>
    ensures comes { ChangesList (λ n. list_method n items.old method.Append (item ∷ [])) result items.new }
    ensures kept { OnErr result (items.new ≡ items.old) }
{
    if items.len() >= MOST_ITEMS {
        return Err(OpEnd::Beyond(Beyond::Size));
    }
    items.push(item)?;
    Ok(none())
}

/// One item more, in front of a position. `Beyond(Size)` past the limit.
pub(crate) fn insert(items: &mut Values, position: &Value, item: Value) -> Result<Value, OpEnd>
    ensures comes { ChangesList (λ n. list_method n items.old method.Insert (position.now ∷ item ∷ [])) result items.new }
    ensures kept { OnErr result (items.new ≡ items.old) }
{
    let Some(position) = as_int(position) else {
        return Err(OpEnd::Beyond(Beyond::Arguments));
    };
    if !is_count(position) {
        return Err(OpEnd::Beyond(Beyond::Int));
    }
    if items.len() >= MOST_ITEMS {
        return Err(OpEnd::Beyond(Beyond::Size));
    }
    items.insert(nearest_place(items.len(), position), item)?;
    Ok(none())
}

/// No item is left.
pub(crate) fn clear(alloc: Global, items: &mut Values) -> Result<Value, OpEnd>
    ensures comes { ChangesList (λ n. list_method n items.old method.Clear []) result items.new }
    ensures kept { OnErr result (items.new ≡ items.old) }
{
    *items = Values::new(alloc);
    Ok(none())
}

/// The last item is taken out.
pub(crate) fn pop_last(alloc: Global, items: &mut Values) -> Result<Value, OpEnd>
    ensures comes { ChangesList (λ n. list_method n items.old method.Pop []) result items.new }
    ensures kept { OnErr result (items.new ≡ items.old) }
{
    pop_at(alloc, items, -1)
}

/// The item at a position is taken out.
pub(crate) fn pop(alloc: Global, items: &mut Values, position: &Value) -> Result<Value, OpEnd>
    ensures comes { ChangesList (λ n. list_method n items.old method.Pop (position.now ∷ [])) result items.new }
    ensures kept { OnErr result (items.new ≡ items.old) }
{
    let Some(position) = as_int(position) else {
        return Err(OpEnd::Beyond(Beyond::Arguments));
    };
    if !is_count(position) {
        return Err(OpEnd::Beyond(Beyond::Int));
    }
    pop_at(alloc, items, position)
}

fn pop_at(alloc: Global, items: &mut Values, position: i128) -> Result<Value, OpEnd>
    ensures comes { ChangesList (λ n. pops n items.old position) result items.new }
    ensures kept { OnErr result (items.new ≡ items.old) }
{
    if items.is_empty() {
        return Err(fails(alloc, ExcKind::IndexError, "pop from empty list"));
    }
    let Some(at) = place_among(items.len(), position) else {
        return Err(fails(alloc, ExcKind::IndexError, "list index out of range"));
    };
    Ok(items.remove(at))
}

/// The items the other way round.
pub(crate) fn reverse(items: &mut Values) -> Result<Value, OpEnd>
    ensures comes { ChangesList (λ n. list_method n items.old method.Reverse []) result items.new }
    ensures kept { OnErr result (items.new ≡ items.old) }
{
    items.reverse();
    Ok(none())
}
