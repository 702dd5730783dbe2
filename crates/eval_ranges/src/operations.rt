ghost use Rattle.std.specs.Prelude.{IfOk, List, codes};
ghost use Rattle.py_store.specs.declared.cell.Cell.TheVariants as cell;
ghost use Rattle.eval_frames.specs.declared.frame.Frame.{Frame};
ghost use Rattle.eval_frames.specs.Meaning.{IsLight, Means};
ghost use Rattle.language_rules.specs.Containing.{gives_in_range};
ghost use Rattle.language_rules.specs.Items.{item_of_range};
ghost use Rattle.language_rules.specs.Iterating.{iter_rule};
ghost use Rattle.language_rules.specs.Lengths.{gives_filled, gives_length};
ghost use Rattle.language_rules.specs.PlainItems.{gives_item, on_index};
ghost use Rattle.language_rules.specs.Ranges.{range_length};
ghost use Rattle.language_rules.specs.TextFunctions.{as_int};

use crate::answers::{give, give_truth, refuse};
use crate::numbers::{as_int, place_among, range_has, range_item, range_length};
use eval_frames::{Next, fail};
use py_store::Cell;
use rp_base::{Beyond, ExcKind, NoMemory, Plain, Value};
use std::alloc::Global;

/// The greatest length that `len` gives.
const LONGEST: u128 = 9_223_372_036_854_775_807;

/// How many items there are. `Leave(Int)` past 63 bits.
pub(crate) fn length(start: i128, stop: i128, step: i128) -> Next
    ensures means { (stack : List Frame) → Means stack result (gives_length (range_length start stop step)) stack }
    ensures light { (stack : List Frame) → IsLight stack result stack }
{
    let length = range_length(start, stop, step);
    if length > LONGEST {
        return Next::Leave(Beyond::Int);
    }
    give(Value::Plain(Plain::Int(length as i128)))
}

/// Whether there is an item.
pub(crate) fn truth(start: i128, stop: i128, step: i128) -> Next
    ensures means { (stack : List Frame) → Means stack result (gives_filled (range_length start stop step)) stack }
    ensures light { (stack : List Frame) → IsLight stack result stack }
{
    give_truth(range_length(start, stop, step) > 0)
}

/// A new iterator over the range of this number.
pub(crate) fn iterator(number: u32, start: i128, stop: i128, step: i128) -> Next
    ensures means { (stack : List Frame) → Means stack result (iter_rule number (cell.Range start stop step)) stack }
    ensures light { (stack : List Frame) → IsLight stack result stack }
{
    Next::Make(Cell::Iter {
        source: Some(Value::Own(number)),
        at: 0,
        shape: 0,
    })
}

/// The item at a position.
pub(crate) fn get_item(
    alloc: Global,
    start: i128,
    stop: i128,
    step: i128,
    key: &Value,
) -> Result<Next, NoMemory>
    ensures means { IfOk result (λ next. (stack : List Frame) → Means stack next (on_index (λ k. gives_item (codes "range") (item_of_range start stop step k)) (as_int key.now)) stack) }
    ensures light { IfOk result (λ next. (stack : List Frame) → IsLight stack next stack) }
{
    match as_int(key) {
        Some(position) => item_at(alloc, start, stop, step, position),
        None => refuse(alloc, "index is no integer"),
    }
}

fn item_at(
    alloc: Global,
    start: i128,
    stop: i128,
    step: i128,
    position: i128,
) -> Result<Next, NoMemory>
    ensures means { IfOk result (λ next. (stack : List Frame) → Means stack next (gives_item (codes "range") (item_of_range start stop step position)) stack) }
    ensures light { IfOk result (λ next. (stack : List Frame) → IsLight stack next stack) }
{
    match place_among(range_length(start, stop, step), position) {
        Some(place) => {
            let item = range_item(start, stop, step, place);
            Ok(give(Value::Plain(Plain::Int(item))))
        }
        None => fail(alloc, ExcKind::IndexError, "range index out of range"),
    }
}

/// Whether an int is an item. `Leave(Compare)` for what is no int.
pub(crate) fn contains(start: i128, stop: i128, step: i128, x: &Value) -> Next
    ensures means { (stack : List Frame) → Means stack result (gives_in_range start stop step (as_int x.now)) stack }
    ensures light { (stack : List Frame) → IsLight stack result stack }
{
    match as_int(x) {
        Some(n) => give_truth(range_has(start, stop, step, n)),
        None => Next::Leave(Beyond::Compare),
    }
}
