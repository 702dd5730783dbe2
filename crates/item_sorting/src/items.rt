ghost use Rattle.std.specs.Prelude.{◌≡◌, IfOk, map, option_map};
ghost use Rattle.rp_base.specs.declared.value.Value.TheVariants as value;
ghost use Rattle.rp_base.specs.Values.{plains_of};
ghost use Rattle.py_store.specs.declared.cell.Cell.TheVariants as cell;
ghost use Rattle.language_rules.specs.Going.{gives_new};
ghost use Rattle.language_rules.specs.Ordering.{in_order, sorted_plain};
ghost use Rattle.item_sorting.specs.Sorting.{Makes, Sorts};

use crate::kinds::{all_numbers, all_texts};
use crate::orders::{numbers_in_order, texts_in_order};
use py_store::Values;
use rp_base::{Beyond, NoMemory, OpEnd, Plain, Value, to_plain};
use std::alloc::Global;

/// The items in the order that `sorted` gives them; equals keep their order.
///
/// It takes n log n comparisons of n items, and memory for a copy of each.
///
/// # Errors
///
/// `Beyond(Order)` where an item is not plain, or the items are neither all numbers (int, bool) nor all texts.
pub fn sorted_items(alloc: Global, items: &[Value]) -> Result<Values, OpEnd>
    ensures { Sorts items.now result }
{
    match plains_of(alloc, items) {
        Ok(Some(plains)) => sorted_plain(alloc, plains),
        Ok(None) => Err(OpEnd::Beyond(Beyond::Order)),
        Err(_) => Err(OpEnd::NoMemory),
    }
}

/// The plain values that these are, where each is one.
fn plains_of(alloc: Global, items: &[Value]) -> Result<Option<Vec<Plain>>, NoMemory>
    ensures { IfOk result (λ ps. option_map (λ v. v.items) ps ≡ plains_of items.now) }
{
    let mut all = Vec::new(alloc);
    for item in items {
        match to_plain(alloc, item)? {
            Some(plain) => all.push(plain)?,
            None => return Ok(None),
        }
    }
    Ok(Some(all))
}

fn sorted_plain(alloc: Global, plains: Vec<Plain>) -> Result<Values, OpEnd>
    ensures { Makes (sorted_plain plains.items) result }
{
    if all_numbers(plains.as_slice()) {
        return match numbers_in_order(plains) {
            Ok(sorted) => listed(alloc, sorted),
            Err(_) => Err(OpEnd::NoMemory),
        };
    }
    if all_texts(plains.as_slice()) {
        return match texts_in_order(plains) {
            Ok(sorted) => listed(alloc, sorted),
            Err(_) => Err(OpEnd::NoMemory),
        };
    }
    Err(OpEnd::Beyond(Beyond::Order))
}

/// The items of a list of these.
fn listed(alloc: Global, plains: Vec<Plain>) -> Result<Values, OpEnd>
    ensures { Makes (gives_new (cell.List (map (λ p. value.Plain p) plains.items))) result }
{
    match values_of(alloc, plains) {
        Ok(values) => Ok(values),
        Err(_) => Err(OpEnd::NoMemory),
    }
}

fn values_of(alloc: Global, plains: Vec<Plain>) -> Result<Values, NoMemory>
    ensures { IfOk result (λ items. items ≡ map (λ p. value.Plain p) plains.items) }
{
    let mut items = Values::new(alloc);
    for plain in plains {
        items.push(Value::Plain(plain))?;
    }
    Ok(items)
}
