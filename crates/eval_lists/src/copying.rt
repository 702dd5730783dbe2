ghost use Rattle.std.specs.Prelude.{◌≡◌, ◌++◌, ◌*◌, ℤ, IfOk, OnOk, List, Some, length, Option};
ghost use Rattle.std.specs.List.{repeat};
ghost use Rattle.rp_base.specs.declared.value.Value.{Value};
ghost use Rattle.py_plain.specs.Arithmetic.{count_of, is_count};
ghost use Rattle.py_store.specs.declared.cell.Cell.TheVariants as cell;
ghost use Rattle.eval_frames.specs.declared.frame.Frame.{Frame};
ghost use Rattle.eval_frames.specs.Meaning.{IsLight, Means};
ghost use Rattle.language_rules.specs.Arithmetic.{multiplies};
ghost use Rattle.language_rules.specs.Entries.{within_items};
ghost use Rattle.language_rules.specs.Going.{gives_new};
ghost use Rattle.language_rules.specs.TextFunctions.{as_int};

use eval_frames::Next;
use eval_ranges::{as_int, refuse};
use py_lists::MOST_ITEMS;
use py_store::{Cell, Values};
use rp_base::{Beyond, NoMemory, Value};
use std::alloc::Global;

/// A new list of so many copies of these items. `Leave(Int)` where the int is outside 64 bits, `Leave(Size)` past the
/// limit of a list.
pub(crate) fn multiply(alloc: Global, items: &[Value], count: &Value) -> Result<Next, NoMemory>
    ensures means { IfOk result (λ next. (stack : List Frame) → Means stack next (multiplies items.now (as_int count.now)) stack) }
    ensures light { IfOk result (λ next. (stack : List Frame) → IsLight stack next stack) }
{
    match as_int(count) {
        Some(n) => copies(alloc, items, n),
        None => refuse(alloc, "unsupported operand"),
    }
}

fn copies(alloc: Global, items: &[Value], n: i128) -> Result<Next, NoMemory>
    ensures means { IfOk result (λ next. (stack : List Frame) → Means stack next (multiplies items.now (Some n)) stack) }
    ensures light { IfOk result (λ next. (stack : List Frame) → IsLight stack next stack) }
{
    if is_count(n) {
        repeated(alloc, items, count_of(n))
    } else {
        Ok(Next::Leave(Beyond::Int))
    }
}

/// Whether an int is one of 64 bits.
fn is_count(n: i128) -> bool
    ensures { result ≡ is_count n }
{
    i64::try_from(n).is_ok()
}

/// How many copies an int asks for: none where it is below 0.
fn count_of(n: i128) -> u128
    ensures { result ≡ count_of n }
{
    n.max(0) as u128
}

/// The new list of n times these items, whose number is judged before it is made.
fn repeated(alloc: Global, items: &[Value], n: u128) -> Result<Next, NoMemory>
    ensures means { IfOk result (λ next. (stack : List Frame) → Means stack next (within_items (length items.now * n) (gives_new (cell.List (repeat n items.now)))) stack) }
    ensures light { IfOk result (λ next. (stack : List Frame) → IsLight stack next stack) }
{
    if (items.len() as u128).saturating_mul(n) > MOST_ITEMS as u128 {
        return Ok(Next::Leave(Beyond::Size));
    }
    Ok(Next::Make(Cell::List(append_copies(alloc, items, n)?)))
}

fn append_copies(alloc: Global, items: &[Value], n: u128) -> Result<Values, NoMemory>
    ensures { IfOk result (λ all. all ≡ repeat n items.now) }
{
    let mut all = Values::new(alloc);
    if items.is_empty() {
        return Ok(all);
    }
    for _ in 0..n {
        append_items(alloc, items, &mut all)?;
    }
    Ok(all)
}

fn append_items(alloc: Global, items: &[Value], all: &mut Values) -> Result<(), NoMemory>
    ensures { OnOk result (all.new ≡ all.old ++ items.now) }
{
    for item in items {
        all.push(item.copy(alloc)?)?;
    }
    Ok(())
}
