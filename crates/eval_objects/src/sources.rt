ghost use Rattle.std.specs.Prelude.{◌≡◌, ℕ, IfOk, Result, Some, map, slice_get};
ghost use Rattle.rp_base.specs.declared.ends.TupleEnd.{TupleEnd};
ghost use Rattle.rp_base.specs.Values.{OrNoMemory};
ghost use Rattle.rp_base.specs.declared.value.Value.{Value};
ghost use Rattle.rp_base.specs.declared.value.Value.TheVariants as value;
ghost use Rattle.py_store.specs.declared.cell.Cell.TheVariants as cell;
ghost use Rattle.py_store.specs.declared.cell.Which.TheVariants as view;
ghost use Rattle.language_rules.specs.Answers.{on_tuple};
ghost use Rattle.language_rules.specs.Draining.{ints_of_bytes, items_at_hand};
ghost use Rattle.language_rules.specs.Iterating.{advances, advances_shown, next_of, next_of_cell, next_of_sequence, next_shown, range_item_at, unchanged};
ghost use Rattle.language_rules.specs.Going.{reads_cell};
ghost use Rattle.eval_objects.specs.Iterators.{ComesUp, comes_up};

use crate::upcoming::{Upcoming, coming};
use builtin_functions::items_at_hand;
use eval_ranges::{range_item, range_length};
use py_store::{Cell, Entries, Store, Which};
use rp_base::{Beyond, NoMemory, Plain, TupleEnd, Value, make_tuple};
use sqlite_items::Items;
use std::alloc::Global;

/// What an iterator over this source, which gave so many items, comes to next. An object is looked at as it is now.
pub(crate) fn upcoming_of(
    alloc: Global,
    store: &Store,
    source: &Value,
    at: u64,
    shape: u64,
) -> Result<Upcoming, NoMemory>
    ensures { IfOk result (λ u. ComesUp store.now.cells (λ n. next_of n at shape source.now) (Some source.now) at shape u) }
{
    match source {
        Value::Own(number) => upcoming_of_object(alloc, store, *number, at, shape),
        Value::Plain(_) => upcoming_of_sequence(alloc, source, at),
        Value::Tuple(_) => upcoming_of_sequence(alloc, source, at),
        Value::Proxy(_) => upcoming_of_sequence(alloc, source, at),
    }
}

/// The next item of a text, a byte string or a tuple.
fn upcoming_of_sequence(alloc: Global, source: &Value, at: u64) -> Result<Upcoming, NoMemory>
    ensures { IfOk result (λ u. (n shape : ℕ) → next_of_sequence n source.now at shape (items_at_hand source.now) ≡ comes_up n u (cell.Iter (Some source.now) at shape)) }
{
    match source {
        Value::Plain(Plain::Text(_)) => upcoming_at_hand(alloc, source, at),
        Value::Plain(Plain::Bytes(bytes)) => Ok(coming(byte_item(bytes.as_slice(), at))),
        Value::Plain(Plain::Tuple(items)) => Ok(coming(plain_item(alloc, items.as_slice(), at)?)),
        Value::Tuple(items) => Ok(coming(value_item(alloc, items.as_slice(), at)?)),
        _ => Ok(Upcoming::Left(Beyond::NotYet)),
    }
}

/// The next of all items of a value: for a text they are made first.
fn upcoming_at_hand(alloc: Global, source: &Value, at: u64) -> Result<Upcoming, NoMemory>
    ensures { IfOk result (λ u. (n shape : ℕ) → next_of_sequence n source.now at shape (items_at_hand source.now) ≡ comes_up n u (cell.Iter (Some source.now) at shape)) }
{
    match items_at_hand(alloc, source)? {
        Some(items) => Ok(coming(value_item(alloc, items.as_slice(), at)?)),
        None => Ok(Upcoming::Left(Beyond::NotYet)),
    }
}

fn byte_item(bytes: &[u8], at: u64) -> Option<Value>
    ensures { result ≡ slice_get (ints_of_bytes bytes.now) at }
{
    match bytes.get(at as usize) {
        Some(byte) => Some(Value::Plain(Plain::Int(i128::from(*byte)))),
        None => None,
    }
}

fn plain_item(alloc: Global, items: &[Plain], at: u64) -> Result<Option<Value>, NoMemory>
    ensures { IfOk result (λ item. item ≡ slice_get (map (λ p. value.Plain p) items.now) at) }
{
    match items.get(at as usize) {
        Some(plain) => Ok(Some(Value::Plain(plain.copy(alloc)?))),
        None => Ok(None),
    }
}

fn value_item(alloc: Global, items: &[Value], at: u64) -> Result<Option<Value>, NoMemory>
    ensures { IfOk result (λ item. item ≡ slice_get items.now at) }
{
    match items.get(at as usize) {
        Some(value) => Ok(Some(value.copy(alloc)?)),
        None => Ok(None),
    }
}

/// The next item of a list, a range, a dict or a view.
fn upcoming_of_object(
    alloc: Global,
    store: &Store,
    number: u32,
    at: u64,
    shape: u64,
) -> Result<Upcoming, NoMemory>
    ensures { IfOk result (λ u. ComesUp store.now.cells (λ n. next_of n at shape (value.Own number)) (Some (value.Own number)) at shape u) }
{
    match store.get(number) {
        Some(cell) => upcoming_of_cell(alloc, store, cell, at, shape),
        None => Ok(Upcoming::Left(Beyond::NotYet)),
    }
}

fn upcoming_of_cell(
    alloc: Global,
    store: &Store,
    source: &Cell,
    at: u64,
    shape: u64,
) -> Result<Upcoming, NoMemory>
    ensures { IfOk result (λ u. (v : Value) → ComesUp store.now.cells (λ n. next_of_cell n v at shape source.now) (Some v) at shape u) }
{
    match source {
        Cell::List(items) => Ok(coming(value_item(alloc, items.as_slice(), at)?)),
        Cell::Dict {
            entries,
            shape: now,
        } => { upcoming_entry(alloc, entries, *now, Which::Keys, at, shape) }
        Cell::View { dict, which } => upcoming_shown(alloc, store, *dict, *which, at, shape),
        Cell::Range { start, stop, step } => Ok(coming(item_of_range(*start, *stop, *step, at))),
        _ => Ok(Upcoming::Left(Beyond::NotYet)),
    }
}

/// The item of a range at a place.
fn item_of_range(start: i128, stop: i128, step: i128, at: u64) -> Option<Value>
    ensures { result ≡ range_item_at start stop step at }
{
    let place = u128::from(at);
    if place < range_length(start, stop, step) {
        let item = range_item(start, stop, step, place);
        Some(Value::Plain(Plain::Int(item)))
    } else {
        None
    }
}

/// The next entry of a view, from its dict as it is now.
fn upcoming_shown(
    alloc: Global,
    store: &Store,
    dict: u32,
    which: Which,
    at: u64,
    shape: u64,
) -> Result<Upcoming, NoMemory>
    ensures { IfOk result (λ u. (v : Value) → ComesUp store.now.cells (λ n. reads_cell dict (next_shown n v at shape which)) (Some v) at shape u) }
{
    match store.get(dict) {
        Some(
            Cell::Dict {
                entries,
                shape: now,
            },
        ) => { upcoming_entry(alloc, entries, *now, which, at, shape) }
        _ => Ok(Upcoming::Left(Beyond::NotYet)),
    }
}

/// The entry at a place, where the dict has the keys that it had.
fn upcoming_entry(
    alloc: Global,
    entries: &Entries,
    now: u64,
    which: Which,
    at: u64,
    shape: u64,
) -> Result<Upcoming, NoMemory>
    ensures { IfOk result (λ u. (n : ℕ) (v : Value) → unchanged shape now (advances_shown n v at shape which (slice_get entries.now at)) ≡ comes_up n u (cell.Iter (Some v) at shape)) }
{
    if shape != now {
        return Ok(Upcoming::Left(Beyond::Changed));
    }
    if at as usize >= entries.len() {
        return Ok(Upcoming::End);
    }
    shown_entry(
        alloc,
        entries.key_at(at as usize),
        entries.value_at(at as usize),
        which,
    )
}

/// The key, the value, or the tuple of both.
fn shown_entry(
    alloc: Global,
    key: &Plain,
    value: &Value,
    which: Which,
) -> Result<Upcoming, NoMemory>
    ensures { IfOk result (λ u. (n at shape : ℕ) (v : Value) → advances_shown n v at shape which (Some (key.now, value.now)) ≡ comes_up n u (cell.Iter (Some v) at shape)) }
{
    match which {
        Which::Keys => Ok(Upcoming::Item(Value::Plain(key.copy(alloc)?))),
        Which::Values => Ok(Upcoming::Item(value.copy(alloc)?)),
        Which::Items => both(alloc, key, value),
    }
}

/// The tuple of a key and its value.
fn both(alloc: Global, key: &Plain, value: &Value) -> Result<Upcoming, NoMemory>
    ensures { IfOk result (λ u. (n at shape : ℕ) (v : Value) → advances_shown n v at shape view.Items (Some (key.now, value.now)) ≡ comes_up n u (cell.Iter (Some v) at shape)) }
{
    let mut items = Items::new(alloc);
    items.push(Value::Plain(key.copy(alloc)?))?;
    items.push(value.copy(alloc)?)?;
    made(make_tuple(alloc, items))
}

fn made(tuple: Result<Value, TupleEnd>) -> Result<Upcoming, NoMemory>
    ensures { IfOk result (λ u. (n at shape : ℕ) (v : Value) (told : Result Value TupleEnd) → OrNoMemory tuple told → on_tuple (λ item. advances n v at shape (Some item)) told ≡ comes_up n u (cell.Iter (Some v) at shape)) }
{
    match tuple {
        Ok(value) => Ok(Upcoming::Item(value)),
        Err(TupleEnd::Beyond(beyond)) => Ok(Upcoming::Left(beyond)),
        Err(TupleEnd::NoMemory) => Err(NoMemory),
    }
}
