ghost use Rattle.std.specs.Prelude.{◌≡◌, ◌<◌, ◌≤◌, [], Some, OnErr, length};
ghost use Rattle.py_store.specs.declared.cell.Cell.TheVariants as cell;
ghost use Rattle.py_store.specs.Cells.{cell_of, most_cells, with_cell};
ghost use Rattle.language_rules.specs.AtOnce.{CarriesOut, Changes, Reads};
ghost use Rattle.language_rules.specs.Calls.{method_rule};
ghost use Rattle.language_rules.specs.DictMethods.{dict_method};
ghost use Rattle.language_rules.specs.Perform.{special_of_cell, special_rule};
ghost use Rattle.py_dicts.specs.DictCells.{IsChanging, IsDict, IsDirect, IsReading, view_method};

use crate::changing::{clear, delete_item, pop, pop_or, set_default, set_item};
use crate::reading::{contains, get, get_item, get_or, length, truth};
use object_operations::{BuiltinMethod, Special};
use py_store::{Cell, Entries, Store, Which};
use rp_base::{Beyond, OpEnd, Value};
use std::alloc::Global;

/// The greatest number of entries of a dict.
pub const MOST_ENTRIES: usize = 1_048_576;

/// A method of the dict of this number. Those that make a view are none of these. An end that is no value leaves the
/// store as it was.
pub fn dict_method(
    alloc: Global,
    store: &mut Store,
    number: u32,
    method: BuiltinMethod,
    arguments: &[Value],
) -> Result<Value, OpEnd>
    requires dict { IsDict store.old.cells number }
    requires direct { IsDirect method }
    ensures comes { CarriesOut (method_rule (Value.Own number) method arguments.now) store.old.cells result store.new.cells }
    ensures kept { OnErr result (store.new ≡ store.old) }
{
    let (mut entries, mut shape) = take_dict(store, number);
    let answer = method_of_dict(alloc, &mut entries, &mut shape, method, arguments);
    put_dict(store, number, entries, shape);
    answer
}

/// An operation that changes the dict of this number. An end that is no value leaves the store as it was.
pub fn change_dict(
    alloc: Global,
    store: &mut Store,
    number: u32,
    special: Special,
    arguments: &[Value],
) -> Result<Value, OpEnd>
    requires dict { IsDict store.old.cells number }
    requires changing { IsChanging special }
    ensures comes { CarriesOut (special_rule special (Value.Own number) arguments.now) store.old.cells result store.new.cells }
    ensures kept { OnErr result (store.new ≡ store.old) }
{
    let (mut entries, mut shape) = take_dict(store, number);
    let answer = change_of_dict(alloc, &mut entries, &mut shape, special, arguments);
    put_dict(store, number, entries, shape);
    answer
}

/// An operation that reads the dict of this number.
pub fn read_dict(
    alloc: Global,
    store: &Store,
    number: u32,
    special: Special,
    arguments: &[Value],
) -> Result<Value, OpEnd>
    requires dict { IsDict store.now.cells number }
    requires reading { IsReading special }
    ensures { CarriesOut (special_rule special (Value.Own number) arguments.now) store.now.cells result store.now.cells }
{
    let (entries, shape) = dict_of(store, number);
    read_of_dict(alloc, entries, shape, special, arguments)
}

/// A view of the dict of this number, which is a new cell. There are fewer than 4,000,000,000 cells before it.
#[tactic(auto, using(crate::proofs::CellLemmas::viewed))]
pub fn dict_view(store: &mut Store, number: u32, which: Which) -> Result<Value, OpEnd>
    requires dict { IsDict store.old.cells number }
    requires room { length store.old.cells < most_cells }
    ensures comes { CarriesOut (method_rule (Value.Own number) (view_method which) []) store.old.cells result store.new.cells }
    ensures kept { OnErr result (store.new ≡ store.old) }
{
    Ok(Value::Own(store.make(Cell::View {
        dict: number,
        which,
    })?))
}

/// The entries and the shape of the dict of this number.
#[tactic(auto, using(crate::proofs::CellLemmas::dict_is_there))]
fn dict_of(store: &Store, number: u32) -> (&Entries, u64)
    requires { IsDict store.now.cells number }
    ensures { cell_of store.now.cells number ≡ Some (cell.Dict result.0.now result.1) }
{
    match store.cell(number) {
        Cell::Dict { entries, shape } => (entries, *shape),
        _ => unreachable!(),
    }
}

/// Takes the entries and the shape of the dict out, and leaves another cell in its place.
#[tactic(auto, using(crate::proofs::CellLemmas::dict_is_there))]
fn take_dict(store: &mut Store, number: u32) -> (Entries, u64)
    requires { IsDict store.old.cells number }
    ensures dict { cell_of store.old.cells number ≡ Some (cell.Dict result.0 result.1) }
    ensures left { store.new ≡ record store.old { cells = with_cell store.old.cells number cell.Root } }
    ensures there { (0 < number) × (number ≤ length store.new.cells) }
{
    match store.replace(number, Cell::Root) {
        Cell::Dict { entries, shape } => (entries, shape),
        _ => unreachable!(),
    }
}

/// Puts a dict in the place of the cell of this number.
fn put_dict(store: &mut Store, number: u32, entries: Entries, shape: u64)
    requires { (0 < number) × (number ≤ length store.old.cells) }
    ensures { store.new ≡ record store.old { cells = with_cell store.old.cells number (cell.Dict entries shape) } }
{
    store.replace(number, Cell::Dict { entries, shape });
}

fn method_of_dict(
    alloc: Global,
    entries: &mut Entries,
    shape: &mut u64,
    method: BuiltinMethod,
    arguments: &[Value],
) -> Result<Value, OpEnd>
    requires { IsDirect method }
    ensures comes { Changes (λ n. dict_method n entries.old shape.old method arguments.now) (cell.Dict entries.old shape.old) result (cell.Dict entries.new shape.new) }
    ensures kept { OnErr result ((entries.new ≡ entries.old) × (shape.new ≡ shape.old)) }
{
    match method {
        BuiltinMethod::Clear => match arguments {
            [] => clear(alloc, entries, shape),
            _ => Err(OpEnd::Beyond(Beyond::Arguments)),
        },
        BuiltinMethod::Get => match arguments {
            [key] => get(alloc, entries, *shape, key),
            [key, otherwise] => get_or(alloc, entries, *shape, key, otherwise),
            _ => Err(OpEnd::Beyond(Beyond::Arguments)),
        },
        BuiltinMethod::Pop => match arguments {
            [key] => pop(alloc, entries, shape, key),
            [key, otherwise] => pop_or(alloc, entries, shape, key, otherwise.copy(alloc)?),
            _ => Err(OpEnd::Beyond(Beyond::Arguments)),
        },
        BuiltinMethod::SetDefault => match arguments {
            [key, otherwise] => set_default(alloc, entries, shape, key, otherwise.copy(alloc)?),
            _ => Err(OpEnd::Beyond(Beyond::Arguments)),
        },
        _ => unreachable!(),
    }
}

fn change_of_dict(
    alloc: Global,
    entries: &mut Entries,
    shape: &mut u64,
    special: Special,
    arguments: &[Value],
) -> Result<Value, OpEnd>
    requires { IsChanging special }
    ensures comes { Changes (λ n. special_of_cell special n arguments.now (cell.Dict entries.old shape.old)) (cell.Dict entries.old shape.old) result (cell.Dict entries.new shape.new) }
    ensures kept { OnErr result ((entries.new ≡ entries.old) × (shape.new ≡ shape.old)) }
{
    match special {
        Special::SetItem => match arguments {
            [key, item] => set_item(alloc, entries, shape, key, item.copy(alloc)?),
            _ => Err(OpEnd::Beyond(Beyond::NotYet)),
        },
        Special::DelItem => match arguments {
            [key] => delete_item(alloc, entries, shape, key),
            _ => Err(OpEnd::Beyond(Beyond::NotYet)),
        },
        _ => unreachable!(),
    }
}

fn read_of_dict(
    alloc: Global,
    entries: &Entries,
    shape: u64,
    special: Special,
    arguments: &[Value],
) -> Result<Value, OpEnd>
    requires { IsReading special }
    ensures { Reads (λ n. special_of_cell special n arguments.now (cell.Dict entries.now shape)) result }
{
    match special {
        Special::Len => match arguments {
            [] => length(entries, shape),
            _ => Err(OpEnd::Beyond(Beyond::NotYet)),
        },
        Special::Bool => match arguments {
            [] => truth(entries, shape),
            _ => Err(OpEnd::Beyond(Beyond::NotYet)),
        },
        Special::GetItem => match arguments {
            [key] => get_item(alloc, entries, shape, key),
            _ => Err(OpEnd::Beyond(Beyond::NotYet)),
        },
        Special::Contains => match arguments {
            [key] => contains(alloc, entries, shape, key),
            _ => Err(OpEnd::Beyond(Beyond::NotYet)),
        },
        _ => unreachable!(),
    }
}
