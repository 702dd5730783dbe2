ghost use Rattle.std.specs.Prelude.{◌≡◌, ◌<◌, ◌≤◌, Some, OnErr, List, length};
ghost use Rattle.py_store.specs.declared.cell.Cell.TheVariants as cell;
ghost use Rattle.py_store.specs.Cells.{cell_of, with_cell};
ghost use Rattle.language_rules.specs.AtOnce.{CarriesOut, Reads};
ghost use Rattle.language_rules.specs.Calls.{method_rule};
ghost use Rattle.language_rules.specs.ListMethods.{list_method};
ghost use Rattle.language_rules.specs.Perform.{special_of_cell, special_rule};
ghost use Rattle.py_lists.specs.Lists.{ChangesList, IsChanging, IsDirect, IsList, IsReading};

use crate::items::{delete_item, get_item, length, set_item, truth};
use crate::methods::{append, clear, insert, pop, pop_last, reverse};
use object_operations::{BuiltinMethod, Special};
use py_store::{Cell, Store, Values};
use rp_base::{Beyond, OpEnd, Value};
use std::alloc::Global;

/// A method of the list of this number that neither searches nor drains. `Beyond(Arguments)` for a wrong number of arguments.
pub fn list_method(
    alloc: Global,
    store: &mut Store,
    number: u32,
    method: BuiltinMethod,
    arguments: &[Value],
) -> Result<Value, OpEnd>
    requires list { IsList store.old.cells number }
    requires direct { IsDirect method }
    ensures comes { CarriesOut (method_rule (Value.Own number) method arguments.now) store.old.cells result store.new.cells }
    ensures kept { OnErr result (store.new ≡ store.old) }
{
    let mut items = take_list(store, number);
    let answer = method_of_items(alloc, &mut items, method, arguments);
    put_list(store, number, items);
    answer
}

/// An operation that changes the list of this number: `__setitem__` or `__delitem__`.
pub fn change_list(
    alloc: Global,
    store: &mut Store,
    number: u32,
    special: Special,
    arguments: &[Value],
) -> Result<Value, OpEnd>
    requires list { IsList store.old.cells number }
    requires changing { IsChanging special arguments.now }
    ensures comes { CarriesOut (special_rule special (Value.Own number) arguments.now) store.old.cells result store.new.cells }
    ensures kept { OnErr result (store.new ≡ store.old) }
{
    let mut items = take_list(store, number);
    let answer = change_of_items(alloc, &mut items, special, arguments);
    put_list(store, number, items);
    answer
}

/// An operation that reads the list of this number: `__len__`, `__bool__` or `__getitem__`.
pub fn read_list(
    alloc: Global,
    store: &Store,
    number: u32,
    special: Special,
    arguments: &[Value],
) -> Result<Value, OpEnd>
    requires list { IsList store.now.cells number }
    requires reading { IsReading special arguments.now }
    ensures { CarriesOut (special_rule special (Value.Own number) arguments.now) store.now.cells result store.now.cells }
{
    read_of_items(alloc, list_of(store, number), special, arguments)
}

/// The items of the list of this number.
#[tactic(auto, using(crate::proofs::CellLemmas::list_is_there))]
fn list_of(store: &Store, number: u32) -> &[Value]
    requires { IsList store.now.cells number }
    ensures { cell_of store.now.cells number ≡ Some (cell.List result.now) }
{
    match store.cell(number) {
        Cell::List(items) => items.as_slice(),
        _ => unreachable!(),
    }
}

/// Takes the items of the list out, and leaves another cell in its place.
#[tactic(auto, using(crate::proofs::CellLemmas::list_is_there))]
pub fn take_list(store: &mut Store, number: u32) -> Values
    requires { IsList store.old.cells number }
    ensures items { cell_of store.old.cells number ≡ Some (cell.List result) }
    ensures left { store.new ≡ record store.old { cells = with_cell store.old.cells number cell.Root } }
    ensures there { (0 < number) × (number ≤ length store.new.cells) }
{
    match store.replace(number, Cell::Root) {
        Cell::List(items) => items,
        _ => unreachable!(),
    }
}

/// Puts items in the place of the cell of this number.
pub fn put_list(store: &mut Store, number: u32, items: Values)
    requires { (0 < number) × (number ≤ length store.old.cells) }
    ensures { store.new ≡ record store.old { cells = with_cell store.old.cells number (cell.List items) } }
{
    store.replace(number, Cell::List(items));
}

fn method_of_items(
    alloc: Global,
    items: &mut Values,
    method: BuiltinMethod,
    arguments: &[Value],
) -> Result<Value, OpEnd>
    requires { IsDirect method }
    ensures comes { ChangesList (λ n. list_method n items.old method arguments.now) result items.new }
    ensures kept { OnErr result (items.new ≡ items.old) }
{
    match method {
        BuiltinMethod::Append => match arguments {
            [item] => append(items, item.copy(alloc)?),
            _ => Err(OpEnd::Beyond(Beyond::Arguments)),
        },
        BuiltinMethod::Clear => match arguments {
            [] => clear(alloc, items),
            _ => Err(OpEnd::Beyond(Beyond::Arguments)),
        },
        BuiltinMethod::Insert => match arguments {
            [position, item] => insert(items, position, item.copy(alloc)?),
            _ => Err(OpEnd::Beyond(Beyond::Arguments)),
        },
        BuiltinMethod::Pop => match arguments {
            [] => pop_last(alloc, items),
            [position] => pop(alloc, items, position),
            _ => Err(OpEnd::Beyond(Beyond::Arguments)),
        },
        BuiltinMethod::Reverse => match arguments {
            [] => reverse(items),
            _ => Err(OpEnd::Beyond(Beyond::Arguments)),
        },
        _ => unreachable!(),
    }
}

fn change_of_items(
    alloc: Global,
    items: &mut Values,
    special: Special,
    arguments: &[Value],
) -> Result<Value, OpEnd>
    requires { IsChanging special arguments.now }
    ensures comes { ChangesList (λ n. special_of_cell special n arguments.now (cell.List items.old)) result items.new }
    ensures kept { OnErr result (items.new ≡ items.old) }
{
    match special {
        Special::SetItem => match arguments {
            [key, item] => set_item(alloc, items, key, item.copy(alloc)?),
            _ => unreachable!(),
        },
        Special::DelItem => match arguments {
            [key] => delete_item(alloc, items, key),
            _ => unreachable!(),
        },
        _ => unreachable!(),
    }
}

fn read_of_items(
    alloc: Global,
    items: &[Value],
    special: Special,
    arguments: &[Value],
) -> Result<Value, OpEnd>
    requires { IsReading special arguments.now }
    ensures { Reads (λ n. special_of_cell special n arguments.now (cell.List items.now)) result }
{
    match special {
        Special::Len => length(items),
        Special::Bool => truth(items),
        Special::GetItem => match arguments {
            [key] => get_item(alloc, items, key),
            _ => unreachable!(),
        },
        _ => unreachable!(),
    }
}
