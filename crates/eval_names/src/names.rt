ghost use Rattle.std.specs.Prelude.{◌≡◌, ◌<◌, ◌≤◌, OnErr, List, length, Some, option_copied};
ghost use Rattle.py_ast.specs.declared.program.Program.{Program};
ghost use Rattle.py_store.specs.declared.cell.Cell.TheVariants as cell;
ghost use Rattle.py_store.specs.Cells.{cell_of, with_cell};
ghost use Rattle.side_trees.specs.Trees.{Return};
ghost use Rattle.language_rules.specs.Answers.{gives};
ghost use Rattle.language_rules.specs.AtOnce.{CarriesOut, Comes, Computes, over, stated};
ghost use Rattle.language_rules.specs.Going.{done, fails};
ghost use Rattle.language_rules.specs.Names.{binds_at, binds_global, binds_name, binds_variable, reads_at, reads_global, reads_name, reads_variable};
ghost use Rattle.language_rules.specs.States.{State, namespace_number};
ghost use Rattle.eval_names.specs.Bound.{IsNamespace, IsScope, as_done};
ghost use Rattle.eval_names.specs.Places.{meant};

use crate::ends::fails;
use crate::lookup::{has_name, place_of};
use crate::place::Place;
use object_operations::Env;
use py_ast::Program;
use py_store::{Binding, Cell, Store, bind, bound};
use rp_base::{Beyond, ExcKind, OpEnd, Text, Value};
use sqlite_items::Items;
use std::alloc::Global;

/// The number of the cell with a side's global names.
const NAMESPACE: u32 = 1;

/// The value that the name stands for. `Beyond(Name)` for an unbound name that a text has after `as`, and
/// `Beyond(NotYet)` where the state has no such text, function or scope.
pub fn read_name(
    alloc: Global,
    store: &Store,
    texts: &[Program],
    env: Env,
    name: &str,
) -> Result<Value, OpEnd>
    ensures { (fixed : State) → Comes (reads_name env name.now gives) (stated fixed store.now.cells texts.now) result (stated fixed store.now.cells texts.now) (stated fixed store.now.cells texts.now) }
{
    let place = place_of(store, texts, env, name);
    read_at(alloc, store, texts, place, name)
}

/// The value of a name at its place.
fn read_at(
    alloc: Global,
    store: &Store,
    texts: &[Program],
    place: Place,
    name: &str,
) -> Result<Value, OpEnd>
    ensures { (fixed : State) → Computes (reads_at (stated fixed store.now.cells texts.now) name.now gives (meant place)) result }
{
    match place {
        Place::Own(scope) => {
            read_variable(alloc, store, scope, ExcKind::UnboundLocalError, name)
        }
        Place::Outer(scope) => read_variable(alloc, store, scope, ExcKind::NameError, name),
        Place::Global => read_global(alloc, store, name),
        Place::Missing => Err(OpEnd::Beyond(Beyond::NotYet)),
    }
}

/// The value of a variable of a call. An unbound one raises an exception of this kind.
fn read_variable(
    alloc: Global,
    store: &Store,
    scope: u32,
    unbound: ExcKind,
    name: &str,
) -> Result<Value, OpEnd>
    ensures { Computes (reads_variable name.now (fails unbound name.now) gives (cell_of store.now.cells scope)) result }
{
    let Some(Cell::Scope { names, .. }) = store.get(scope) else {
        return Err(OpEnd::Beyond(Beyond::NotYet));
    };
    match bound(names.as_slice(), name) {
        Some(value) => Ok(value.copy(alloc)?),
        None => Err(fails(alloc, unbound, name)),
    }
}

/// The value of a global name.
fn read_global(alloc: Global, store: &Store, name: &str) -> Result<Value, OpEnd>
    ensures { Computes (reads_global name.now gives (cell_of store.now.cells namespace_number)) result }
{
    let Some(Cell::Namespace { names, reserved }) = store.get(NAMESPACE) else {
        return Err(OpEnd::Beyond(Beyond::NotYet));
    };
    if let Some(value) = bound(names.as_slice(), name) {
        return Ok(value.copy(alloc)?);
    }
    if has_name(name, reserved.as_slice()) {
        return Err(OpEnd::Beyond(Beyond::Name));
    }
    Err(fails(alloc, ExcKind::NameError, name))
}

/// The name stands for the value from now on. `Beyond(Name)` for a global name that a text has after `as`, and
/// `Beyond(NotYet)` where the state has no such text, function or scope.
pub fn bind_name(
    _alloc: Global,
    store: &mut Store,
    texts: &[Program],
    env: Env,
    name: Text,
    value: Value,
) -> Result<(), OpEnd>
    ensures comes { (fixed : State) → Comes (binds_name env name value (Return done)) (stated fixed store.old.cells texts.now) (as_done result) (stated fixed store.new.cells texts.now) (stated fixed store.old.cells texts.now) }
    ensures kept { OnErr result (store.new ≡ store.old) }
{
    let place = place_of(store, texts, env, name.as_str());
    bind_at(store, place, name, value)
}

/// A name is bound at its place.
fn bind_at(store: &mut Store, place: Place, name: Text, value: Value) -> Result<(), OpEnd>
    ensures comes { (s : State) → Comes (binds_at (over store.old.cells s) name value (Return done) (meant place)) (over store.old.cells s) (as_done result) (over store.new.cells s) (over store.old.cells s) }
    ensures kept { OnErr result (store.new ≡ store.old) }
{
    match place {
        Place::Own(scope) => bind_variable(store, scope, name, value),
        Place::Outer(scope) => bind_variable(store, scope, name, value),
        Place::Global => bind_global(store, name, value),
        Place::Missing => Err(OpEnd::Beyond(Beyond::NotYet)),
    }
}

/// A variable of a call is bound.
fn bind_variable(store: &mut Store, scope: u32, name: Text, value: Value) -> Result<(), OpEnd>
    ensures comes { CarriesOut (binds_variable scope name value (Return done) (cell_of store.old.cells scope)) store.old.cells (as_done result) store.new.cells }
    ensures kept { OnErr result (store.new ≡ store.old) }
{
    let Some(Cell::Scope { .. }) = store.get(scope) else {
        return Err(OpEnd::Beyond(Beyond::NotYet));
    };
    let (mut names, parent) = take_scope(store, scope);
    let bound = bind(&mut names, name, value);
    put_scope(store, scope, names, parent);
    Ok(bound?)
}

/// Takes the variables of a call out, with the scope around them, and leaves another cell in their place.
#[tactic(auto, using(crate::proofs::CellLemmas::scope_is_there))]
fn take_scope(store: &mut Store, scope: u32) -> (Items<Binding>, u32)
    requires { IsScope store.old.cells scope }
    ensures names { cell_of store.old.cells scope ≡ Some (cell.Scope result.0 result.1) }
    ensures left { store.new ≡ record store.old { cells = with_cell store.old.cells scope cell.Root } }
    ensures there { (0 < scope) × (scope ≤ length store.new.cells) }
{
    match store.replace(scope, Cell::Root) {
        Cell::Scope { names, parent } => (names, parent),
        _ => unreachable!(),
    }
}

/// Puts the variables of a call in the place of the cell of this number.
fn put_scope(store: &mut Store, scope: u32, names: Items<Binding>, parent: u32)
    requires { (0 < scope) × (scope ≤ length store.old.cells) }
    ensures { store.new ≡ record store.old { cells = with_cell store.old.cells scope (cell.Scope names parent) } }
{
    store.replace(scope, Cell::Scope { names, parent });
}

/// A global name is bound.
fn bind_global(store: &mut Store, name: Text, value: Value) -> Result<(), OpEnd>
    ensures comes { CarriesOut (binds_global name value (Return done) (cell_of store.old.cells namespace_number)) store.old.cells (as_done result) store.new.cells }
    ensures kept { OnErr result (store.new ≡ store.old) }
{
    let Some(Cell::Namespace { reserved, .. }) = store.get(NAMESPACE) else {
        return Err(OpEnd::Beyond(Beyond::NotYet));
    };
    if has_name(name.as_str(), reserved.as_slice()) {
        return Err(OpEnd::Beyond(Beyond::Name));
    }
    let (mut names, reserved) = take_namespace(store);
    let bound = bind(&mut names, name, value);
    put_namespace(store, names, reserved);
    Ok(bound?)
}

/// Takes the global names out, with those after `as`, and leaves another cell in their place.
#[tactic(auto, using(crate::proofs::CellLemmas::namespace_is_there))]
fn take_namespace(store: &mut Store) -> (Items<Binding>, Items<Text>)
    requires { IsNamespace store.old.cells }
    ensures names { cell_of store.old.cells namespace_number ≡ Some (cell.Namespace result.0 result.1) }
    ensures left { store.new ≡ record store.old { cells = with_cell store.old.cells namespace_number cell.Root } }
    ensures there { 0 < length store.new.cells }
{
    match store.replace(NAMESPACE, Cell::Root) {
        Cell::Namespace { names, reserved } => (names, reserved),
        _ => unreachable!(),
    }
}

/// Puts the global names in the place of the first cell.
fn put_namespace(store: &mut Store, names: Items<Binding>, reserved: Items<Text>)
    requires { 0 < length store.old.cells }
    ensures { store.new ≡ record store.old { cells = with_cell store.old.cells namespace_number (cell.Namespace names reserved) } }
{
    store.replace(NAMESPACE, Cell::Namespace { names, reserved });
}
