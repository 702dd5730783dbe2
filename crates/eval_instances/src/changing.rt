ghost use Rattle.std.specs.Prelude.{◌≡◌, IfOk, List, OnOk, Some, is_some};
ghost use Rattle.py_ast.specs.declared.program.Program.{Program};
ghost use Rattle.py_store.specs.Attributes.{own_attributes};
ghost use Rattle.py_store.specs.Bindings.{bound_value};
ghost use Rattle.py_store.specs.Cells.{cell_of};
ghost use Rattle.py_store.specs.declared.cell.Cell.{Cell};
ghost use Rattle.eval_frames.specs.declared.frame.Frame.{Frame};
ghost use Rattle.eval_frames.specs.Meaning.{IsLight, Means, MeansOver};
ghost use Rattle.side_trees.specs.Trees.{Return};
ghost use Rattle.language_rules.specs.AtOnce.{stated};
ghost use Rattle.language_rules.specs.Attributes.{deletes_in_cell, sets_in_cell};
ghost use Rattle.language_rules.specs.Going.{done, reads_cell};
ghost use Rattle.language_rules.specs.States.{State, set_cell};
ghost use Rattle.eval_instances.specs.Owners.{IsOwner, with_own, without_own};

use eval_frames::{Next, fail};
use object_operations::Completion;
use py_store::{Binding, Cell, Store, bind, bound, unbind};
use rp_base::{ExcKind, NoMemory, Plain, Text, Value};
use std::alloc::Global;

/// The instance or class of this number gets an attribute of its own (Python Language Reference, "Assignment
/// statements").
pub fn set_own(store: &mut Store, number: u32, name: Text, value: Value) -> Result<Next, NoMemory>
    requires { IsOwner store.old.cells number }
    ensures means { IfOk result (λ next. (fixed : State) (texts : List Program) (stack : List Frame) → MeansOver (stated fixed store.old.cells texts) (stated fixed store.new.cells texts) stack next (reads_cell number (sets_in_cell number name value)) stack) }
    ensures light { IfOk result (λ next. (stack : List Frame) → IsLight stack next stack) }
{
    put_own(store, number, name, value)?;
    Ok(done())
}

fn done() -> Next
    ensures means { (stack : List Frame) → Means stack result (Return done) stack }
    ensures light { (stack : List Frame) → IsLight stack result stack }
{
    Next::Give(Completion::Gives(Value::Plain(Plain::None)))
}

/// The cell with an attribute of its own. It stays as it is where memory is wanting.
fn put_own(store: &mut Store, number: u32, name: Text, value: Value) -> Result<(), NoMemory>
    requires { IsOwner store.old.cells number }
    ensures { OnOk result ((c : Cell) → cell_of store.old.cells number ≡ Some c → (fixed : State) (texts : List Program) → set_cell number (with_own name value c) (stated fixed store.old.cells texts) ≡ stated fixed store.new.cells texts) }
{
    match store.replace(number, Cell::Root) {
        Cell::Instance {
            class,
            mut attributes,
        } => {
            let put = bind(&mut attributes, name, value);
            store.replace(number, Cell::Instance { class, attributes });
            put
        }
        Cell::Class {
            name: class,
            base,
            mut attributes,
        } => {
            let put = bind(&mut attributes, name, value);
            store.replace(
                number,
                Cell::Class {
                    name: class,
                    base,
                    attributes,
                },
            );
            put
        }
        _ => unreachable!(),
    }
}

/// The instance or class of this number loses an attribute of its own (Python Language Reference, "The del statement").
pub fn delete_own(
    alloc: Global,
    store: &mut Store,
    number: u32,
    name: &str,
) -> Result<Next, NoMemory>
    requires { IsOwner store.old.cells number }
    ensures means { IfOk result (λ next. (fixed : State) (texts : List Program) (stack : List Frame) → MeansOver (stated fixed store.old.cells texts) (stated fixed store.new.cells texts) stack next (reads_cell number (deletes_in_cell number name.now)) stack) }
    ensures light { IfOk result (λ next. (stack : List Frame) → IsLight stack next stack) }
{
    if has_own(store, number, name) {
        take_own(store, number, name);
        Ok(done())
    } else {
        fail(alloc, ExcKind::AttributeError, name)
    }
}

/// Whether a cell has an attribute of its own.
fn has_own(store: &Store, number: u32, name: &str) -> bool
    ensures { result ≡ is_some (bound_value name.now (own_attributes (cell_of store.now.cells number))) }
{
    match store.get(number) {
        Some(cell) => has_own_attribute(cell, name),
        None => false,
    }
}

fn has_own_attribute(cell: &Cell, name: &str) -> bool
    ensures { result ≡ is_some (bound_value name.now (own_attributes (Some cell.now))) }
{
    match cell {
        Cell::Class { attributes, .. } => is_bound(attributes.as_slice(), name),
        Cell::Instance { attributes, .. } => is_bound(attributes.as_slice(), name),
        _ => false,
    }
}

fn is_bound(bindings: &[Binding], name: &str) -> bool
    ensures { result ≡ is_some (bound_value name.now bindings.now) }
{
    bound(bindings, name).is_some()
}

/// The cell without an attribute of its own.
fn take_own(store: &mut Store, number: u32, name: &str)
    requires { IsOwner store.old.cells number }
    ensures { (c : Cell) → cell_of store.old.cells number ≡ Some c → (fixed : State) (texts : List Program) → set_cell number (without_own name.now c) (stated fixed store.old.cells texts) ≡ stated fixed store.new.cells texts }
{
    match store.replace(number, Cell::Root) {
        Cell::Instance {
            class,
            mut attributes,
        } => {
            unbind(&mut attributes, name);
            store.replace(number, Cell::Instance { class, attributes });
        }
        Cell::Class {
            name: class,
            base,
            mut attributes,
        } => {
            unbind(&mut attributes, name);
            store.replace(
                number,
                Cell::Class {
                    name: class,
                    base,
                    attributes,
                },
            );
        }
        _ => unreachable!(),
    }
}
