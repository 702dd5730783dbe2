ghost use Rattle.std.specs.Prelude.{◌≡◌, List};
ghost use Rattle.py_ast.specs.declared.program.Program.{Program};
ghost use Rattle.rp_base.specs.declared.value.Value.{Value};
ghost use Rattle.py_store.specs.Cells.{cell_of};
ghost use Rattle.language_rules.specs.AtOnce.{stated};
ghost use Rattle.language_rules.specs.Kinds.{kind_of, kind_of_cell, kind_there};
ghost use Rattle.language_rules.specs.States.{State};

use py_store::{Cell, Store};
use rp_base::{Kind, Value, kind_of};

/// The kind of the object that a value refers to. What is no reference has none, and so have the variables of a call.
pub fn kind_of_value(store: &Store, value: &Value) -> Option<Kind>
    ensures { (fixed : State) (texts : List Program) → result ≡ kind_of (stated fixed store.now.cells texts) value.now }
{
    match value {
        Value::Own(number) => kind_there(store, *number),
        Value::Proxy(id) => Some(kind_of(id)),
        Value::Plain(_) => None,
        Value::Tuple(_) => None,
    }
}

fn kind_there(store: &Store, number: u32) -> Option<Kind>
    ensures { result ≡ kind_there (cell_of store.now.cells number) }
{
    match store.get(number) {
        Some(cell) => kind_of_cell(cell),
        None => None,
    }
}

fn kind_of_cell(cell: &Cell) -> Option<Kind>
    ensures { result ≡ kind_of_cell cell.now }
{
    match cell {
        Cell::List(_) => Some(Kind::List),
        Cell::Dict { .. } => Some(Kind::Dict),
        Cell::Scope { .. } => None,
        Cell::Namespace { .. } => Some(Kind::Namespace),
        Cell::Function { .. } => Some(Kind::Function),
        Cell::Class { .. } => Some(Kind::Class),
        Cell::Instance { .. } => Some(Kind::Instance),
        Cell::Bound { .. } => Some(Kind::Bound),
        Cell::Iter { .. } => Some(Kind::Iter),
        Cell::View { .. } => Some(Kind::View),
        Cell::Range { .. } => Some(Kind::Range),
        Cell::Host(_) => Some(Kind::Host),
        Cell::HostFunc { .. } => Some(Kind::HostFunc),
        Cell::Conn { .. } => Some(Kind::Conn),
        Cell::Modules { .. } => Some(Kind::Modules),
        Cell::Root => Some(Kind::Root),
    }
}
