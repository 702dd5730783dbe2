ghost use Rattle.std.specs.Prelude.{◌≡◌};
ghost use Rattle.rp_base.specs.declared.value.Value.TheVariants as value;
ghost use Rattle.language_rules.specs.Kinds.{kind_of_cell};
ghost use Rattle.eval_exprs.specs.Steps.{value_kind};

use py_store::{Cell, Store};
use rp_base::{Kind, Value};

/// The kind of the object that a value refers to (Python Language Reference, "Objects, values and types").
pub(crate) fn kind_of(store: &Store, value: &Value) -> Option<Kind>
    ensures { result ≡ value_kind store.now.cells value.now }
{
    match value {
        Value::Own(number) => kind_at(store, *number),
        Value::Proxy(id) => Some(rp_base::kind_of(id)),
        Value::Plain(_) => None,
        Value::Tuple(_) => None,
    }
}

/// The kind of the cell of this number.
fn kind_at(store: &Store, number: u32) -> Option<Kind>
    ensures { result ≡ value_kind store.now.cells (value.Own number) }
{
    match store.get(number) {
        Some(cell) => kind_of_cell(cell),
        None => None,
    }
}

/// The kind of a cell. No value refers to the variables of a call.
fn kind_of_cell(cell: &Cell) -> Option<Kind>
    ensures { result ≡ kind_of_cell cell.now }
{
    match cell {
        Cell::List(_) => Some(Kind::List),
        Cell::Dict { .. } => Some(Kind::Dict),
        Cell::Scope { .. } => None,
        Cell::Namespace { .. } => Some(Kind::Namespace),
        Cell::Function { .. } => Some(Kind::Function),
        Cell::Class { .. } => Some(Kind::Class),
        Cell::Instance { .. } => Some(Kind::Instance),
        Cell::Bound { .. } => Some(Kind::Bound),
        Cell::Iter { .. } => Some(Kind::Iter),
        Cell::View { .. } => Some(Kind::View),
        Cell::Range { .. } => Some(Kind::Range),
        Cell::Host(_) => Some(Kind::Host),
        Cell::HostFunc { .. } => Some(Kind::HostFunc),
        Cell::Conn { .. } => Some(Kind::Conn),
        Cell::Modules { .. } => Some(Kind::Modules),
        Cell::Root => Some(Kind::Root),
    }
}
