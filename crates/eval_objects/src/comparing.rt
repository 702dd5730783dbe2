ghost use Rattle.std.specs.Prelude.{◌≡◌, ℕ, ℤ, IfOk, List};
ghost use Rattle.rp_base.specs.declared.operators.CmpOp.{CmpOp};
ghost use Rattle.rp_base.specs.declared.value.Value.{Value};
ghost use Rattle.py_ast.specs.declared.program.Program.{Program};
ghost use Rattle.py_store.specs.EntryLists.{EntryList};
ghost use Rattle.py_store.specs.declared.cell.Cell.TheVariants as cell;
ghost use Rattle.py_store.specs.declared.cell.Method.{Method};
ghost use Rattle.py_store.specs.declared.cell.Which.{Which};
ghost use Rattle.eval_frames.specs.declared.frame.Frame.{Frame};
ghost use Rattle.eval_frames.specs.Meaning.{IsLight, MeansIn};
ghost use Rattle.language_rules.specs.AtOnce.{stated};
ghost use Rattle.language_rules.specs.CellComparing.{cell_compare, cells_compared};
ghost use Rattle.language_rules.specs.Perform.{compare_rule};
ghost use Rattle.language_rules.specs.States.{State};
ghost use Rattle.eval_objects.specs.Comparisons.{compared_as};

use eval_frames::{Frame, Next};
use eval_instances::compare_instance;
use eval_ranges::{give, kind_of_value};
use eval_searching::compare_lists;
use py_store::{Cell, Store};
use rp_base::{Beyond, CmpOp, Kind, NoMemory, Plain, Value};
use std::alloc::Global;

/// How an object is compared with another value.
#[derive(Clone, Copy, Debug, PartialEq, Eq)]
pub(crate) enum Comparing {
    /// Item by item, with another list.
    Lists,
    /// By the method of its class.
    Method,
    /// The way out of the subset.
    Out,
    /// It knows no answer.
    Unknown,
}

/// The comparison of an object with another value. Those of the namespace and of what a connection has come with the
/// connection.
pub(crate) fn compare(
    alloc: Global,
    stack: &mut Vec<Frame>,
    store: &Store,
    receiver: &Value,
    op: CmpOp,
    other: &Value,
) -> Result<Next, NoMemory>
    ensures means { IfOk result (λ next. (fixed : State) (texts : List Program) → MeansIn (stated fixed store.now.cells texts) stack.new.items next (compare_rule receiver.now op other.now) stack.old.items) }
    ensures light { IfOk result (λ next. IsLight stack.new.items next stack.old.items) }
{
    match receiver {
        Value::Own(number) => compare_object(alloc, stack, store, *number, op, other),
        Value::Plain(_) => Ok(Next::Leave(Beyond::NotYet)),
        Value::Tuple(_) => Ok(Next::Leave(Beyond::NotYet)),
        Value::Proxy(_) => Ok(Next::Leave(Beyond::NotYet)),
    }
}

fn compare_object(
    alloc: Global,
    stack: &mut Vec<Frame>,
    store: &Store,
    number: u32,
    op: CmpOp,
    other: &Value,
) -> Result<Next, NoMemory>
    ensures means { IfOk result (λ next. (fixed : State) (texts : List Program) → MeansIn (stated fixed store.now.cells texts) stack.new.items next (cell_compare number op other.now) stack.old.items) }
    ensures light { IfOk result (λ next. IsLight stack.new.items next stack.old.items) }
{
    match store.get(number) {
        Some(cell) => {
            let way = way_to_compare(cell, kind_of_value(store, other))?;
            compare_so(alloc, stack, store, number, op, other, way)
        }
        None => Ok(Next::Leave(Beyond::NotYet)),
    }
}

fn compare_so(
    alloc: Global,
    stack: &mut Vec<Frame>,
    store: &Store,
    number: u32,
    op: CmpOp,
    other: &Value,
    way: Comparing,
) -> Result<Next, NoMemory>
    ensures means { IfOk result (λ next. (fixed : State) (texts : List Program) → MeansIn (stated fixed store.now.cells texts) stack.new.items next (compared_as way number op other.now) stack.old.items) }
    ensures light { IfOk result (λ next. IsLight stack.new.items next stack.old.items) }
{
    match way {
        Comparing::Lists => compare_lists(alloc, stack, number, op, other.copy(alloc)?),
        Comparing::Method => compare_instance(alloc, stack, store, number, op, other),
        Comparing::Out => Ok(Next::Leave(Beyond::Compare)),
        Comparing::Unknown => Ok(give(Value::Plain(Plain::NotImpl))),
    }
}

/// How a cell is compared with a value of this kind.
fn way_to_compare(cell: &Cell, kind: Option<Kind>) -> Result<Comparing, NoMemory>
    ensures { IfOk result (λ way. (number : ℕ) (op : CmpOp) (other : Value) → cells_compared number op other cell.now kind ≡ compared_as way number op other) }
{
    match cell {
        Cell::Function { .. } => Ok(Comparing::Unknown),
        Cell::Class { .. } => Ok(Comparing::Unknown),
        Cell::Iter { .. } => Ok(Comparing::Unknown),
        Cell::Instance { .. } => Ok(Comparing::Method),
        Cell::Bound { .. } => Ok(of_bound(kind)),
        Cell::List(_) => Ok(of_list(kind)),
        Cell::Dict { .. } => Ok(of_dict(kind)),
        Cell::View { .. } => Ok(of_view(kind)),
        Cell::Range { .. } => Ok(of_range(kind)),
        _ => Err(NoMemory),
    }
}

fn of_list(kind: Option<Kind>) -> Comparing
    ensures { (number : ℕ) (op : CmpOp) (other : Value) (items : List Value) → cells_compared number op other (cell.List items) kind ≡ compared_as result number op other }
{
    match kind {
        None => Comparing::Unknown,
        Some(Kind::List) => Comparing::Lists,
        Some(Kind::Range) => Comparing::Unknown,
        Some(Kind::Function) => Comparing::Unknown,
        Some(Kind::Bound) => Comparing::Unknown,
        Some(Kind::Dict) => Comparing::Unknown,
        Some(Kind::Namespace) => Comparing::Unknown,
        Some(Kind::Iter) => Comparing::Unknown,
        Some(Kind::View) => Comparing::Unknown,
        Some(Kind::Class) => Comparing::Unknown,
        Some(Kind::Instance) => Comparing::Unknown,
        Some(Kind::Host) => Comparing::Unknown,
        Some(Kind::HostFunc) => Comparing::Unknown,
        Some(Kind::Root) => Comparing::Unknown,
        Some(Kind::Conn) => Comparing::Unknown,
        Some(Kind::Modules) => Comparing::Unknown,
    }
}

fn of_dict(kind: Option<Kind>) -> Comparing
    ensures { (number : ℕ) (op : CmpOp) (other : Value) (entries : EntryList) (shape : ℕ) → cells_compared number op other (cell.Dict entries shape) kind ≡ compared_as result number op other }
{
    match kind {
        None => Comparing::Unknown,
        Some(Kind::List) => Comparing::Unknown,
        Some(Kind::Range) => Comparing::Unknown,
        Some(Kind::Function) => Comparing::Unknown,
        Some(Kind::Bound) => Comparing::Unknown,
        Some(Kind::Dict) => Comparing::Out,
        Some(Kind::Namespace) => Comparing::Out,
        Some(Kind::Iter) => Comparing::Unknown,
        Some(Kind::View) => Comparing::Unknown,
        Some(Kind::Class) => Comparing::Unknown,
        Some(Kind::Instance) => Comparing::Unknown,
        Some(Kind::Host) => Comparing::Unknown,
        Some(Kind::HostFunc) => Comparing::Unknown,
        Some(Kind::Root) => Comparing::Unknown,
        Some(Kind::Conn) => Comparing::Unknown,
        Some(Kind::Modules) => Comparing::Unknown,
    }
}

fn of_view(kind: Option<Kind>) -> Comparing
    ensures { (number : ℕ) (op : CmpOp) (other : Value) (dict : ℕ) (which : Which) → cells_compared number op other (cell.View dict which) kind ≡ compared_as result number op other }
{
    match kind {
        None => Comparing::Unknown,
        Some(Kind::List) => Comparing::Unknown,
        Some(Kind::Range) => Comparing::Unknown,
        Some(Kind::Function) => Comparing::Unknown,
        Some(Kind::Bound) => Comparing::Unknown,
        Some(Kind::Dict) => Comparing::Unknown,
        Some(Kind::Namespace) => Comparing::Unknown,
        Some(Kind::Iter) => Comparing::Unknown,
        Some(Kind::View) => Comparing::Out,
        Some(Kind::Class) => Comparing::Unknown,
        Some(Kind::Instance) => Comparing::Unknown,
        Some(Kind::Host) => Comparing::Unknown,
        Some(Kind::HostFunc) => Comparing::Unknown,
        Some(Kind::Root) => Comparing::Unknown,
        Some(Kind::Conn) => Comparing::Unknown,
        Some(Kind::Modules) => Comparing::Unknown,
    }
}

fn of_range(kind: Option<Kind>) -> Comparing
    ensures { (number : ℕ) (op : CmpOp) (other : Value) (start stop step : ℤ) → cells_compared number op other (cell.Range start stop step) kind ≡ compared_as result number op other }
{
    match kind {
        None => Comparing::Unknown,
        Some(Kind::List) => Comparing::Unknown,
        Some(Kind::Range) => Comparing::Out,
        Some(Kind::Function) => Comparing::Unknown,
        Some(Kind::Bound) => Comparing::Unknown,
        Some(Kind::Dict) => Comparing::Unknown,
        Some(Kind::Namespace) => Comparing::Unknown,
        Some(Kind::Iter) => Comparing::Unknown,
        Some(Kind::View) => Comparing::Unknown,
        Some(Kind::Class) => Comparing::Unknown,
        Some(Kind::Instance) => Comparing::Unknown,
        Some(Kind::Host) => Comparing::Unknown,
        Some(Kind::HostFunc) => Comparing::Unknown,
        Some(Kind::Root) => Comparing::Unknown,
        Some(Kind::Conn) => Comparing::Unknown,
        Some(Kind::Modules) => Comparing::Unknown,
    }
}

fn of_bound(kind: Option<Kind>) -> Comparing
    ensures { (number : ℕ) (op : CmpOp) (other : Value) (receiver : Value) (m : Method) → cells_compared number op other (cell.Bound receiver m) kind ≡ compared_as result number op other }
{
    match kind {
        None => Comparing::Unknown,
        Some(Kind::List) => Comparing::Unknown,
        Some(Kind::Range) => Comparing::Unknown,
        Some(Kind::Function) => Comparing::Unknown,
        Some(Kind::Bound) => Comparing::Out,
        Some(Kind::Dict) => Comparing::Unknown,
        Some(Kind::Namespace) => Comparing::Unknown,
        Some(Kind::Iter) => Comparing::Unknown,
        Some(Kind::View) => Comparing::Unknown,
        Some(Kind::Class) => Comparing::Unknown,
        Some(Kind::Instance) => Comparing::Unknown,
        Some(Kind::Host) => Comparing::Unknown,
        Some(Kind::HostFunc) => Comparing::Out,
        Some(Kind::Root) => Comparing::Unknown,
        Some(Kind::Conn) => Comparing::Unknown,
        Some(Kind::Modules) => Comparing::Unknown,
    }
}
