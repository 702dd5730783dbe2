ghost use Rattle.std.specs.Prelude.{◌≡◌, ◌∷◌, [], IfOk, List, length};
ghost use Rattle.rp_base.specs.declared.value.Value.{Value};
ghost use Rattle.rp_base.specs.declared.value.Value.TheVariants as value;
ghost use Rattle.py_ast.specs.declared.program.Program.{Program};
ghost use Rattle.py_store.specs.Cells.{cell_of};
ghost use Rattle.py_store.specs.declared.cell.Cell.TheVariants as cell;
ghost use Rattle.eval_frames.specs.declared.frame.Frame.{Frame};
ghost use Rattle.eval_frames.specs.Meaning.{IsLight, Means, MeansIn, MeansOver};
ghost use Rattle.language_rules.specs.AtOnce.{stated};
ghost use Rattle.language_rules.specs.Arithmetic.{adds_list, multiply_rule};
ghost use Rattle.language_rules.specs.Going.{reads_cell};
ghost use Rattle.language_rules.specs.Iterating.{iter_rule};
ghost use Rattle.language_rules.specs.Kinds.{on_kind};
ghost use Rattle.language_rules.specs.Operators.{is_list};
ghost use Rattle.language_rules.specs.Perform.{special_rule};
ghost use Rattle.language_rules.specs.States.{State};
ghost use Rattle.py_lists.specs.Lists.{IsList};

use crate::copying::multiply;
use crate::extending::extend;
use eval_frames::{Frame, Next, answered};
use eval_ranges::{kind_of_value, less_view, refuse};
use eval_searching::{add_lists, search_list};
use object_operations::Special;
use py_lists::{change_list, read_list};
use py_store::{Cell, Store};
use rp_base::{Beyond, Kind, NoMemory, Value};
use std::alloc::Global;
use std::slice;

/// A special operation on the list of this number. `Leave(NotYet)` for a wrong number of arguments.
pub fn special_of_list(
    alloc: Global,
    stack: &mut Vec<Frame>,
    store: &mut Store,
    number: u32,
    special: Special,
    arguments: &[Value],
) -> Result<Next, NoMemory>
    requires { IsList store.old.cells number }
    ensures means { IfOk result (λ next. (fixed : State) (texts : List Program) → MeansOver (stated fixed store.old.cells texts) (stated fixed store.new.cells texts) stack.new.items next (special_rule special (value.Own number) arguments.now) stack.old.items) }
    ensures light { IfOk result (λ next. IsLight stack.new.items next stack.old.items) }
{
    match arguments {
        [] => list_alone(alloc, store, number, special),
        [x] => list_with_one(alloc, stack, store, number, special, x),
        [_, _] => list_with_two(alloc, store, number, special, arguments),
        _ => Ok(Next::Leave(Beyond::NotYet)),
    }
}

/// A special operation on a list without arguments.
fn list_alone(alloc: Global, store: &Store, number: u32, special: Special) -> Result<Next, NoMemory>
    requires { IsList store.now.cells number }
    ensures means { IfOk result (λ next. (fixed : State) (texts : List Program) (stack : List Frame) → MeansIn (stated fixed store.now.cells texts) stack next (special_rule special (value.Own number) []) stack) }
    ensures light { IfOk result (λ next. (stack : List Frame) → IsLight stack next stack) }
{
    match special {
        Special::Len => answered(read_list(alloc, store, number, Special::Len, &[])),
        Special::Bool => answered(read_list(alloc, store, number, Special::Bool, &[])),
        Special::Iter => Ok(iterator(number)),
        Special::Next => refuse(alloc, "not iterable"),
        Special::Neg => refuse(alloc, "unsupported operand"),
        _ => Ok(Next::Leave(Beyond::NotYet)),
    }
}

/// A new iterator over the list of this number.
fn iterator(number: u32) -> Next
    ensures means { (items : List Value) (stack : List Frame) → Means stack result (iter_rule number (cell.List items)) stack }
    ensures light { (stack : List Frame) → IsLight stack result stack }
{
    Next::Make(Cell::Iter {
        source: Some(Value::Own(number)),
        at: 0,
        shape: 0,
    })
}

/// A special operation on a list with one argument.
fn list_with_one(
    alloc: Global,
    stack: &mut Vec<Frame>,
    store: &mut Store,
    number: u32,
    special: Special,
    x: &Value,
) -> Result<Next, NoMemory>
    requires { IsList store.old.cells number }
    ensures means { IfOk result (λ next. (fixed : State) (texts : List Program) → MeansOver (stated fixed store.old.cells texts) (stated fixed store.new.cells texts) stack.new.items next (special_rule special (value.Own number) (x.now ∷ [])) stack.old.items) }
    ensures light { IfOk result (λ next. IsLight stack.new.items next stack.old.items) }
{
    match special {
        Special::GetItem => {
            answered(read_list(alloc, store, number, Special::GetItem, slice::from_ref(x)))
        }
        Special::DelItem => {
            answered(change_list(alloc, store, number, Special::DelItem, slice::from_ref(x)))
        }
        Special::Contains => search_list(alloc, stack, store, number, x.copy(alloc)?),
        Special::Add => add(alloc, stack, store, number, x),
        Special::Sub => less_view(alloc, store, x),
        Special::Mul => multiply_list(alloc, store, number, x),
        Special::FloorDiv => refuse(alloc, "unsupported operand"),
        Special::Mod => refuse(alloc, "unsupported operand"),
        Special::IAdd => extend(alloc, stack, store, number, x),
        _ => Ok(Next::Leave(Beyond::NotYet)),
    }
}

/// A list and another list, own or not.
fn add(
    alloc: Global,
    stack: &mut Vec<Frame>,
    store: &Store,
    number: u32,
    other: &Value,
) -> Result<Next, NoMemory>
    ensures means { IfOk result (λ next. (fixed : State) (texts : List Program) → MeansIn (stated fixed store.now.cells texts) stack.new.items next (on_kind other.now (adds_list number other.now)) stack.old.items) }
    ensures light { IfOk result (λ next. IsLight stack.new.items next stack.old.items) }
{
    add_kind(alloc, stack, number, other, kind_of_value(store, other))
}

fn add_kind(
    alloc: Global,
    stack: &mut Vec<Frame>,
    number: u32,
    other: &Value,
    kind: Option<Kind>,
) -> Result<Next, NoMemory>
    ensures means { IfOk result (λ next. Means stack.new.items next (adds_list number other.now kind) stack.old.items) }
    ensures light { IfOk result (λ next. IsLight stack.new.items next stack.old.items) }
{
    if is_list(kind) {
        add_lists(alloc, stack, number, other.copy(alloc)?)
    } else {
        refuse(alloc, "unsupported operand")
    }
}

fn is_list(kind: Option<Kind>) -> bool
    ensures { (v : Value) → result ≡ is_list (v, kind) }
{
    matches!(kind, Some(Kind::List))
}

/// Copies of the items of the list of this number.
fn multiply_list(alloc: Global, store: &Store, number: u32, x: &Value) -> Result<Next, NoMemory>
    requires { IsList store.now.cells number }
    ensures means { IfOk result (λ next. (fixed : State) (texts : List Program) (stack : List Frame) → MeansIn (stated fixed store.now.cells texts) stack next (reads_cell number (multiply_rule number x.now)) stack) }
    ensures light { IfOk result (λ next. (stack : List Frame) → IsLight stack next stack) }
{
    match store.get(number) {
        Some(Cell::List(items)) => multiply(alloc, items.as_slice(), x),
        _ => unreachable!(),
    }
}

/// A special operation on a list with two arguments.
fn list_with_two(
    alloc: Global,
    store: &mut Store,
    number: u32,
    special: Special,
    arguments: &[Value],
) -> Result<Next, NoMemory>
    requires list { IsList store.old.cells number }
    requires two { length arguments.now ≡ 2 }
    ensures means { IfOk result (λ next. (fixed : State) (texts : List Program) (stack : List Frame) → MeansOver (stated fixed store.old.cells texts) (stated fixed store.new.cells texts) stack next (special_rule special (value.Own number) arguments.now) stack) }
    ensures light { IfOk result (λ next. (stack : List Frame) → IsLight stack next stack) }
{
    match special {
        Special::SetItem => answered(change_list(
            alloc,
            store,
            number,
            Special::SetItem,
            arguments,
        )),
        _ => Ok(Next::Leave(Beyond::NotYet)),
    }
}
