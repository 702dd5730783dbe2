ghost use Rattle.std.specs.Prelude.{ℕ, ◌∷◌, [], IfOk, List};
ghost use Rattle.rp_base.specs.declared.value.Value.{Value};
ghost use Rattle.rp_base.specs.declared.value.Value.TheVariants as value;
ghost use Rattle.py_ast.specs.declared.program.Program.{Program};
ghost use Rattle.py_store.specs.declared.cell.Cell.TheVariants as cell;
ghost use Rattle.eval_frames.specs.declared.frame.Frame.{Frame};
ghost use Rattle.eval_frames.specs.Meaning.{IsLight, Means, MeansOver};
ghost use Rattle.language_rules.specs.AtOnce.{stated};
ghost use Rattle.language_rules.specs.Perform.{special_of_cell, special_rule};
ghost use Rattle.language_rules.specs.States.{State};

use crate::iterators::special_of_iterator;
use crate::plain_receivers::special_of_plain;
use eval_dicts::{special_of_dict, special_of_view};
use eval_frames::{Frame, Next};
use eval_instances::special_of_instance;
use eval_lists::special_of_list;
use eval_ranges::{refuse, special_of_range};
use object_operations::{Completion, Special};
use py_store::{Cell, Store};
use rp_base::{Beyond, NoMemory, Plain, Value};
use std::alloc::Global;

/// A special operation on an object, or on what is none (Python Language Reference, "Special method names").
/// `Leave(NotYet)` for a wrong number of arguments.
pub(crate) fn special_operation(
    alloc: Global,
    stack: &mut Vec<Frame>,
    store: &mut Store,
    receiver: &Value,
    special: Special,
    arguments: &[Value],
) -> Result<Next, NoMemory>
    ensures means { IfOk result (λ next. (fixed : State) (texts : List Program) → MeansOver (stated fixed store.old.cells texts) (stated fixed store.new.cells texts) stack.new.items next (special_rule special receiver.now arguments.now) stack.old.items) }
    ensures light { IfOk result (λ next. IsLight stack.new.items next stack.old.items) }
{
    match receiver {
        Value::Own(number) => special_of_object(alloc, stack, store, *number, special, arguments),
        Value::Plain(_) => special_of_plain(alloc, special, receiver, arguments),
        Value::Tuple(_) => special_of_plain(alloc, special, receiver, arguments),
        Value::Proxy(_) => special_of_plain(alloc, special, receiver, arguments),
    }
}

/// A special operation on the object of this number, by its kind. Those on the namespace and on what a connection has
/// come with the connection.
fn special_of_object(
    alloc: Global,
    stack: &mut Vec<Frame>,
    store: &mut Store,
    number: u32,
    special: Special,
    arguments: &[Value],
) -> Result<Next, NoMemory>
    ensures means { IfOk result (λ next. (fixed : State) (texts : List Program) → MeansOver (stated fixed store.old.cells texts) (stated fixed store.new.cells texts) stack.new.items next (special_rule special (value.Own number) arguments.now) stack.old.items) }
    ensures light { IfOk result (λ next. IsLight stack.new.items next stack.old.items) }
{
    match store.get(number) {
        Some(Cell::Function { .. }) => special_of_function(alloc, special, arguments),
        Some(Cell::Class { .. }) => special_of_function(alloc, special, arguments),
        Some(Cell::Bound { .. }) => special_of_function(alloc, special, arguments),
        Some(Cell::Instance { .. }) => {
            special_of_instance(alloc, stack, store, number, special, arguments)
        }
        Some(Cell::Range { start, stop, step }) => {
            special_of_range(
                alloc, store, number, *start, *stop, *step, special, arguments,
            )
        }
        Some(Cell::Iter { .. }) => special_of_iterator(alloc, store, number, special, arguments),
        Some(Cell::List(_)) => special_of_list(alloc, stack, store, number, special, arguments),
        Some(Cell::Dict { .. }) => special_of_dict(alloc, store, number, special, arguments),
        Some(Cell::View { dict, which }) => {
            special_of_view(
                alloc, stack, store, number, *dict, *which, special, arguments,
            )
        }
        Some(_) => Err(NoMemory),
        None => Ok(Next::Leave(Beyond::NotYet)),
    }
}

/// What a function answers, and a class or a bound method too: it has no items and no length, no operator takes it, and
/// it is true.
fn special_of_function(
    alloc: Global,
    special: Special,
    arguments: &[Value],
) -> Result<Next, NoMemory>
    ensures means { IfOk result (λ next. (number text function scope : ℕ) (stack : List Frame) → Means stack next (special_of_cell special number arguments.now (cell.Function text function scope)) stack) }
    ensures light { IfOk result (λ next. (stack : List Frame) → IsLight stack next stack) }
{
    match arguments {
        [] => special_alone(alloc, special),
        [_] => special_with_one(alloc, special),
        [_, _] => special_with_two(alloc, special),
        _ => Ok(Next::Leave(Beyond::NotYet)),
    }
}

/// A special operation on a function without arguments.
fn special_alone(alloc: Global, special: Special) -> Result<Next, NoMemory>
    ensures means { IfOk result (λ next. (number text function scope : ℕ) (stack : List Frame) → Means stack next (special_of_cell special number [] (cell.Function text function scope)) stack) }
    ensures light { IfOk result (λ next. (stack : List Frame) → IsLight stack next stack) }
{
    match special {
        Special::Len => refuse(alloc, "no length"),
        Special::Bool => Ok(Next::Give(Completion::Gives(Value::Plain(Plain::Bool(true))))),
        Special::Iter => refuse(alloc, "not iterable"),
        Special::Next => refuse(alloc, "not iterable"),
        Special::Neg => refuse(alloc, "unsupported operand"),
        _ => Ok(Next::Leave(Beyond::NotYet)),
    }
}

/// A special operation on a function with one argument.
fn special_with_one(alloc: Global, special: Special) -> Result<Next, NoMemory>
    ensures means { IfOk result (λ next. (number text function scope : ℕ) (v : Value) (stack : List Frame) → Means stack next (special_of_cell special number (v ∷ []) (cell.Function text function scope)) stack) }
    ensures light { IfOk result (λ next. (stack : List Frame) → IsLight stack next stack) }
{
    match special {
        Special::GetItem => refuse(alloc, "no items"),
        Special::DelItem => refuse(alloc, "no items"),
        Special::Contains => refuse(alloc, "not iterable"),
        Special::Add => refuse(alloc, "unsupported operand"),
        Special::Sub => refuse(alloc, "unsupported operand"),
        Special::Mul => refuse(alloc, "unsupported operand"),
        Special::FloorDiv => refuse(alloc, "unsupported operand"),
        Special::Mod => refuse(alloc, "unsupported operand"),
        Special::IAdd => refuse(alloc, "unsupported operand"),
        _ => Ok(Next::Leave(Beyond::NotYet)),
    }
}

/// A special operation on a function with two arguments.
fn special_with_two(alloc: Global, special: Special) -> Result<Next, NoMemory>
    ensures means { IfOk result (λ next. (number text function scope : ℕ) (v w : Value) (stack : List Frame) → Means stack next (special_of_cell special number (v ∷ w ∷ []) (cell.Function text function scope)) stack) }
    ensures light { IfOk result (λ next. (stack : List Frame) → IsLight stack next stack) }
{
    match special {
        Special::SetItem => refuse(alloc, "no items"),
        _ => Ok(Next::Leave(Beyond::NotYet)),
    }
}
