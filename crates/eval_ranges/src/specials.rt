ghost use Rattle.std.specs.Prelude.{◌∷◌, [], IfOk, List};
ghost use Rattle.py_ast.specs.declared.program.Program.{Program};
ghost use Rattle.py_store.specs.declared.cell.Cell.TheVariants as cell;
ghost use Rattle.eval_frames.specs.declared.frame.Frame.{Frame};
ghost use Rattle.eval_frames.specs.Meaning.{IsLight, Means, MeansIn};
ghost use Rattle.language_rules.specs.AtOnce.{stated};
ghost use Rattle.language_rules.specs.Perform.{special_of_cell};
ghost use Rattle.language_rules.specs.States.{State};

use crate::answers::{less_view, refuse};
use crate::operations::{contains, get_item, iterator, length, truth};
use eval_frames::Next;
use object_operations::Special;
use py_store::Store;
use rp_base::{Beyond, NoMemory, Value};
use std::alloc::Global;

/// A special operation on a range of this number. `Leave(NotYet)` for a wrong number of arguments.
pub fn special_of_range(
    alloc: Global,
    store: &Store,
    number: u32,
    start: i128,
    stop: i128,
    step: i128,
    special: Special,
    arguments: &[Value],
) -> Result<Next, NoMemory>
    ensures means { IfOk result (λ next. (fixed : State) (texts : List Program) (stack : List Frame) → MeansIn (stated fixed store.now.cells texts) stack next (special_of_cell special number arguments.now (cell.Range start stop step)) stack) }
    ensures light { IfOk result (λ next. (stack : List Frame) → IsLight stack next stack) }
{
    match arguments {
        [] => range_alone(alloc, number, start, stop, step, special),
        [x] => range_with_one(alloc, store, number, start, stop, step, special, x),
        [key, item] => range_with_two(alloc, number, start, stop, step, special, key, item),
        _ => Ok(Next::Leave(Beyond::NotYet)),
    }
}

/// A special operation on a range without arguments.
fn range_alone(
    alloc: Global,
    number: u32,
    start: i128,
    stop: i128,
    step: i128,
    special: Special,
) -> Result<Next, NoMemory>
    ensures means { IfOk result (λ next. (stack : List Frame) → Means stack next (special_of_cell special number [] (cell.Range start stop step)) stack) }
    ensures light { IfOk result (λ next. (stack : List Frame) → IsLight stack next stack) }
{
    match special {
        Special::Len => Ok(length(start, stop, step)),
        Special::Bool => Ok(truth(start, stop, step)),
        Special::Iter => Ok(iterator(number, start, stop, step)),
        Special::Next => refuse(alloc, "not iterable"),
        Special::Neg => refuse(alloc, "unsupported operand"),
        _ => Ok(Next::Leave(Beyond::NotYet)),
    }
}

/// A special operation on a range with one argument.
fn range_with_one(
    alloc: Global,
    store: &Store,
    number: u32,
    start: i128,
    stop: i128,
    step: i128,
    special: Special,
    x: &Value,
) -> Result<Next, NoMemory>
    ensures means { IfOk result (λ next. (fixed : State) (texts : List Program) (stack : List Frame) → MeansIn (stated fixed store.now.cells texts) stack next (special_of_cell special number (x.now ∷ []) (cell.Range start stop step)) stack) }
    ensures light { IfOk result (λ next. (stack : List Frame) → IsLight stack next stack) }
{
    match special {
        Special::GetItem => get_item(alloc, start, stop, step, x),
        Special::DelItem => refuse(alloc, "no items"),
        Special::Contains => Ok(contains(start, stop, step, x)),
        Special::Sub => less_view(alloc, store, x),
        Special::Add => refuse(alloc, "unsupported operand"),
        Special::Mul => refuse(alloc, "unsupported operand"),
        Special::FloorDiv => refuse(alloc, "unsupported operand"),
        Special::Mod => refuse(alloc, "unsupported operand"),
        Special::IAdd => refuse(alloc, "unsupported operand"),
        _ => Ok(Next::Leave(Beyond::NotYet)),
    }
}

/// A special operation on a range with two arguments: no item of it is set.
fn range_with_two(
    alloc: Global,
    number: u32,
    start: i128,
    stop: i128,
    step: i128,
    special: Special,
    key: &Value,
    item: &Value,
) -> Result<Next, NoMemory>
    ensures means { IfOk result (λ next. (stack : List Frame) → Means stack next (special_of_cell special number (key.now ∷ item.now ∷ []) (cell.Range start stop step)) stack) }
    ensures light { IfOk result (λ next. (stack : List Frame) → IsLight stack next stack) }
{
    match special {
        Special::SetItem => refuse(alloc, "no items"),
        _ => Ok(Next::Leave(Beyond::NotYet)),
    }
}
