ghost use Rattle.std.specs.Prelude.{◌≡◌, ◌∷◌, [], ℕ, IfOk, List, Option};
ghost use Rattle.rp_base.specs.declared.value.Value.{Value};
ghost use Rattle.rp_base.specs.declared.value.Value.TheVariants as value;
ghost use Rattle.py_ast.specs.declared.program.Program.{Program};
ghost use Rattle.py_store.specs.declared.cell.Cell.TheVariants as cell;
ghost use Rattle.eval_frames.specs.declared.frame.Frame.{Frame};
ghost use Rattle.eval_frames.specs.Meaning.{IsLight, Means, MeansIn, MeansOver};
ghost use Rattle.language_rules.specs.AtOnce.{stated};
ghost use Rattle.language_rules.specs.Perform.{special_rule};
ghost use Rattle.language_rules.specs.States.{State};
ghost use Rattle.eval_objects.specs.Iterators.{IsIter, asks_next, still_of_cell};

use crate::advancing::next_of_iterator;
use eval_frames::Next;
use eval_ranges::{give, give_truth, less_view, refuse};
use object_operations::Special;
use py_store::Store;
use rp_base::{Beyond, NoMemory, Value};
use std::alloc::Global;

/// A special operation on the iterator of this number. `Leave(NotYet)` for a wrong number of arguments.
pub(crate) fn special_of_iterator(
    alloc: Global,
    store: &mut Store,
    number: u32,
    special: Special,
    arguments: &[Value],
) -> Result<Next, NoMemory>
    requires { IsIter store.old.cells number }
    ensures means { IfOk result (λ next. (fixed : State) (texts : List Program) (stack : List Frame) → MeansOver (stated fixed store.old.cells texts) (stated fixed store.new.cells texts) stack next (special_rule special (value.Own number) arguments.now) stack) }
    ensures light { IfOk result (λ next. (stack : List Frame) → IsLight stack next stack) }
{
    if asks_next(special, arguments) {
        next_of_iterator(alloc, store, number)
    } else {
        still_of_iterator(alloc, store, number, special, arguments)
    }
}

fn asks_next(special: Special, arguments: &[Value]) -> bool
    ensures { result ≡ asks_next special arguments.now }
{
    match special {
        Special::Next => arguments.is_empty(),
        _ => false,
    }
}

/// A special operation on an iterator that leaves it as it is: it has no items and no length, no operator takes it, and
/// it is true.
fn still_of_iterator(
    alloc: Global,
    store: &Store,
    number: u32,
    special: Special,
    arguments: &[Value],
) -> Result<Next, NoMemory>
    ensures means { IfOk result (λ next. (source : Option Value) (at shape : ℕ) (fixed : State) (texts : List Program) (stack : List Frame) → MeansIn (stated fixed store.now.cells texts) stack next (still_of_cell special number arguments.now (cell.Iter source at shape)) stack) }
    ensures light { IfOk result (λ next. (stack : List Frame) → IsLight stack next stack) }
{
    match arguments {
        [] => iterator_alone(alloc, number, special),
        [x] => iterator_with_one(alloc, store, number, special, x),
        [key, item] => iterator_with_two(alloc, number, special, key, item),
        _ => Ok(Next::Leave(Beyond::NotYet)),
    }
}

/// A special operation on an iterator without arguments, other than `__next__`.
fn iterator_alone(alloc: Global, number: u32, special: Special) -> Result<Next, NoMemory>
    ensures means { IfOk result (λ next. (source : Option Value) (at shape : ℕ) (stack : List Frame) → Means stack next (still_of_cell special number [] (cell.Iter source at shape)) stack) }
    ensures light { IfOk result (λ next. (stack : List Frame) → IsLight stack next stack) }
{
    match special {
        Special::Len => refuse(alloc, "no length"),
        Special::Bool => Ok(give_truth(true)),
        Special::Iter => Ok(give(Value::Own(number))),
        Special::Neg => refuse(alloc, "unsupported operand"),
        _ => Ok(Next::Leave(Beyond::NotYet)),
    }
}

/// A special operation on an iterator with one argument.
fn iterator_with_one(
    alloc: Global,
    store: &Store,
    number: u32,
    special: Special,
    x: &Value,
) -> Result<Next, NoMemory>
    ensures means { IfOk result (λ next. (source : Option Value) (at shape : ℕ) (fixed : State) (texts : List Program) (stack : List Frame) → MeansIn (stated fixed store.now.cells texts) stack next (still_of_cell special number (x.now ∷ []) (cell.Iter source at shape)) stack) }
    ensures light { IfOk result (λ next. (stack : List Frame) → IsLight stack next stack) }
{
    match special {
        Special::GetItem => refuse(alloc, "no items"),
        Special::DelItem => refuse(alloc, "no items"),
        Special::Contains => refuse(alloc, "not iterable"),
        Special::Sub => less_view(alloc, store, x),
        Special::Add => refuse(alloc, "unsupported operand"),
        Special::Mul => refuse(alloc, "unsupported operand"),
        Special::FloorDiv => refuse(alloc, "unsupported operand"),
        Special::Mod => refuse(alloc, "unsupported operand"),
        Special::IAdd => refuse(alloc, "unsupported operand"),
        _ => Ok(Next::Leave(Beyond::NotYet)),
    }
}

/// A special operation on an iterator with two arguments.
fn iterator_with_two(
    alloc: Global,
    number: u32,
    special: Special,
    key: &Value,
    item: &Value,
) -> Result<Next, NoMemory>
    ensures means { IfOk result (λ next. (source : Option Value) (at shape : ℕ) (stack : List Frame) → Means stack next (still_of_cell special number (key.now ∷ item.now ∷ []) (cell.Iter source at shape)) stack) }
    ensures light { IfOk result (λ next. (stack : List Frame) → IsLight stack next stack) }
{
    match special {
        Special::SetItem => refuse(alloc, "no items"),
        _ => Ok(Next::Leave(Beyond::NotYet)),
    }
}
