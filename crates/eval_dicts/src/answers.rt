ghost use Rattle.std.specs.Prelude.{IfOk, List};
ghost use Rattle.py_ast.specs.declared.program.Program.{Program};
ghost use Rattle.eval_frames.specs.declared.frame.Frame.{Frame};
ghost use Rattle.eval_frames.specs.Meaning.{IsLight, Means, MeansIn};
ghost use Rattle.language_rules.specs.AtOnce.{stated};
ghost use Rattle.language_rules.specs.Going.{type_error};
ghost use Rattle.language_rules.specs.States.{State};
ghost use Rattle.eval_dicts.specs.Arguments.{alone, less_of, with_one};

use eval_frames::Next;
use eval_ranges::{less_view, refuse};
use py_store::Store;
use rp_base::{Beyond, NoMemory, Value};
use std::alloc::Global;

/// A `TypeError` with this text, where there are no arguments.
pub(crate) fn refuse_alone(alloc: Global, text: &str, arguments: &[Value]) -> Result<Next, NoMemory>
    ensures means { IfOk result (λ next. (stack : List Frame) → Means stack next (alone (type_error text.now) arguments.now) stack) }
    ensures light { IfOk result (λ next. (stack : List Frame) → IsLight stack next stack) }
{
    match arguments {
        [] => refuse(alloc, text),
        _ => Ok(Next::Leave(Beyond::NotYet)),
    }
}

/// The same, where there is one argument.
pub(crate) fn refuse_with_one(
    alloc: Global,
    text: &str,
    arguments: &[Value],
) -> Result<Next, NoMemory>
    ensures means { IfOk result (λ next. (stack : List Frame) → Means stack next (with_one (type_error text.now) arguments.now) stack) }
    ensures light { IfOk result (λ next. (stack : List Frame) → IsLight stack next stack) }
{
    match arguments {
        [_] => refuse(alloc, text),
        _ => Ok(Next::Leave(Beyond::NotYet)),
    }
}

/// A dict, less another value.
pub(crate) fn less(alloc: Global, store: &Store, arguments: &[Value]) -> Result<Next, NoMemory>
    ensures means { IfOk result (λ next. (fixed : State) (texts : List Program) (stack : List Frame) → MeansIn (stated fixed store.now.cells texts) stack next (less_of arguments.now) stack) }
    ensures light { IfOk result (λ next. (stack : List Frame) → IsLight stack next stack) }
{
    match arguments {
        [x] => less_view(alloc, store, x),
        _ => Ok(Next::Leave(Beyond::NotYet)),
    }
}
