ghost use Rattle.std.specs.Prelude.{IfOk, List};
ghost use Rattle.object_operations.specs.declared.method.BuiltinMethod.TheVariants as method;
ghost use Rattle.py_ast.specs.declared.program.Program.{Program};
ghost use Rattle.eval_frames.specs.LoopFrames.{drained};
ghost use Rattle.eval_frames.specs.Meaning.{IsLight, MeansIn};
ghost use Rattle.eval_frames.specs.declared.loop_frames.Draining.TheVariants as draining;
ghost use Rattle.language_rules.specs.AtOnce.{stated};
ghost use Rattle.language_rules.specs.Draining.{drains};
ghost use Rattle.language_rules.specs.States.{State};
ghost use Rattle.language_rules.specs.TextMethods.{text_method};

use crate::draining::join_by_asking;
use builtin_functions::items_at_hand;
use eval_draining::join_items;
use eval_frames::{Frame, Next, computed};
use object_operations::{BuiltinMethod, Completion};
use py_store::{Cell, Store};
use rp_base::{Beyond, NoMemory, Value};
use std::alloc::Global;
use text_methods::{TextAnswer, text_method};

/// A method of a text.
pub(crate) fn method_of_text(
    alloc: Global,
    stack: &mut Vec<Frame>,
    store: &Store,
    text: &str,
    method: BuiltinMethod,
    arguments: &[Value],
) -> Result<Next, NoMemory>
    ensures means { IfOk result (λ next. (fixed : State) (texts : List Program) → MeansIn (stated fixed store.now.cells texts) stack.new.items next (text_method text.now method arguments.now) stack.old.items) }
    ensures light { IfOk result (λ next. IsLight stack.new.items next stack.old.items) }
{
    match text_method(alloc, text, method, arguments) {
        Ok(TextAnswer::Value(value)) => Ok(Next::Give(Completion::Gives(value))),
        Ok(TextAnswer::List(items)) => Ok(Next::Make(Cell::List(items))),
        Ok(TextAnswer::Drain) => join_with(alloc, stack, store, text, arguments),
        Err(end) => computed(Err(end)),
    }
}

/// `join`: its argument is gone over.
fn join_with(
    alloc: Global,
    stack: &mut Vec<Frame>,
    store: &Store,
    text: &str,
    arguments: &[Value],
) -> Result<Next, NoMemory>
    ensures means { IfOk result (λ next. (fixed : State) (texts : List Program) → MeansIn (stated fixed store.now.cells texts) stack.new.items next (text_method text.now method.Join arguments.now) stack.old.items) }
    ensures light { IfOk result (λ next. IsLight stack.new.items next stack.old.items) }
{
    match arguments {
        [parts] => join_parts(alloc, stack, store, text, parts),
        _ => Ok(Next::Leave(Beyond::Arguments)),
    }
}

fn join_parts(
    alloc: Global,
    stack: &mut Vec<Frame>,
    store: &Store,
    text: &str,
    parts: &Value,
) -> Result<Next, NoMemory>
    ensures means { IfOk result (λ next. (fixed : State) (texts : List Program) → MeansIn (stated fixed store.now.cells texts) stack.new.items next (drains parts.now (drained (draining.Join text.now))) stack.old.items) }
    ensures light { IfOk result (λ next. IsLight stack.new.items next stack.old.items) }
{
    match items_at_hand(alloc, parts)? {
        Some(items) => join_items(alloc, text, items.as_slice()),
        None => join_by_asking(alloc, stack, store, text, parts),
    }
}
