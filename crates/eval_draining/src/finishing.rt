ghost use Rattle.std.specs.Prelude.{◌≡◌, ◌==◌, IfOk, List, chars, length};
ghost use Rattle.rp_base.specs.Values.{tuple_of};
ghost use Rattle.eval_frames.specs.declared.frame.Frame.{Frame};
ghost use Rattle.eval_frames.specs.declared.loop_frames.Draining.TheVariants as draining;
ghost use Rattle.eval_frames.specs.LoopFrames.{drained};
ghost use Rattle.eval_frames.specs.Meaning.{IsLight, Means, MeansOver};
ghost use Rattle.language_rules.specs.Answers.{tuple_answers};
ghost use Rattle.language_rules.specs.AtOnce.{stated};
ghost use Rattle.language_rules.specs.Draining.{counted};
ghost use Rattle.language_rules.specs.States.{State};
ghost use Rattle.language_rules.specs.Targets.{assigns_each};
ghost use Rattle.language_rules.specs.TextMethods.{all_characters, join_rule};

use crate::extending::extend;
use crate::reversing::{numbers_reversed, values_reversed};
use builtin_functions::{best_of_items, sum_of_items};
use eval_exprs::{sorted_list, values_of};
use eval_frames::{Draining, Frame, Next, computed, fail};
use eval_targets::assign_each;
use object_operations::{Completion, Env};
use py_ast::{Builtin, Program};
use py_store::{Cell, Store};
use rp_base::{Beyond, CmpOp, ExcKind, NoMemory, OpEnd, TupleEnd, Value, make_tuple};
use sqlite_items::Items;
use std::alloc::Global;
use text_methods::join;

/// What is made of all items.
pub(crate) fn finish(
    alloc: Global,
    stack: &mut Vec<Frame>,
    store: &mut Store,
    texts: &[Program],
    draining: Draining,
    items: Items<Value>,
) -> Result<Next, NoMemory>
    ensures means { IfOk result (λ next. (fixed : State) → MeansOver (stated fixed store.old.cells texts.now) (stated fixed store.new.cells texts.now) stack.new.items next (drained draining items) stack.old.items) }
    ensures light { IfOk result (λ next. IsLight stack.new.items next stack.old.items) }
{
    match draining {
        Draining::Builtin(function) => call_on_items(alloc, function, items),
        Draining::Unpack { env, targets } => {
            unpack(alloc, stack, store, texts, env, targets, items)
        }
        Draining::Extend { list, is_answer } => extend(alloc, store, list, is_answer, items),
        Draining::Join(text) => join_items(alloc, text.as_str(), items.as_slice()),
    }
}

/// The items are joined by a text.
pub fn join_items(alloc: Global, text: &str, items: &[Value]) -> Result<Next, NoMemory>
    ensures means { IfOk result (λ next. (stack : List Frame) → Means stack next (join_rule (chars text.now) (all_characters items.now)) stack) }
    ensures light { IfOk result (λ next. (stack : List Frame) → IsLight stack next stack) }
{
    match join(alloc, text, items) {
        Ok(value) => Ok(Next::Give(Completion::Gives(value))),
        Err(OpEnd::Raise(raised)) => Ok(Next::Give(Completion::Raises(raised))),
        Err(OpEnd::Beyond(beyond)) => Ok(Next::Leave(beyond)),
        Err(OpEnd::NoMemory) => Err(NoMemory),
    }
}

/// What a builtin function makes of all items.
fn call_on_items(alloc: Global, function: Builtin, items: Items<Value>) -> Result<Next, NoMemory>
    ensures means { IfOk result (λ next. (stack : List Frame) → Means stack next (drained (draining.Builtin function) items) stack) }
    ensures light { IfOk result (λ next. (stack : List Frame) → IsLight stack next stack) }
{
    match function {
        Builtin::List => Ok(Next::Make(Cell::List(values_of(alloc, items)?))),
        Builtin::Tuple => tuple(alloc, items),
        Builtin::Min => computed(best_of_items(alloc, CmpOp::Lt, items.as_slice())),
        Builtin::Max => computed(best_of_items(alloc, CmpOp::Gt, items.as_slice())),
        Builtin::Sum => computed(sum_of_items(alloc, items.as_slice())),
        Builtin::Sorted => sorted_list(alloc, items.as_slice()),
        Builtin::Print => Ok(Next::Leave(Beyond::NotYet)),
        Builtin::Len => Ok(Next::Leave(Beyond::NotYet)),
        Builtin::Str => Ok(Next::Leave(Beyond::NotYet)),
        Builtin::Repr => Ok(Next::Leave(Beyond::NotYet)),
        Builtin::Int => Ok(Next::Leave(Beyond::NotYet)),
        Builtin::Bool => Ok(Next::Leave(Beyond::NotYet)),
        Builtin::Abs => Ok(Next::Leave(Beyond::NotYet)),
        Builtin::Ord => Ok(Next::Leave(Beyond::NotYet)),
        Builtin::Chr => Ok(Next::Leave(Beyond::NotYet)),
        Builtin::Dict => Ok(Next::Leave(Beyond::NotYet)),
        Builtin::Range => Ok(Next::Leave(Beyond::NotYet)),
    }
}

fn tuple(alloc: Global, items: Items<Value>) -> Result<Next, NoMemory>
    ensures means { IfOk result (λ next. (stack : List Frame) → Means stack next (tuple_answers (tuple_of items)) stack) }
    ensures light { IfOk result (λ next. (stack : List Frame) → IsLight stack next stack) }
{
    match make_tuple(alloc, items) {
        Ok(tuple) => Ok(Next::Give(Completion::Gives(tuple))),
        Err(TupleEnd::Beyond(beyond)) => Ok(Next::Leave(beyond)),
        Err(TupleEnd::NoMemory) => Err(NoMemory),
    }
}

/// As many items as targets go to them, from the left.
fn unpack(
    alloc: Global,
    stack: &mut Vec<Frame>,
    store: &mut Store,
    texts: &[Program],
    env: Env,
    targets: Items<u32>,
    items: Items<Value>,
) -> Result<Next, NoMemory>
    ensures means { IfOk result (λ next. (fixed : State) → MeansOver (stated fixed store.old.cells texts.now) (stated fixed store.new.cells texts.now) stack.new.items next (counted (length targets) (assigns_each env targets) items) stack.old.items) }
    ensures light { IfOk result (λ next. IsLight stack.new.items next stack.old.items) }
{
    if has_count(items.as_slice(), targets.len()) {
        assign_all(alloc, stack, store, texts, env, targets, items)
    } else {
        fail(alloc, ExcKind::ValueError, "wrong number of values")
    }
}

/// Whether there are so many values.
fn has_count(values: &[Value], count: usize) -> bool
    ensures { result ≡ (length values.now == count) }
{
    values.len() == count
}

fn assign_all(
    alloc: Global,
    stack: &mut Vec<Frame>,
    store: &mut Store,
    texts: &[Program],
    env: Env,
    targets: Items<u32>,
    items: Items<Value>,
) -> Result<Next, NoMemory>
    ensures means { IfOk result (λ next. (fixed : State) → MeansOver (stated fixed store.old.cells texts.now) (stated fixed store.new.cells texts.now) stack.new.items next (assigns_each env targets items) stack.old.items) }
    ensures light { IfOk result (λ next. IsLight stack.new.items next stack.old.items) }
{
    let targets = numbers_reversed(alloc, targets)?;
    let items = values_reversed(alloc, items)?;
    assign_each(alloc, stack, store, texts, env, targets, items)
}
