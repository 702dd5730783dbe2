ghost use Rattle.std.specs.Prelude.{◌≡◌, ℕ, IfOk, List};
ghost use Rattle.rp_base.specs.declared.value.Value.{Value};
ghost use Rattle.py_store.specs.declared.cell.Cell.{Cell};
ghost use Rattle.side_trees.specs.Trees.{bind};
ghost use Rattle.eval_frames.specs.LoopFrames.{through_for};
ghost use Rattle.eval_frames.specs.declared.frame.Frame.{Frame};
ghost use Rattle.eval_frames.specs.declared.loop_frames.ForFrame.TheVariants as for_frame;
ghost use Rattle.eval_frames.specs.Meaning.{IsLight, Means, MeansIn, MeansOver};
ghost use Rattle.eval_targets.specs.declared.settled.Waiting.TheVariants as waiting;
ghost use Rattle.eval_targets.specs.Settled.{awaited, settled};
ghost use Rattle.language_rules.specs.AtOnce.{stated};
ghost use Rattle.language_rules.specs.Codes.{Gives, Raises};
ghost use Rattle.language_rules.specs.Exceptions.{is_stop};
ghost use Rattle.language_rules.specs.Loops.{for_rule};
ghost use Rattle.language_rules.specs.States.{State};

use crate::turns::end_target;
use eval_frames::{ForFrame, Frame, Next, TargetFrame};
use eval_targets::{Assigning, Waiting, ask_items, enter_receiver, enter_receiver_of_each, settle};
use object_operations::{Completion, Env};
use py_ast::Program;
use py_store::Store;
use rp_base::{ExcKind, NoMemory, Plain, Raised, Value};
use sqlite_items::Items;
use std::alloc::Global;

/// The answer to the question for the next item: StopIteration is the end of the loop.
pub(crate) fn give_item(
    alloc: Global,
    stack: &mut Vec<Frame>,
    store: &mut Store,
    texts: &[Program],
    env: Env,
    target: u32,
    body: u32,
    iterator: Value,
    completion: Completion,
) -> Result<Next, NoMemory>
    ensures means { IfOk result (λ next. (fixed : State) → MeansOver (stated fixed store.old.cells texts.now) (stated fixed store.new.cells texts.now) stack.new.items next (for_rule env target body iterator completion) stack.old.items) }
    ensures light { IfOk result (λ next. IsLight stack.new.items next stack.old.items) }
{
    match completion {
        Completion::Gives(item) => take_item(
            alloc, stack, store, texts, env, target, body, iterator, item,
        ),
        Completion::Raises(raised) => Ok(end_items(raised)),
        Completion::Returns(value) => Ok(Next::Give(Completion::Returns(value))),
        Completion::Breaks => Ok(Next::Give(Completion::Breaks)),
        Completion::Continues => Ok(Next::Give(Completion::Continues)),
        Completion::Drained(values) => Ok(Next::Give(Completion::Drained(values))),
    }
}

/// The item goes to the target, and then the suite begins.
fn take_item(
    alloc: Global,
    stack: &mut Vec<Frame>,
    store: &mut Store,
    texts: &[Program],
    env: Env,
    target: u32,
    body: u32,
    iterator: Value,
    item: Value,
) -> Result<Next, NoMemory>
    ensures means { IfOk result (λ next. (fixed : State) → MeansOver (stated fixed store.old.cells texts.now) (stated fixed store.new.cells texts.now) stack.new.items next (for_rule env target body iterator (Gives item)) stack.old.items) }
    ensures light { IfOk result (λ next. IsLight stack.new.items next stack.old.items) }
{
    let assigning = settle(alloc, store, texts, env, target, item)?;
    go_on(alloc, stack, texts, env, target, body, iterator, assigning)
}

/// The loop goes on with the assignment of an item that came so far.
fn go_on(
    alloc: Global,
    stack: &mut Vec<Frame>,
    texts: &[Program],
    env: Env,
    target: u32,
    body: u32,
    iterator: Value,
    assigning: Assigning,
) -> Result<Next, NoMemory>
    ensures means { IfOk result (λ next. (fixed : State) (cells : List Cell) → MeansIn (stated fixed cells texts.now) stack.new.items next (bind (settled assigning) (through_for (for_frame.Target env target body iterator))) stack.old.items) }
    ensures light { IfOk result (λ next. IsLight stack.new.items next stack.old.items) }
{
    match assigning {
        Assigning::Ended(completion) => end_target(
            alloc, stack, texts, env, target, body, iterator, completion,
        ),
        Assigning::Left(beyond) => Ok(Next::Leave(beyond)),
        Assigning::Waits(waiting) => {
            let waits = ForFrame::Target {
                env,
                target,
                body,
                iterator,
            };
            wait_below(alloc, stack, waits, waiting)
        }
    }
}

/// What an assignment waits for begins, over a frame of the loop.
fn wait_below(
    alloc: Global,
    stack: &mut Vec<Frame>,
    waits: ForFrame,
    waiting: Waiting,
) -> Result<Next, NoMemory>
    ensures means { IfOk result (λ next. Means stack.new.items next (bind (awaited waiting) (through_for waits)) stack.old.items) }
    ensures light { IfOk result (λ next. IsLight stack.new.items next stack.old.items) }
{
    match waiting {
        Waiting::Receiver { env, number, frame } => {
            receiver_below(stack, waits, env, number, frame)
        }
        Waiting::ReceiverOfEach {
            env,
            number,
            frame,
            targets,
            values,
        } => receiver_of_each_below(stack, waits, env, number, frame, targets, values),
        Waiting::Items { env, list, targets } => {
            items_below(alloc, stack, waits, env, list, targets)
        }
    }
}

/// The receiver of an attribute or an item begins, over a frame of the loop.
fn receiver_below(
    stack: &mut Vec<Frame>,
    waits: ForFrame,
    env: Env,
    number: u32,
    frame: TargetFrame,
) -> Result<Next, NoMemory>
    ensures means { IfOk result (λ next. Means stack.new.items next (bind (awaited (waiting.Receiver env number frame)) (through_for waits)) stack.old.items) }
    ensures light { IfOk result (λ next. IsLight stack.new.items next stack.old.items) }
{
    stack.push(Frame::For(waits))?;
    enter_receiver(stack, env, number, frame)
}

/// The same, in front of further targets.
fn receiver_of_each_below(
    stack: &mut Vec<Frame>,
    waits: ForFrame,
    env: Env,
    number: u32,
    frame: TargetFrame,
    targets: Items<u32>,
    values: Items<Value>,
) -> Result<Next, NoMemory>
    ensures means { IfOk result (λ next. Means stack.new.items next (bind (awaited (waiting.ReceiverOfEach env number frame targets values)) (through_for waits)) stack.old.items) }
    ensures light { IfOk result (λ next. IsLight stack.new.items next stack.old.items) }
{
    stack.push(Frame::For(waits))?;
    enter_receiver_of_each(stack, env, number, frame, targets, values)
}

/// A list is asked for its items, over a frame of the loop.
fn items_below(
    alloc: Global,
    stack: &mut Vec<Frame>,
    waits: ForFrame,
    env: Env,
    list: Value,
    targets: Items<u32>,
) -> Result<Next, NoMemory>
    ensures means { IfOk result (λ next. Means stack.new.items next (bind (awaited (waiting.Items env list targets)) (through_for waits)) stack.old.items) }
    ensures light { IfOk result (λ next. IsLight stack.new.items next stack.old.items) }
{
    stack.push(Frame::For(waits))?;
    ask_items(alloc, stack, env, list, targets)
}

/// An exception of the question for the next item: that which tells the end, or any other.
fn end_items(raised: Raised) -> Next
    ensures means { (env : Env) (target body : ℕ) (iterator : Value) (stack : List Frame) → Means stack result (for_rule env target body iterator (Raises raised)) stack }
    ensures light { (stack : List Frame) → IsLight stack result stack }
{
    if is_stop(raised.kind) {
        Next::Give(Completion::Gives(Value::Plain(Plain::None)))
    } else {
        Next::Give(Completion::Raises(raised))
    }
}

fn is_stop(kind: ExcKind) -> bool
    ensures { result ≡ is_stop kind }
{
    matches!(kind, ExcKind::StopIteration)
}
