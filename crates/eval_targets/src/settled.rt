ghost use Rattle.std.specs.Prelude.{Err, IfOk};
ghost use Rattle.side_trees.specs.Trees.{bind};
ghost use Rattle.eval_frames.specs.Meaning.{IsLight, Means};
ghost use Rattle.rp_base.specs.declared.value.Value.{Value};
ghost use Rattle.object_operations.specs.declared.ending.Env.{Env};
ghost use Rattle.language_rules.specs.Going.{RuleTree, on_value};
ghost use Rattle.language_rules.specs.States.{State};
ghost use Rattle.eval_targets.specs.declared.settled.Waiting.TheVariants as waiting;
ghost use Rattle.eval_targets.specs.Settled.{GoesOnAs, IsSlight, Placed, awaited, settled};

use eval_frames::{Collection, DrainFrame, Draining, Frame, Next, TargetFrame, operate, special};
use object_operations::{Completion, Env, Special};
use rp_base::{Beyond, NoMemory, OpEnd, Value};
use sqlite_items::Items;
use std::alloc::Global;

/// How far an assignment comes before anything is evaluated or asked.
#[derive(Drop)]
pub enum Assigning {
    /// To its end.
    Ended(Completion),
    /// Out of the subset.
    Left(Beyond),
    /// To what it has to wait for.
    Waits(Waiting),
}

/// What an assignment has to wait for. Numbers and values that wait stand the last first.
#[derive(Drop)]
pub enum Waiting {
    /// The receiver of an attribute or an item, which is the expression of this number. Its value goes to this frame.
    Receiver {
        env: Env,
        number: u32,
        frame: TargetFrame,
    },
    /// The same, in front of further targets.
    ReceiverOfEach {
        env: Env,
        number: u32,
        frame: TargetFrame,
        targets: Items<u32>,
        values: Items<Value>,
    },
    /// The items of a list, which go to these targets, in written order.
    Items {
        env: Env,
        list: Value,
        targets: Items<u32>,
    },
}

/// What comes next in an assignment that came so far.
pub(crate) fn go_on(
    alloc: Global,
    stack: &mut Vec<Frame>,
    assigning: Assigning,
) -> Result<Next, NoMemory>
    ensures means { IfOk result (λ next. Means stack.new.items next (settled assigning) stack.old.items) }
    ensures light { IfOk result (λ next. IsLight stack.new.items next stack.old.items) }
{
    match assigning {
        Assigning::Ended(completion) => Ok(Next::Give(completion)),
        Assigning::Left(beyond) => Ok(Next::Leave(beyond)),
        Assigning::Waits(waiting) => wait_for(alloc, stack, waiting),
    }
}

/// What an assignment waits for begins, over the frames that wait for it.
pub(crate) fn wait_for(
    alloc: Global,
    stack: &mut Vec<Frame>,
    waiting: Waiting,
) -> Result<Next, NoMemory>
    ensures means { IfOk result (λ next. Means stack.new.items next (awaited waiting) stack.old.items) }
    ensures slight { IfOk result (λ next. IsSlight stack.new.items next stack.old.items) }
{
    match waiting {
        Waiting::Receiver { env, number, frame } => enter_receiver(stack, env, number, frame),
        Waiting::ReceiverOfEach {
            env,
            number,
            frame,
            targets,
            values,
        } => enter_receiver_of_each(stack, env, number, frame, targets, values),
        Waiting::Items { env, list, targets } => ask_items(alloc, stack, env, list, targets),
    }
}

/// The expression of this number begins, whose value goes to this frame.
pub fn enter_receiver(
    stack: &mut Vec<Frame>,
    env: Env,
    number: u32,
    frame: TargetFrame,
) -> Result<Next, NoMemory>
    ensures means { IfOk result (λ next. Means stack.new.items next (awaited (waiting.Receiver env number frame)) stack.old.items) }
    ensures slight { IfOk result (λ next. IsSlight stack.new.items next stack.old.items) }
{
    stack.push(Frame::Target(frame))?;
    Ok(Next::Enter(env, number))
}

/// The same, in front of further targets.
pub fn enter_receiver_of_each(
    stack: &mut Vec<Frame>,
    env: Env,
    number: u32,
    frame: TargetFrame,
    targets: Items<u32>,
    values: Items<Value>,
) -> Result<Next, NoMemory>
    ensures means { IfOk result (λ next. Means stack.new.items next (awaited (waiting.ReceiverOfEach env number frame targets values)) stack.old.items) }
    ensures slight { IfOk result (λ next. IsSlight stack.new.items next stack.old.items) }
{
    stack.push(Frame::Target(TargetFrame::Each {
        env,
        targets,
        values,
    }))?;
    stack.push(Frame::Target(frame))?;
    Ok(Next::Enter(env, number))
}

/// A list is asked for its iterator, to go over its items.
pub fn ask_items(
    alloc: Global,
    stack: &mut Vec<Frame>,
    env: Env,
    list: Value,
    targets: Items<u32>,
) -> Result<Next, NoMemory>
    ensures means { IfOk result (λ next. Means stack.new.items next (awaited (waiting.Items env list targets)) stack.old.items) }
    ensures slight { IfOk result (λ next. IsSlight stack.new.items next stack.old.items) }
{
    stack.push(Frame::Drain(DrainFrame::Iterator {
        collection: Collection::List,
        draining: Draining::Unpack { env, targets },
    }))?;
    Ok(operate(special(alloc, list, Special::Iter)))
}

/// An exception, or the way out of the subset.
pub(crate) fn failed(end: OpEnd) -> Result<Assigning, NoMemory>
    ensures ends { IfOk result (λ assigning. (env : Env) (s s' : State) (t : RuleTree) (f : Value → RuleTree) → Placed env s t s' (Err end) → GoesOnAs s (bind t (on_value f)) s' (settled assigning)) }
{
    match end {
        OpEnd::Raise(raised) => Ok(Assigning::Ended(Completion::Raises(raised))),
        OpEnd::Beyond(beyond) => Ok(Assigning::Left(beyond)),
        OpEnd::NoMemory => Err(NoMemory),
    }
}
