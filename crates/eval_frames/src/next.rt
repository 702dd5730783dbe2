ghost use Rattle.std.specs.Prelude.{IfOk, List};
ghost use Rattle.eval_frames.specs.declared.frame.Frame.{Frame};
ghost use Rattle.eval_frames.specs.Meaning.{IsLight, Means, MeansIn};
ghost use Rattle.language_rules.specs.AtOnce.{Comes, ComputesUnlessAsked};
ghost use Rattle.language_rules.specs.Going.{RuleTree};
ghost use Rattle.language_rules.specs.States.{State};

use object_operations::{Completion, Env, Operation};
use py_store::Cell;
use rp_base::{Beyond, NoMemory, OpEnd, Value};
use sqlite_items::Items;

/// What a machine does next.
#[derive(Drop)]
pub enum Next {
    /// The node of this number begins, which costs a unit.
    Enter(Env, u32),
    /// The statement of this number in a class body begins, which costs a unit.
    Member(Env, u32),
    /// An operation on an own cell, which costs a unit.
    Perform(Operation),
    /// What waits goes on with this end.
    Give(Completion),
    /// These values are printed.
    Print(Items<Value>),
    /// An operation is asked of the other side.
    Ask(Operation),
    /// A new cell is made, which is the value.
    Make(Cell),
    /// The name of a handler, which costs a unit as any node does.
    HandlerName,
    /// The script leaves the subset.
    Leave(Beyond),
}

/// The end that an operation on own cells came to goes to what waits.
pub fn answered(answer: Result<Value, OpEnd>) -> Result<Next, NoMemory>
    ensures means { IfOk result (λ next. (s : State) (t : RuleTree) (stack : List Frame) → Comes t s answer s s → MeansIn s stack next t stack) }
    ensures light { IfOk result (λ next. (stack : List Frame) → IsLight stack next stack) }
{
    match answer {
        Ok(value) => Ok(Next::Give(Completion::Gives(value))),
        Err(OpEnd::Raise(raised)) => Ok(Next::Give(Completion::Raises(raised))),
        Err(OpEnd::Beyond(beyond)) => Ok(Next::Leave(beyond)),
        Err(OpEnd::NoMemory) => Err(NoMemory),
    }
}

/// What was computed without asking an object goes to what waits. That an object is asked is not built yet.
pub fn computed(answer: Result<Option<Value>, OpEnd>) -> Result<Next, NoMemory>
    ensures means { IfOk result (λ next. (t : RuleTree) (stack : List Frame) → ComputesUnlessAsked t answer → Means stack next t stack) }
    ensures light { IfOk result (λ next. (stack : List Frame) → IsLight stack next stack) }
{
    match answer {
        Ok(Some(value)) => Ok(Next::Give(Completion::Gives(value))),
        Ok(None) => Err(NoMemory),
        Err(OpEnd::Raise(raised)) => Ok(Next::Give(Completion::Raises(raised))),
        Err(OpEnd::Beyond(beyond)) => Ok(Next::Leave(beyond)),
        Err(OpEnd::NoMemory) => Err(NoMemory),
    }
}
