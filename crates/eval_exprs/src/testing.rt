ghost use Rattle.std.specs.Prelude.{◌≡◌, IfOk, true};
ghost use Rattle.eval_frames.specs.Meaning.{IsLight, Means, decides};
ghost use Rattle.language_rules.specs.Kinds.{is_reference};
ghost use Rattle.language_rules.specs.Truth.{on_truth};
ghost use Rattle.language_rules.specs.Codes.{Gives};
ghost use Rattle.eval_exprs.specs.Steps.{IsLightUnlessTold, IsTold};

use eval_frames::{Decision, Frame, Next, operate_over, special};
use object_operations::{Completion, Special};
use rp_base::{Beyond, NoMemory, Plain, Value};
use std::alloc::Global;

/// An object is asked for its truth, by which this is decided (Python Library Reference, "Truth Value Testing").
pub fn ask_truth(
    alloc: Global,
    stack: &mut Vec<Frame>,
    decision: Decision,
    value: Value,
) -> Result<Next, NoMemory>
    requires { is_reference value ≡ true }
    ensures means { IfOk result (λ next. Means stack.new.items next (on_truth value (decides decision value)) stack.old.items) }
    ensures light { IfOk result (λ next. IsLight stack.new.items next stack.old.items) }
{
    let operation = special(alloc, value.copy(alloc)?, Special::Bool);
    operate_over(stack, Frame::Truth { decision, value }, operation)
}

/// The bool that an object gave for its truth; else what comes next. `Beyond(NotYet)` for a value that is no bool.
pub fn told_truth(completion: Completion) -> Result<bool, Next>
    ensures told { IsTold completion result }
    ensures light { IsLightUnlessTold result }
{
    match completion {
        Completion::Gives(value) => told_by(value),
        Completion::Raises(raised) => Err(Next::Give(Completion::Raises(raised))),
        Completion::Returns(value) => Err(Next::Give(Completion::Returns(value))),
        Completion::Breaks => Err(Next::Give(Completion::Breaks)),
        Completion::Continues => Err(Next::Give(Completion::Continues)),
        Completion::Drained(values) => Err(Next::Give(Completion::Drained(values))),
    }
}

fn told_by(value: Value) -> Result<bool, Next>
    ensures told { IsTold (Gives value) result }
    ensures light { IsLightUnlessTold result }
{
    match value {
        Value::Plain(Plain::Bool(truth)) => Ok(truth),
        _ => Err(Next::Leave(Beyond::NotYet)),
    }
}
