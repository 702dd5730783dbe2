ghost use Rattle.std.specs.Prelude.{◌≡◌, ◌∷◌, IfOk};
ghost use Rattle.rp_base.specs.declared.value.Value.TheVariants as value;
ghost use Rattle.object_operations.specs.declared.operation.Operation.TheVariants as operation;
ghost use Rattle.eval_frames.specs.Meaning.{IsLight, Means};
ghost use Rattle.language_rules.specs.Going.{asks};
ghost use Rattle.eval_instances.specs.Methods.{goes_on};

use eval_frames::{Decision, Frame, MethodFrame, Next, TargetFrame, operate, operate_over};
use object_operations::Operation;
use rp_base::{NoMemory, Value};
use sqlite_items::Items;
use std::alloc::Global;

/// What is done with the value that a method gives.
#[derive(Clone, Copy, Debug, PartialEq, Eq)]
pub(crate) enum After {
    /// It is the answer.
    Answer,
    /// It is dropped.
    Done,
    /// Its truth is the answer.
    Truth,
    Method(MethodFrame),
}

/// A method is called with the instance first, and what it gives is gone on with.
pub(crate) fn call(
    alloc: Global,
    stack: &mut Vec<Frame>,
    number: u32,
    callee: &Value,
    arguments: &[Value],
    after: After,
) -> Result<Next, NoMemory>
    ensures means { IfOk result (λ next. Means stack.new.items next (asks (operation.Call callee.now (value.Own number ∷ arguments.now)) (goes_on after)) stack.old.items) }
    ensures light { IfOk result (λ next. IsLight stack.new.items next stack.old.items) }
{
    let operation = call_of(alloc, number, callee, arguments)?;
    call_over(stack, operation, after)
}

/// The call of a method with the instance in front of its arguments.
fn call_of(
    alloc: Global,
    number: u32,
    callee: &Value,
    arguments: &[Value],
) -> Result<Operation, NoMemory>
    ensures { IfOk result (λ o. o ≡ operation.Call callee.now (value.Own number ∷ arguments.now)) }
{
    let mut all = Items::new(alloc);
    all.push(Value::Own(number))?;
    for argument in arguments {
        all.push(argument.copy(alloc)?)?;
    }
    Ok(Operation::Call {
        callee: callee.copy(alloc)?,
        arguments: all,
    })
}

/// An operation, whose value is gone on with.
fn call_over(stack: &mut Vec<Frame>, operation: Operation, after: After) -> Result<Next, NoMemory>
    ensures means { IfOk result (λ next. Means stack.new.items next (asks operation (goes_on after)) stack.old.items) }
    ensures light { IfOk result (λ next. IsLight stack.new.items next stack.old.items) }
{
    match after {
        After::Answer => Ok(operate(operation)),
        After::Done => operate_over(stack, Frame::Target(TargetFrame::Done), operation),
        After::Truth => operate_over(stack, Frame::Test(Decision::Bool), operation),
        After::Method(frame) => operate_over(stack, Frame::Method(frame), operation),
    }
}
