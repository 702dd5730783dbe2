ghost use Rattle.std.specs.Prelude.{◌≡◌, ◌+◌, ◌-◌, ◌^◌, ◌∷◌, [], IfOk, List, map, min, sum};
ghost use Rattle.object_operations.specs.declared.operation.Operation.TheVariants as operation;
ghost use Rattle.eval_frames.specs.declared.frame.Frame.{Frame};
ghost use Rattle.rp_base.specs.Values.{weight_of};
ghost use Rattle.eval_frames.specs.Meaning.{IsLight, Means, due, operates_over};
ghost use Rattle.language_rules.specs.Answers.{asked};
ghost use Rattle.language_rules.specs.Going.{fails, is_asked, is_far, judged_arguments, too_heavy};
ghost use Rattle.language_rules.specs.Kinds.{is_reference};

use crate::frame::Frame;
use crate::next::Next;
use object_operations::{Completion, Operation, Special};
use rp_base::{Beyond, ExcKind, HEAVIEST_VALUE, NoMemory, Plain, Raised, Text, Value, weight};
use sqlite_items::Items;
use std::alloc::Global;

/// An operation, whose arguments are judged first, goes to the home of its receiver.
pub fn operate(operation: Operation) -> Next
    ensures means { (stack : List Frame) → Means stack result (asked operation) stack }
    ensures begun { due result ≡ 0 }
{
    if are_too_heavy(arguments_of(&operation)) {
        return Next::Leave(Beyond::Size);
    }
    if is_of_other_side(&operation) {
        Next::Ask(operation)
    } else {
        Next::Perform(operation)
    }
}

/// An operation, whose answer goes to this frame.
pub fn operate_over(
    stack: &mut Vec<Frame>,
    frame: Frame,
    operation: Operation,
) -> Result<Next, NoMemory>
    ensures means { IfOk result (λ next. Means stack.new.items next (operates_over operation frame) stack.old.items) }
    ensures light { IfOk result (λ next. IsLight stack.new.items next stack.old.items) }
{
    stack.push(frame)?;
    Ok(operate(operation))
}

/// The values that are judged together before an operation is asked.
fn arguments_of(operation: &Operation) -> &[Value]
    ensures { result.now ≡ judged_arguments operation.now }
{
    match operation {
        Operation::Call { arguments, .. } => arguments.as_slice(),
        Operation::Special { arguments, .. } => arguments.as_slice(),
        _ => &[],
    }
}

/// Whether values that are judged together weigh more than a value may.
pub fn are_too_heavy(values: &[Value]) -> bool
    ensures { result ≡ too_heavy values.now }
{
    weigh(values) > HEAVIEST_VALUE
}

/// The weight of the tuple of these values, or the greatest `u64` where it is larger.
fn weigh(values: &[Value]) -> u64
    ensures { result ≡ min (1 + sum (map weight_of values.now)) (2 ^ 64 - 1) }
{
    let mut sum = 1u64;
    for value in values {
        sum = sum.saturating_add(weight(value));
    }
    sum
}

/// Whether an operation is the other side's to carry out.
fn is_of_other_side(operation: &Operation) -> bool
    ensures { result ≡ is_asked operation.now }
{
    match operation {
        Operation::GetRoot => true,
        Operation::GetAttr { receiver, .. } => is_of_other(receiver),
        Operation::SetAttr { receiver, .. } => is_of_other(receiver),
        Operation::DelAttr { receiver, .. } => is_of_other(receiver),
        Operation::Call { callee, .. } => is_of_other(callee),
        Operation::Special { receiver, .. } => is_of_other(receiver),
        Operation::Cmp { receiver, .. } => is_of_other(receiver),
        Operation::Str(receiver) => is_of_other(receiver),
        Operation::Repr(receiver) => is_of_other(receiver),
    }
}

fn is_of_other(value: &Value) -> bool
    ensures { result ≡ is_far value.now }
{
    matches!(value, Value::Proxy(_))
}

/// Whether a value refers to an object.
pub fn is_reference(value: &Value) -> bool
    ensures { result ≡ is_reference value.now }
{
    match value {
        Value::Own(_) => true,
        Value::Proxy(_) => true,
        Value::Plain(_) => false,
        Value::Tuple(_) => false,
    }
}

/// An operation that Python spells as a method with a special name and no argument.
pub fn special(alloc: Global, receiver: Value, special: Special) -> Operation
    ensures { result ≡ operation.Special receiver special [] }
{
    Operation::Special {
        receiver,
        special,
        arguments: Items::new(alloc),
    }
}

/// The same with one argument.
pub fn special_with(
    alloc: Global,
    receiver: Value,
    special: Special,
    argument: Value,
) -> Result<Operation, NoMemory>
    ensures { IfOk result (λ o. o ≡ operation.Special receiver special (argument ∷ [])) }
{
    let mut arguments = Items::new(alloc);
    arguments.push(argument)?;
    Ok(Operation::Special {
        receiver,
        special,
        arguments,
    })
}

/// An exception of this kind that has this text.
pub fn fail(alloc: Global, kind: ExcKind, text: &str) -> Result<Next, NoMemory>
    ensures means { IfOk result (λ next. (stack : List Frame) → Means stack next (fails kind text.now) stack) }
    ensures light { IfOk result (λ next. (stack : List Frame) → IsLight stack next stack) }
{
    let mut args = Items::new(alloc);
    args.push(Plain::Text(Text::from_str(alloc, text)?))?;
    Ok(Next::Give(Completion::Raises(Raised { kind, args })))
}
