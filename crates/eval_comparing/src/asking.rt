ghost use Rattle.std.specs.Prelude.{◌≡◌, ◌&&◌, ◌||◌, ◌==◌, IfOk, List, true};
ghost use Rattle.eval_frames.specs.declared.frame.Frame.{Frame};
ghost use Rattle.eval_frames.specs.declared.object_frames.ComparisonFrame.TheVariants as comparison_frame;
ghost use Rattle.eval_frames.specs.Meaning.{IsLight, Means, operates_over};
ghost use Rattle.eval_frames.specs.ObjectFrames.{through_comparison};
ghost use Rattle.language_rules.specs.Comparing.{asks_operand, compare_step, last_step, operands_step, same_identity, same_object, swapped};
ghost use Rattle.language_rules.specs.Going.{boolean, carry};
ghost use Rattle.language_rules.specs.Answers.{gives};
ghost use Rattle.language_rules.specs.Kinds.{is_reference};
ghost use Rattle.eval_comparing.specs.Steps.{AddsFrame, IsSlight, MeansAnywhere, is_not_implemented};

use eval_frames::{ComparisonFrame, Frame, Next, fail, is_reference, operate};
use object_operations::{Completion, Operation};
use rp_base::{CmpOp, ExcKind, IdPack, NoMemory, Plain, Value};
use std::alloc::Global;

/// A comparison of which one operand at least refers to an object (Python Language Reference, "Comparisons"): the left one
/// is asked first.
pub fn ask_comparison(
    alloc: Global,
    stack: &mut Vec<Frame>,
    op: CmpOp,
    left: Value,
    right: Value,
) -> Result<Next, NoMemory>
    requires { (is_reference left || is_reference right) ≡ true }
    ensures means { IfOk result (λ next. MeansAnywhere stack.new.items next (carry (compare_step op left right)) stack.old.items) }
    ensures slight { IfOk result (λ next. IsSlight stack.new.items next stack.old.items) }
    ensures frame { IfOk result (λ next. AddsFrame stack.new.items next stack.old.items) }
{
    if is_reference(&left) {
        ask_left(alloc, stack, op, left, right)
    } else {
        ask_right(alloc, stack, op, left, right)
    }
}

fn ask_left(
    alloc: Global,
    stack: &mut Vec<Frame>,
    op: CmpOp,
    left: Value,
    right: Value,
) -> Result<Next, NoMemory>
    requires { is_reference left ≡ true }
    ensures means { IfOk result (λ next. MeansAnywhere stack.new.items next (carry (operands_step op left right)) stack.old.items) }
    ensures frame { IfOk result (λ next. AddsFrame stack.new.items next stack.old.items) }
{
    let operation = Operation::Cmp {
        receiver: left.copy(alloc)?,
        op,
        other: right.copy(alloc)?,
    };
    let frame = ComparisonFrame::Left { op, left, right };
    ask_over(stack, Frame::Comparison(frame), operation)
}

/// The right operand is asked, with the operands changed round.
fn ask_right(
    alloc: Global,
    stack: &mut Vec<Frame>,
    op: CmpOp,
    left: Value,
    right: Value,
) -> Result<Next, NoMemory>
    requires { is_reference right ≡ true }
    ensures means { IfOk result (λ next. MeansAnywhere stack.new.items next (carry (asks_operand right (swapped op) left (last_step op left right))) stack.old.items) }
    ensures frame { IfOk result (λ next. AddsFrame stack.new.items next stack.old.items) }
{
    let operation = Operation::Cmp {
        receiver: right.copy(alloc)?,
        op: swapped(op),
        other: left.copy(alloc)?,
    };
    let frame = ComparisonFrame::Right { op, left, right };
    ask_over(stack, Frame::Comparison(frame), operation)
}

fn swapped(op: CmpOp) -> CmpOp
    ensures { result ≡ swapped op }
{
    match op {
        CmpOp::Eq => CmpOp::Eq,
        CmpOp::Ne => CmpOp::Ne,
        CmpOp::Lt => CmpOp::Gt,
        CmpOp::Le => CmpOp::Ge,
        CmpOp::Gt => CmpOp::Lt,
        CmpOp::Ge => CmpOp::Le,
    }
}

/// What is made of the answer of an operand that was asked for its comparison: on NotImplemented the other operand may be
/// asked.
pub fn give_comparison(
    alloc: Global,
    stack: &mut Vec<Frame>,
    frame: ComparisonFrame,
    completion: Completion,
) -> Result<Next, NoMemory>
    ensures means { IfOk result (λ next. MeansAnywhere stack.new.items next (through_comparison frame completion) stack.old.items) }
    ensures light { IfOk result (λ next. IsLight stack.new.items next stack.old.items) }
{
    match frame {
        ComparisonFrame::Left { op, left, right } => {
            give_left(alloc, stack, op, left, right, completion)
        }
        ComparisonFrame::Right { op, left, right } => {
            give_right(alloc, op, left, right, completion)
        }
    }
}

fn give_left(
    alloc: Global,
    stack: &mut Vec<Frame>,
    op: CmpOp,
    left: Value,
    right: Value,
    completion: Completion,
) -> Result<Next, NoMemory>
    ensures means { IfOk result (λ next. MeansAnywhere stack.new.items next (through_comparison (comparison_frame.Left op left right) completion) stack.old.items) }
    ensures light { IfOk result (λ next. IsLight stack.new.items next stack.old.items) }
{
    if is_not_implemented(&completion) {
        go_on_right(alloc, stack, op, left, right)
    } else {
        Ok(Next::Give(completion))
    }
}

fn give_right(
    alloc: Global,
    op: CmpOp,
    left: Value,
    right: Value,
    completion: Completion,
) -> Result<Next, NoMemory>
    ensures means { IfOk result (λ next. (stack : List Frame) → Means stack next (through_comparison (comparison_frame.Right op left right) completion) stack) }
    ensures light { IfOk result (λ next. (stack : List Frame) → IsLight stack next stack) }
{
    if is_not_implemented(&completion) {
        compare_last(alloc, op, &left, &right)
    } else {
        Ok(Next::Give(completion))
    }
}

/// The right operand, where it refers to an object; else neither tells.
fn go_on_right(
    alloc: Global,
    stack: &mut Vec<Frame>,
    op: CmpOp,
    left: Value,
    right: Value,
) -> Result<Next, NoMemory>
    ensures means { IfOk result (λ next. MeansAnywhere stack.new.items next (carry (asks_operand right (swapped op) left (last_step op left right))) stack.old.items) }
    ensures light { IfOk result (λ next. IsLight stack.new.items next stack.old.items) }
{
    if is_reference(&right) {
        ask_right(alloc, stack, op, left, right)
    } else {
        compare_last(alloc, op, &left, &right)
    }
}

fn is_not_implemented(completion: &Completion) -> bool
    ensures { result ≡ is_not_implemented completion.now }
{
    match completion {
        Completion::Gives(Value::Plain(Plain::NotImpl)) => true,
        _ => false,
    }
}

/// Where neither operand tells: whether both are one object; there is no order.
fn compare_last(alloc: Global, op: CmpOp, left: &Value, right: &Value) -> Result<Next, NoMemory>
    ensures means { IfOk result (λ next. (stack : List Frame) → Means stack next (carry (last_step op left.now right.now)) stack) }
    ensures light { IfOk result (λ next. (stack : List Frame) → IsLight stack next stack) }
{
    match op {
        CmpOp::Eq => Ok(give_bool(same_object(left, right))),
        CmpOp::Ne => Ok(give_bool(!same_object(left, right))),
        CmpOp::Lt => fail(alloc, ExcKind::TypeError, "no order"),
        CmpOp::Le => fail(alloc, ExcKind::TypeError, "no order"),
        CmpOp::Gt => fail(alloc, ExcKind::TypeError, "no order"),
        CmpOp::Ge => fail(alloc, ExcKind::TypeError, "no order"),
    }
}

pub(crate) fn give_bool(holds: bool) -> Next
    ensures means { (stack : List Frame) → Means stack result (gives (boolean holds)) stack }
    ensures light { (stack : List Frame) → IsLight stack result stack }
{
    Next::Give(Completion::Gives(Value::Plain(Plain::Bool(holds))))
}

/// Whether two values refer to one object.
pub fn same_object(left: &Value, right: &Value) -> bool
    ensures { result ≡ same_object left.now right.now }
{
    match (left, right) {
        (Value::Own(a), Value::Own(b)) => *a == *b,
        (Value::Proxy(a), Value::Proxy(b)) => same_identity(a, b),
        _ => false,
    }
}

fn same_identity(left: &IdPack, right: &IdPack) -> bool
    ensures { result ≡ same_identity left.now right.now }
{
    left.name.as_str() == right.name.as_str()
        && left.class_no == right.class_no
        && left.inst_no == right.inst_no
}

/// Whether one of two values refers to an object.
pub(crate) fn one_refers(left: &Value, right: &Value) -> bool
    ensures { result ≡ (is_reference left.now || is_reference right.now) }
{
    is_reference(left) || is_reference(right)
}

/// An operation, whose answer goes to this frame, and with which nothing else is due.
pub fn ask_over(
    stack: &mut Vec<Frame>,
    frame: Frame,
    operation: Operation,
) -> Result<Next, NoMemory>
    ensures means { IfOk result (λ next. Means stack.new.items next (operates_over operation frame) stack.old.items) }
    ensures slight { IfOk result (λ next. IsSlight stack.new.items next stack.old.items) }
    ensures frame { IfOk result (λ next. AddsFrame stack.new.items next stack.old.items) }
{
    stack.push(frame)?;
    Ok(operate(operation))
}
