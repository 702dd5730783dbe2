ghost use Rattle.std.specs.Prelude.{◌≡◌, IfOk, List, true};
ghost use Rattle.rp_base.specs.declared.operators.UnaryOp.TheVariants as unary_op;
ghost use Rattle.eval_frames.specs.declared.frame.Frame.{Frame};
ghost use Rattle.eval_frames.specs.ObjectFrames.{through_operation};
ghost use Rattle.eval_frames.specs.Meaning.{IsLight, Means};
ghost use Rattle.language_rules.specs.Chains.{opposite};
ghost use Rattle.language_rules.specs.Going.{on_value};
ghost use Rattle.language_rules.specs.Kinds.{is_reference};
ghost use Rattle.language_rules.specs.Operators.{binary_rule, left_out, object_rule, special_for, unary_rule, unasked_rule};
ghost use Rattle.language_rules.specs.PlainItems.{item_of};
ghost use Rattle.language_rules.specs.Printing.{gives_text, on_text, on_text_value};
ghost use Rattle.eval_exprs.specs.Steps.{MeansAt};

use crate::kinds::kind_of;
use eval_frames::{
    Next, OperationFrame, computed, fail, is_reference, operate, special, special_with,
};
use object_operations::{Completion, Special};
use py_store::Store;
use rp_base::{Beyond, BinaryOp, ExcKind, NoMemory, Plain, UnaryOp, Value};
use std::alloc::Global;
use value_operators::{binary, is_defined, item, unary};

/// A unary operator: `-` of an object is asked of it.
pub(crate) fn give_unary(alloc: Global, op: UnaryOp, value: Value) -> Result<Next, NoMemory>
    ensures means { IfOk result (λ next. (stack : List Frame) → Means stack next (unary_rule op value) stack) }
    ensures light { IfOk result (λ next. (stack : List Frame) → IsLight stack next stack) }
{
    match op {
        UnaryOp::Neg => negate(alloc, value),
        UnaryOp::Pos | UnaryOp::Invert => computed(unary(alloc, op, &value)),
    }
}

fn negate(alloc: Global, value: Value) -> Result<Next, NoMemory>
    ensures means { IfOk result (λ next. (stack : List Frame) → Means stack next (unary_rule unary_op.Neg value) stack) }
    ensures light { IfOk result (λ next. (stack : List Frame) → IsLight stack next stack) }
{
    if is_reference(&value) {
        Ok(operate(special(alloc, value, Special::Neg)))
    } else {
        computed(unary(alloc, UnaryOp::Neg, &value))
    }
}

/// An item: of an object it is asked.
pub(crate) fn give_key(alloc: Global, receiver: Value, key: Value) -> Result<Next, NoMemory>
    ensures means { IfOk result (λ next. (stack : List Frame) → Means stack next (item_of receiver key) stack) }
    ensures light { IfOk result (λ next. (stack : List Frame) → IsLight stack next stack) }
{
    if is_reference(&receiver) {
        Ok(operate(special_with(alloc, receiver, Special::GetItem, key)?))
    } else {
        computed(item(alloc, &receiver, &key))
    }
}

/// A binary operator: an object on the left is asked, and one on the right alone is not.
pub(crate) fn give_binary(
    alloc: Global,
    store: &Store,
    op: BinaryOp,
    left: Value,
    right: Value,
) -> Result<Next, NoMemory>
    ensures means { IfOk result (λ next. (stack : List Frame) → MeansAt store.now.cells stack next (binary_rule op left right) stack) }
    ensures light { IfOk result (λ next. (stack : List Frame) → IsLight stack next stack) }
{
    if is_reference(&left) {
        operate_on_object(alloc, store, op, left, right)
    } else if is_reference(&right) {
        decide_unasked(alloc, store, op, &left, &right)
    } else {
        computed(binary(alloc, op, &left, &right))
    }
}

/// An object on the left is asked where the operator has a name to ask by.
fn operate_on_object(
    alloc: Global,
    store: &Store,
    op: BinaryOp,
    left: Value,
    right: Value,
) -> Result<Next, NoMemory>
    ensures means { IfOk result (λ next. (stack : List Frame) → MeansAt store.now.cells stack next (object_rule (special_for op) op left right) stack) }
    ensures light { IfOk result (λ next. (stack : List Frame) → IsLight stack next stack) }
{
    match special_for(op) {
        Some(special) => Ok(operate(special_with(alloc, left, special, right)?)),
        None => decide_unasked(alloc, store, op, &left, &right),
    }
}

fn special_for(op: BinaryOp) -> Option<Special>
    ensures { result ≡ special_for op }
{
    match op {
        BinaryOp::Add => Some(Special::Add),
        BinaryOp::Sub => Some(Special::Sub),
        BinaryOp::Mul => Some(Special::Mul),
        BinaryOp::FloorDiv => Some(Special::FloorDiv),
        BinaryOp::Mod => Some(Special::Mod),
        _ => None,
    }
}

/// An operator that is decided where the code runs, by the kinds of its operands.
fn decide_unasked(
    alloc: Global,
    store: &Store,
    op: BinaryOp,
    left: &Value,
    right: &Value,
) -> Result<Next, NoMemory>
    ensures means { IfOk result (λ next. (stack : List Frame) → MeansAt store.now.cells stack next (unasked_rule op left.now right.now) stack) }
    ensures light { IfOk result (λ next. (stack : List Frame) → IsLight stack next stack) }
{
    let left_kind = kind_of(store, left);
    let right_kind = kind_of(store, right);
    refuse_operator(alloc, is_defined(op, left, left_kind, right, right_kind))
}

/// The end of an operator that Python defines between these operands, but this language does not, or that is not defined.
fn refuse_operator(alloc: Global, defined: bool) -> Result<Next, NoMemory>
    ensures means { IfOk result (λ next. (stack : List Frame) → Means stack next (left_out defined) stack) }
    ensures light { IfOk result (λ next. (stack : List Frame) → IsLight stack next stack) }
{
    if defined {
        Ok(Next::Leave(Beyond::Operator))
    } else {
        fail(alloc, ExcKind::TypeError, "unsupported operand")
    }
}

/// What is made of the answer of an object: of its text, or of a truth whose opposite is the value. `Beyond(NotYet)` for
/// an answer that is none.
pub fn give_operation(
    _alloc: Global,
    frame: OperationFrame,
    completion: Completion,
) -> Result<Next, NoMemory>
    ensures means { IfOk result (λ next. (stack : List Frame) → Means stack next (through_operation frame completion) stack) }
    ensures light { IfOk result (λ next. (stack : List Frame) → IsLight stack next stack) }
{
    match frame {
        OperationFrame::Text => Ok(give_text(completion)),
        OperationFrame::Opposite => Ok(give_opposite(completion)),
    }
}

fn give_text(completion: Completion) -> Next
    ensures means { (stack : List Frame) → Means stack result (on_text gives_text completion) stack }
    ensures light { (stack : List Frame) → IsLight stack result stack }
{
    match completion {
        Completion::Gives(value) => text_of(value),
        Completion::Raises(raised) => Next::Give(Completion::Raises(raised)),
        Completion::Returns(value) => Next::Give(Completion::Returns(value)),
        Completion::Breaks => Next::Give(Completion::Breaks),
        Completion::Continues => Next::Give(Completion::Continues),
        Completion::Drained(values) => Next::Give(Completion::Drained(values)),
    }
}

fn text_of(value: Value) -> Next
    ensures means { (stack : List Frame) → Means stack result (on_text_value gives_text value) stack }
    ensures light { (stack : List Frame) → IsLight stack result stack }
{
    match value {
        Value::Plain(Plain::Text(text)) => {
            Next::Give(Completion::Gives(Value::Plain(Plain::Text(text))))
        }
        _ => Next::Leave(Beyond::NotYet),
    }
}

fn give_opposite(completion: Completion) -> Next
    ensures means { (stack : List Frame) → Means stack result (on_value opposite completion) stack }
    ensures light { (stack : List Frame) → IsLight stack result stack }
{
    match completion {
        Completion::Gives(value) => opposite_of(value),
        Completion::Raises(raised) => Next::Give(Completion::Raises(raised)),
        Completion::Returns(value) => Next::Give(Completion::Returns(value)),
        Completion::Breaks => Next::Give(Completion::Breaks),
        Completion::Continues => Next::Give(Completion::Continues),
        Completion::Drained(values) => Next::Give(Completion::Drained(values)),
    }
}

fn opposite_of(value: Value) -> Next
    ensures means { (stack : List Frame) → Means stack result (opposite value) stack }
    ensures light { (stack : List Frame) → IsLight stack result stack }
{
    match value {
        Value::Plain(Plain::Bool(truth)) => {
            Next::Give(Completion::Gives(Value::Plain(Plain::Bool(!truth))))
        }
        _ => Next::Leave(Beyond::NotYet),
    }
}
