ghost use Rattle.std.specs.Prelude.{◌≡◌, ◌||◌, is_some};
ghost use Rattle.language_rules.specs.AtOnce.{Computes};
ghost use Rattle.language_rules.specs.Comparing.{tuple_items};
ghost use Rattle.language_rules.specs.Operators.{has_view, is_class, is_defined, is_format, is_iterable, is_series, left_out, special_for};
ghost use Rattle.language_rules.specs.TextFunctions.{as_int};
ghost use Rattle.rp_base.specs.declared.operators.BinaryOp.TheVariants as op;
ghost use Rattle.eval_targets.specs.Kinded.{Becomes, augmented_by, binary_by, object_by, unasked_by, update_by};

use crate::exceptions::exception;
use crate::kinds::{is_class, is_dict, is_list, is_view};
use eval_frames::is_reference;
use object_operations::Special;
use rp_base::{Beyond, BinaryOp, ExcKind, Kind, OpEnd, Plain, Value};
use std::alloc::Global;
use value_operators::binary;

/// What an operator of an augmented assignment comes to.
#[derive(Drop)]
pub(crate) enum Outcome {
    /// A value, without asking.
    Made(Value),
    /// This is asked of the left operand.
    Asked(Special),
}

/// The operator of an augmented assignment, where each operand has this kind (Python Language Reference, "Augmented
/// assignment statements").
pub(crate) fn augmented(
    alloc: Global,
    op: BinaryOp,
    left: &Value,
    left_kind: Option<Kind>,
    right: &Value,
    right_kind: Option<Kind>,
) -> Result<Outcome, OpEnd>
    ensures { Becomes (augmented_by op (left.now, left_kind) (right.now, right_kind)) left.now right.now result }
{
    match op {
        BinaryOp::Add => augmented_sum(alloc, left, left_kind, right, right_kind),
        BinaryOp::Mul => augmented_product(alloc, left, left_kind, right, right_kind),
        BinaryOp::Or => augmented_union(alloc, left, left_kind, right, right_kind),
        _ => operator(alloc, op, left, left_kind, right, right_kind),
    }
}

/// `+=`, which a list is asked for.
fn augmented_sum(
    alloc: Global,
    left: &Value,
    left_kind: Option<Kind>,
    right: &Value,
    right_kind: Option<Kind>,
) -> Result<Outcome, OpEnd>
    ensures { Becomes (augmented_by op.Add (left.now, left_kind) (right.now, right_kind)) left.now right.now result }
{
    if is_list(left_kind) {
        return Ok(Outcome::Asked(Special::IAdd));
    }
    operator(alloc, BinaryOp::Add, left, left_kind, right, right_kind)
}

/// `*=`. Copies of a list are not in the language.
fn augmented_product(
    alloc: Global,
    left: &Value,
    left_kind: Option<Kind>,
    right: &Value,
    right_kind: Option<Kind>,
) -> Result<Outcome, OpEnd>
    ensures { Becomes (augmented_by op.Mul (left.now, left_kind) (right.now, right_kind)) left.now right.now result }
{
    if is_list(left_kind) {
        return Err(left_out(alloc, is_int(right)));
    }
    operator(alloc, BinaryOp::Mul, left, left_kind, right, right_kind)
}

/// `|=`. An update of a dict is not in the language.
fn augmented_union(
    alloc: Global,
    left: &Value,
    left_kind: Option<Kind>,
    right: &Value,
    right_kind: Option<Kind>,
) -> Result<Outcome, OpEnd>
    ensures { Becomes (augmented_by op.Or (left.now, left_kind) (right.now, right_kind)) left.now right.now result }
{
    if is_dict(left_kind) {
        return Err(left_out(alloc, may_update(right, right_kind)));
    }
    operator(alloc, BinaryOp::Or, left, left_kind, right, right_kind)
}

/// A binary operator.
fn operator(
    alloc: Global,
    op: BinaryOp,
    left: &Value,
    left_kind: Option<Kind>,
    right: &Value,
    right_kind: Option<Kind>,
) -> Result<Outcome, OpEnd>
    ensures { Becomes (binary_by op (left.now, left_kind) (right.now, right_kind)) left.now right.now result }
{
    if is_reference(left) {
        return of_object(alloc, op, left, left_kind, right, right_kind);
    }
    if is_reference(right) {
        return Err(unasked(alloc, op, left, left_kind, right, right_kind));
    }
    match binary(alloc, op, left, right) {
        Ok(Some(value)) => Ok(Outcome::Made(value)),
        Ok(None) => Err(OpEnd::NoMemory),
        Err(end) => Err(end),
    }
}

/// An object on the left is asked where the operator has a name to ask by.
fn of_object(
    alloc: Global,
    op: BinaryOp,
    left: &Value,
    left_kind: Option<Kind>,
    right: &Value,
    right_kind: Option<Kind>,
) -> Result<Outcome, OpEnd>
    ensures { Becomes (object_by (special_for op) op (left.now, left_kind) (right.now, right_kind)) left.now right.now result }
{
    match special_for(op) {
        Some(special) => Ok(Outcome::Asked(special)),
        None => Err(unasked(alloc, op, left, left_kind, right, right_kind)),
    }
}

fn special_for(op: BinaryOp) -> Option<Special>
    ensures { result ≡ special_for op }
{
    match op {
        BinaryOp::Add => Some(Special::Add),
        BinaryOp::Sub => Some(Special::Sub),
        BinaryOp::Mul => Some(Special::Mul),
        BinaryOp::FloorDiv => Some(Special::FloorDiv),
        BinaryOp::Mod => Some(Special::Mod),
        _ => None,
    }
}

/// An operator that no object is asked for.
fn unasked(
    alloc: Global,
    op: BinaryOp,
    left: &Value,
    left_kind: Option<Kind>,
    right: &Value,
    right_kind: Option<Kind>,
) -> OpEnd
    ensures { Computes (unasked_by op (left.now, left_kind) (right.now, right_kind)) (Err result) }
{
    left_out(alloc, is_defined(op, left, left_kind, right, right_kind))
}

/// The end of an operator that Python defines but this language does not, or that Python does not define either.
fn left_out(alloc: Global, is_defined: bool) -> OpEnd
    ensures { Computes (left_out is_defined) (Err result) }
{
    if is_defined {
        return OpEnd::Beyond(Beyond::Operator);
    }
    match exception(alloc, ExcKind::TypeError, "unsupported operand") {
        Ok(raised) => OpEnd::Raise(raised),
        Err(_) => OpEnd::NoMemory,
    }
}

/// Whether Python defines an operator between two operands of which one is a reference.
fn is_defined(
    op: BinaryOp,
    left: &Value,
    left_kind: Option<Kind>,
    right: &Value,
    right_kind: Option<Kind>,
) -> bool
    ensures { result ≡ is_defined op (left.now, left_kind) (right.now, right_kind) }
{
    match op {
        BinaryOp::Sub => has_view(left, left_kind, right_kind),
        BinaryOp::And => has_view(left, left_kind, right_kind),
        BinaryOp::Xor => has_view(left, left_kind, right_kind),
        BinaryOp::Or => is_union(left, left_kind, right_kind),
        BinaryOp::Mul => is_int(left) && is_list(right_kind),
        BinaryOp::Mod => is_format(left),
        _ => false,
    }
}

/// Whether `|` is that of sets, of classes or of dicts.
fn is_union(left: &Value, left_kind: Option<Kind>, right_kind: Option<Kind>) -> bool
    ensures { (v : Value) → result ≡ is_defined op.Or (left.now, left_kind) (v, right_kind) }
{
    has_view(left, left_kind, right_kind)
        || is_class(left_kind)
        || is_class(right_kind)
        || (is_dict(left_kind) && is_dict(right_kind))
}

/// Whether a view stands on the left, or on the right of what may be gone over.
fn has_view(left: &Value, left_kind: Option<Kind>, right_kind: Option<Kind>) -> bool
    ensures { (v : Value) → result ≡ has_view (left.now, left_kind) (v, right_kind) }
{
    is_view(left_kind) || (is_iterable(left, left_kind) && is_view(right_kind))
}

/// Whether `|=` of a dict may take its items from there.
fn may_update(value: &Value, kind: Option<Kind>) -> bool
    ensures { result ≡ is_iterable (value.now, kind) || is_class (value.now, kind) }
{
    is_iterable(value, kind) || is_class(kind)
}

/// Whether a value may have items to go over.
fn is_iterable(value: &Value, kind: Option<Kind>) -> bool
    ensures { result ≡ is_iterable (value.now, kind) }
{
    match kind {
        Some(kind) => is_iterable_kind(kind),
        None => is_series(value),
    }
}

fn is_iterable_kind(kind: Kind) -> bool
    ensures { (v : Value) → result ≡ is_iterable (v, Some kind) }
{
    match kind {
        Kind::List
        | Kind::Dict
        | Kind::Namespace
        | Kind::Range
        | Kind::Iter
        | Kind::View
        | Kind::Instance => true,
        Kind::Function
        | Kind::Bound
        | Kind::Class
        | Kind::Host
        | Kind::HostFunc
        | Kind::Root
        | Kind::Conn
        | Kind::Modules => false,
    }
}

/// Whether a value is a text, a byte string or a tuple.
fn is_series(value: &Value) -> bool
    ensures { result ≡ is_series value.now }
{
    match value {
        Value::Plain(Plain::Text(_)) => true,
        Value::Plain(Plain::Bytes(_)) => true,
        Value::Plain(Plain::Tuple(_)) => true,
        Value::Tuple(_) => true,
        _ => false,
    }
}

/// Whether a value is a text or a byte string.
fn is_format(value: &Value) -> bool
    ensures { result ≡ is_format value.now }
{
    match value {
        Value::Plain(Plain::Text(_)) => true,
        Value::Plain(Plain::Bytes(_)) => true,
        _ => false,
    }
}

/// Whether a value is an int or a bool.
fn is_int(value: &Value) -> bool
    ensures { result ≡ is_some (as_int value.now) }
{
    match value {
        Value::Plain(Plain::Bool(_)) => true,
        Value::Plain(Plain::Int(_)) => true,
        _ => false,
    }
}
