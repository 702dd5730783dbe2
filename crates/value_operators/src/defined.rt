ghost use Rattle.std.specs.Prelude.{◌≡◌, is_some};
ghost use Rattle.rp_base.specs.declared.value.Value.{Value};
ghost use Rattle.language_rules.specs.Comparing.{tuple_items};
ghost use Rattle.language_rules.specs.Operators.{has_view, is_class, is_defined, is_dict, is_format, is_iterable, is_list, is_series, is_view};

use crate::positions::as_int;
use rp_base::{BinaryOp, Kind, Plain, Value};

/// Whether Python defines an operator between two operands of which one is a reference, by their values and their kinds:
/// those of sets with a view, `|` with a class or of two dicts, an int times a list, and `%` of a text or a byte string.
pub fn is_defined(
    op: BinaryOp,
    left: &Value,
    left_kind: Option<Kind>,
    right: &Value,
    right_kind: Option<Kind>,
) -> bool
    ensures { result ≡ is_defined op (left.now, left_kind) (right.now, right_kind) }
{
    match op {
        BinaryOp::Sub => has_view(left, left_kind, right_kind),
        BinaryOp::And => has_view(left, left_kind, right_kind),
        BinaryOp::Xor => has_view(left, left_kind, right_kind),
        BinaryOp::Or => joins(left, left_kind, right_kind),
        BinaryOp::Mul => as_int(left).is_some() && is_list(right_kind),
        BinaryOp::Mod => is_format(left),
        _ => false,
    }
}

/// `|`.
fn joins(left: &Value, left_kind: Option<Kind>, right_kind: Option<Kind>) -> bool
    ensures { (right : Value) → result ≡ is_defined BinaryOp.Or (left.now, left_kind) (right, right_kind) }
{
    has_view(left, left_kind, right_kind)
        || is_class(left_kind)
        || is_class(right_kind)
        || (is_dict(left_kind) && is_dict(right_kind))
}

fn has_view(left: &Value, left_kind: Option<Kind>, right_kind: Option<Kind>) -> bool
    ensures { (right : Value) → result ≡ has_view (left.now, left_kind) (right, right_kind) }
{
    is_view(left_kind) || (is_iterable(left, left_kind) && is_view(right_kind))
}

fn is_view(kind: Option<Kind>) -> bool
    ensures { (v : Value) → result ≡ is_view (v, kind) }
{
    match kind {
        Some(Kind::View) => true,
        _ => false,
    }
}

fn is_class(kind: Option<Kind>) -> bool
    ensures { (v : Value) → result ≡ is_class (v, kind) }
{
    match kind {
        Some(Kind::Class) => true,
        _ => false,
    }
}

fn is_list(kind: Option<Kind>) -> bool
    ensures { (v : Value) → result ≡ is_list (v, kind) }
{
    match kind {
        Some(Kind::List) => true,
        _ => false,
    }
}

fn is_dict(kind: Option<Kind>) -> bool
    ensures { (v : Value) → result ≡ is_dict (v, kind) }
{
    match kind {
        Some(Kind::Dict) => true,
        Some(Kind::Namespace) => true,
        _ => false,
    }
}

/// Whether there may be items to go over.
fn is_iterable(value: &Value, kind: Option<Kind>) -> bool
    ensures { result ≡ is_iterable (value.now, kind) }
{
    match kind {
        Some(Kind::List) => true,
        Some(Kind::Dict) => true,
        Some(Kind::Namespace) => true,
        Some(Kind::Range) => true,
        Some(Kind::Iter) => true,
        Some(Kind::View) => true,
        Some(Kind::Instance) => true,
        Some(_) => false,
        None => is_series(value),
    }
}

/// Whether a value is a text, a byte string or a tuple.
fn is_series(value: &Value) -> bool
    ensures { result ≡ is_series value.now }
{
    is_format(value) || is_tuple(value)
}

fn is_format(value: &Value) -> bool
    ensures { result ≡ is_format value.now }
{
    match value {
        Value::Plain(Plain::Text(_)) => true,
        Value::Plain(Plain::Bytes(_)) => true,
        _ => false,
    }
}

#[tactic(auto, using(language_rules::specs::StepLaws::items_of_a_tuple, language_rules::specs::StepLaws::items_of_a_plain_tuple))]
fn is_tuple(value: &Value) -> bool
    ensures { result ≡ is_some (tuple_items value.now) }
{
    match value {
        Value::Plain(Plain::Tuple(_)) => true,
        Value::Tuple(_) => true,
        _ => false,
    }
}
