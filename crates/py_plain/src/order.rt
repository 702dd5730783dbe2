ghost use Rattle.std.specs.Prelude.{◌≡◌};
ghost use Rattle.py_plain.specs.Answers.{Answers};
ghost use Rattle.py_plain.specs.Comparing.{compared, order_of, items_order, holds};

use crate::ends::{PlainEnd, no_order};
use py_ints::int_compare;
use rp_base::{CmpOp, Plain, equal};
use std::alloc::Global;
use std::cmp::Ordering;

/// Whether the comparison holds.
///
/// `==` and `!=` answer for any two values. The others take two ints, where a bool counts as one, two texts, two byte
/// strings or two tuples, which stand as their first unequal pair or else as their lengths. Any other two values, that
/// pair included, are a TypeError. Memory is taken only for an exception.
pub fn plain_compare(alloc: Global, op: CmpOp, a: &Plain, b: &Plain) -> Result<bool, PlainEnd>
    ensures { Answers (compared op a.now b.now) result }
{
    match op {
        CmpOp::Eq => Ok(equal(a, b)),
        CmpOp::Ne => Ok(!equal(a, b)),
        CmpOp::Lt | CmpOp::Le | CmpOp::Gt | CmpOp::Ge => match order(a, b) {
            Some(order) => Ok(holds(op, order)),
            None => Err(no_order(alloc)),
        },
    }
}

fn holds(op: CmpOp, order: Ordering) -> bool
    ensures { result ≡ holds op order }
{
    match op {
        CmpOp::Eq => order.is_eq(),
        CmpOp::Ne => order.is_ne(),
        CmpOp::Lt => order.is_lt(),
        CmpOp::Le => order.is_le(),
        CmpOp::Gt => order.is_gt(),
        CmpOp::Ge => order.is_ge(),
    }
}

/// How two values stand; none where they have no order.
#[cycle(ordering)]
#[tactic(auto, using(crate::specs::OrderLaws::order_tuples), unfolding(crate::specs::Comparing::order_of))]
fn order(a: &Plain, b: &Plain) -> Option<Ordering>
    ensures { result ≡ order_of a.now b.now }
{
    match (a, b) {
        (Plain::Bool(x), Plain::Bool(y)) => Some(int_compare(i128::from(*x), i128::from(*y))),
        (Plain::Bool(x), Plain::Int(n)) => Some(int_compare(i128::from(*x), *n)),
        (Plain::Int(m), Plain::Bool(y)) => Some(int_compare(*m, i128::from(*y))),
        (Plain::Int(m), Plain::Int(n)) => Some(int_compare(*m, *n)),
        (Plain::Text(s), Plain::Text(t)) => Some(s.as_str().cmp(t.as_str())),
        (Plain::Bytes(s), Plain::Bytes(t)) => Some(s.as_slice().cmp(t.as_slice())),
        (Plain::Tuple(xs), Plain::Tuple(ys)) => order_of_items(xs.as_slice(), ys.as_slice()),
        _ => None,
    }
}

#[cycle(ordering)]
fn order_of_items(xs: &[Plain], ys: &[Plain]) -> Option<Ordering>
    ensures { result ≡ items_order xs.now ys.now }
{
    for i in 0..xs.len().min(ys.len()) {
        if !equal(&xs[i], &ys[i]) {
            return order(&xs[i], &ys[i]);
        }
    }
    Some(xs.len().cmp(&ys.len()))
}
