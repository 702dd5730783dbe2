ghost use Rattle.std.specs.Prelude.{◌≡◌, ◌&&◌, not, false};
ghost use Rattle.rp_base.specs.declared.value.Value.TheVariants as value;
ghost use Rattle.language_rules.specs.AtOnce.{ComputesUnlessAsked};
ghost use Rattle.language_rules.specs.Chains.{is_none_value, link_rule};
ghost use Rattle.language_rules.specs.Comparing.{compare_step};
ghost use Rattle.language_rules.specs.Going.{boolean, carry};
ghost use Rattle.value_operators.specs.Answering.{AsksOnly, is_plain};

use crate::ends::end_of;
use crate::membership::contains;
use py_ast::Comparison;
use py_plain::plain_compare;
use rp_base::{CmpOp, OpEnd, Plain, Value};
use std::alloc::Global;

/// One link of a chain of comparisons, or None where an object may have to be asked: where one of the two is not plain.
/// `is` and `is not` always answer.
#[tactic(auto, unfolding(language_rules::specs::Chains::link_rule))]
pub fn link(
    alloc: Global,
    comparison: Comparison,
    left: &Value,
    right: &Value,
) -> Result<Option<Value>, OpEnd>
    ensures computes { ComputesUnlessAsked (link_rule comparison left.now right.now) result }
    ensures asked { AsksOnly (not (is_plain left.now && is_plain right.now)) result }
{
    match comparison {
        Comparison::Order(op) => order(alloc, op, left, right),
        Comparison::In => match contains(alloc, right, left)? {
            Some(holds) => Ok(Some(boolean(holds))),
            None => Ok(None),
        },
        Comparison::NotIn => match contains(alloc, right, left)? {
            Some(holds) => Ok(Some(boolean(!holds))),
            None => Ok(None),
        },
        Comparison::Is => Ok(Some(boolean(is_none(left)))),
        Comparison::IsNot => Ok(Some(boolean(!is_none(left)))),
    }
}

fn boolean(holds: bool) -> Value
    ensures { result ≡ boolean holds }
{
    Value::Plain(Plain::Bool(holds))
}

fn is_none(value: &Value) -> bool
    ensures { result ≡ is_none_value value.now }
{
    matches!(value, Value::Plain(Plain::None))
}

/// One of the six comparisons of two plain values.
fn order(alloc: Global, op: CmpOp, left: &Value, right: &Value) -> Result<Option<Value>, OpEnd>
    ensures computes { ComputesUnlessAsked (carry (compare_step op left.now right.now)) result }
    ensures asked { AsksOnly (not (is_plain left.now && is_plain right.now)) result }
{
    match (left, right) {
        (Value::Plain(a), Value::Plain(b)) => order_of_plains(alloc, op, a, b),
        (Value::Plain(_), _) => Ok(None),
        _ => Ok(None),
    }
}

fn order_of_plains(
    alloc: Global,
    op: CmpOp,
    left: &Plain,
    right: &Plain,
) -> Result<Option<Value>, OpEnd>
    ensures computes { ComputesUnlessAsked (carry (compare_step op (value.Plain left.now) (value.Plain right.now))) result }
    ensures there { AsksOnly false result }
{
    match plain_compare(alloc, op, left, right) {
        Ok(holds) => Ok(Some(boolean(holds))),
        Err(end) => Err(end_of(end)),
    }
}
