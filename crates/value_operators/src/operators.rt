ghost use Rattle.std.specs.Prelude.{◌||◌, false};
ghost use Rattle.py_plain.specs.Arithmetic as arithmetic;
ghost use Rattle.language_rules.specs.Answers.{answers};
ghost use Rattle.language_rules.specs.AtOnce.{ComputesUnlessAsked};
ghost use Rattle.language_rules.specs.Kinds.{is_reference};
ghost use Rattle.language_rules.specs.Operators.{unary_rule, binary_rule, tuple_rule};
ghost use Rattle.value_operators.specs.Answering.{AsksOnly};

use crate::ends::{give, unsupported};
use crate::tuples::tuple_operator;
use py_plain::{plain_binary, plain_unary};
use rp_base::{BinaryOp, OpEnd, Plain, UnaryOp, Value};
use std::alloc::Global;

/// A unary operator, or None where an object has to be asked: for `-` of a reference.
#[tactic(auto, unfolding(language_rules::specs::Operators::unary_rule))]
pub fn unary(alloc: Global, op: UnaryOp, operand: &Value) -> Result<Option<Value>, OpEnd>
    ensures computes { ComputesUnlessAsked (unary_rule op operand.now) result }
    ensures asked { AsksOnly (is_reference operand.now) result }
{
    match operand {
        Value::Plain(plain) => unary_of_plain(alloc, op, plain),
        Value::Tuple(_) => Err(unsupported(alloc)),
        Value::Own(_) | Value::Proxy(_) => match op {
            UnaryOp::Neg => Ok(None),
            UnaryOp::Pos | UnaryOp::Invert => Err(unsupported(alloc)),
        },
    }
}

fn unary_of_plain(alloc: Global, op: UnaryOp, operand: &Plain) -> Result<Option<Value>, OpEnd>
    ensures computes { ComputesUnlessAsked (answers (arithmetic.unary op operand.now)) result }
    ensures there { AsksOnly false result }
{
    give(plain_unary(alloc, op, operand))
}

/// A binary operator, or None where an object has to be asked, or looked at: where one of the two is a reference.
#[tactic(auto, unfolding(language_rules::specs::Operators::binary_rule))]
pub fn binary(
    alloc: Global,
    op: BinaryOp,
    left: &Value,
    right: &Value,
) -> Result<Option<Value>, OpEnd>
    ensures computes { ComputesUnlessAsked (binary_rule op left.now right.now) result }
    ensures asked { AsksOnly (is_reference left.now || is_reference right.now) result }
{
    match (left, right) {
        (Value::Own(_), _) => Ok(None),
        (Value::Proxy(_), _) => Ok(None),
        (_, Value::Own(_)) => Ok(None),
        (_, Value::Proxy(_)) => Ok(None),
        (Value::Plain(a), Value::Plain(b)) => binary_of_plains(alloc, op, a, b),
        (Value::Plain(_), Value::Tuple(_)) => tuple_operator(alloc, op, left, right),
        (Value::Tuple(_), Value::Plain(_)) => tuple_operator(alloc, op, left, right),
        (Value::Tuple(_), Value::Tuple(_)) => tuple_operator(alloc, op, left, right),
    }
}

fn binary_of_plains(
    alloc: Global,
    op: BinaryOp,
    left: &Plain,
    right: &Plain,
) -> Result<Option<Value>, OpEnd>
    ensures computes { ComputesUnlessAsked (answers (arithmetic.binary op left.now right.now)) result }
    ensures there { AsksOnly false result }
{
    give(plain_binary(alloc, op, left, right))
}
