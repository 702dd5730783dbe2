ghost use Rattle.py_plain.specs.Answers.{Answers, int_answer};
ghost use Rattle.py_plain.specs.Arithmetic.{unary};

use crate::ends::{PlainEnd, end_of_ints, unsupported};
use py_ints::{IntEnd, int_unary};
use rp_base::{Plain, UnaryOp};
use std::alloc::Global;

/// `-a`, `+a` or `~a`: an int, where `a` is an int or a bool, which counts as 0 or 1. Any other value is a TypeError, and
/// an int that does not fit 128 bits is `Beyond(Int)`. Memory is taken only for an exception.
pub fn plain_unary(alloc: Global, op: UnaryOp, a: &Plain) -> Result<Plain, PlainEnd>
    ensures { Answers (unary op a.now) result }
{
    match a {
        Plain::Bool(b) => int_answer(alloc, int_unary(op, i128::from(*b))),
        Plain::Int(n) => int_answer(alloc, int_unary(op, *n)),
        _ => Err(unsupported(alloc)),
    }
}

/// The value or the end that an operation on ints comes to.
pub(crate) fn int_answer(alloc: Global, answer: Result<i128, IntEnd>) -> Result<Plain, PlainEnd>
    ensures { Answers (int_answer answer) result }
{
    match answer {
        Ok(n) => Ok(Plain::Int(n)),
        Err(end) => Err(end_of_ints(alloc, end)),
    }
}
