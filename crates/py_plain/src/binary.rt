ghost use Rattle.std.specs.Prelude.{Err};
ghost use Rattle.rp_base.specs.PlainValues.{look};
ghost use Rattle.py_plain.specs.Answers.{OrNoMemory};
ghost use Rattle.py_plain.specs.Arithmetic.{binary, bools, ints, others, sum_of, product_of, copies_of, format_of};

use crate::copies::{join_bytes, join_items, join_texts, repeat_bytes, repeat_items, repeat_text};
use crate::ends::{PlainEnd, unsupported};
use crate::unary::int_answer;
use py_ints::int_binary;
use rp_base::{Beyond, BinaryOp, Plain};
use std::alloc::Global;

/// What Python makes of `a op b`.
///
/// Ints take every operator, and a bool counts as 0 or 1; `&`, `|` and `^` of two bools give a bool. An int that does not
/// fit 128 bits is `Beyond(Int)`, a float `Beyond(Float)`. Two texts, two byte strings or two tuples take `+`, and one of
/// these and an int, on either side, take `*`: an int below 0 gives an empty value, one outside 64 bits is `Beyond(Int)`,
/// and a result that is too heavy is `Beyond(Size)`, before it is made. `%` with a text or a byte string on the left is
/// `Beyond(Operator)`. All else is a TypeError.
pub fn plain_binary(alloc: Global, op: BinaryOp, a: &Plain, b: &Plain) -> Result<Plain, PlainEnd>
    ensures { OrNoMemory (binary op a.now b.now) result }
{
    match (a, b) {
        (Plain::Bool(x), Plain::Bool(y)) => bools(alloc, op, *x, *y),
        (Plain::Bool(x), Plain::Int(n)) => ints(alloc, op, i128::from(*x), *n),
        (Plain::Int(m), Plain::Bool(y)) => ints(alloc, op, *m, i128::from(*y)),
        (Plain::Int(m), Plain::Int(n)) => ints(alloc, op, *m, *n),
        _ => others(alloc, op, a, b),
    }
}

fn ints(alloc: Global, op: BinaryOp, m: i128, n: i128) -> Result<Plain, PlainEnd>
    ensures { OrNoMemory (ints op m n) result }
{
    int_answer(alloc, int_binary(op, m, n))
}

fn bools(alloc: Global, op: BinaryOp, x: bool, y: bool) -> Result<Plain, PlainEnd>
    ensures { OrNoMemory (bools op x y) result }
{
    match op {
        BinaryOp::And => Ok(Plain::Bool(x & y)),
        BinaryOp::Or => Ok(Plain::Bool(x | y)),
        BinaryOp::Xor => Ok(Plain::Bool(x ^ y)),
        _ => ints(alloc, op, i128::from(x), i128::from(y)),
    }
}

/// Operands that are not both ints or bools.
fn others(alloc: Global, op: BinaryOp, a: &Plain, b: &Plain) -> Result<Plain, PlainEnd>
    ensures { OrNoMemory (others op (look a.now) (look b.now)) result }
{
    match op {
        BinaryOp::Add => sum(alloc, a, b),
        BinaryOp::Mul => product(alloc, a, b),
        BinaryOp::Mod => Err(format(alloc, a)),
        _ => Err(unsupported(alloc)),
    }
}

fn sum(alloc: Global, a: &Plain, b: &Plain) -> Result<Plain, PlainEnd>
    ensures { OrNoMemory (sum_of (look a.now) (look b.now)) result }
{
    match (a, b) {
        (Plain::Text(s), Plain::Text(t)) => join_texts(alloc, s, t),
        (Plain::Bytes(s), Plain::Bytes(t)) => join_bytes(alloc, s, t),
        (Plain::Tuple(xs), Plain::Tuple(ys)) => join_items(alloc, xs.as_slice(), ys.as_slice()),
        _ => Err(unsupported(alloc)),
    }
}

fn product(alloc: Global, a: &Plain, b: &Plain) -> Result<Plain, PlainEnd>
    ensures { OrNoMemory (product_of (look a.now) (look b.now)) result }
{
    match (a, b) {
        (Plain::Bool(x), _) => copies(alloc, i128::from(*x), b),
        (Plain::Int(n), _) => copies(alloc, *n, b),
        (_, Plain::Bool(y)) => copies(alloc, i128::from(*y), a),
        (_, Plain::Int(n)) => copies(alloc, *n, a),
        _ => Err(unsupported(alloc)),
    }
}

/// n copies of a value in a row.
fn copies(alloc: Global, n: i128, a: &Plain) -> Result<Plain, PlainEnd>
    ensures { OrNoMemory (copies_of n (look a.now)) result }
{
    match a {
        Plain::Text(text) => repeat_text(alloc, n, text),
        Plain::Bytes(bytes) => repeat_bytes(alloc, n, bytes),
        Plain::Tuple(items) => repeat_items(alloc, n, items.as_slice()),
        _ => Err(unsupported(alloc)),
    }
}

/// The end of `%` where the left operand is no int.
fn format(alloc: Global, a: &Plain) -> PlainEnd
    ensures { OrNoMemory (format_of (look a.now)) (Err result) }
{
    match a {
        Plain::Text(_) | Plain::Bytes(_) => PlainEnd::Beyond(Beyond::Operator),
        _ => unsupported(alloc),
    }
}
