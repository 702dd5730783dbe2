ghost use Rattle.std.specs.Prelude.{◌≡◌, ℕ, ◌^◌, ◌<◌, pos, negsuc, ◌*ℤ◌, ◌<ℤ◌};
ghost use Rattle.std.specs.Ordering.{int_cmp};
ghost use Rattle.py_ints.specs.Arithmetic.{int_result, unary_result, true_quotient, quotient, remainder, power, left_shift, right_shift, exact};

use rp_base::{BinaryOp as IntOp, UnaryOp as IntUnary};
use std::cmp::Ordering;

/// Why an operation on ints gave no int.
#[derive(Clone, Copy, Debug, PartialEq, Eq)]
pub enum IntEnd {
    /// The number does not fit 128 bits.
    BeyondInt,
    /// The number would be a float.
    BeyondFloat,
    /// Division by 0.
    DivZero,
    /// A shift by a count below 0.
    NegShift,
}

/// What Python makes of `a op b`, or the named end: ints never wrap. `/` and a power below 0 are `DivZero` where they
/// divide by 0, and `BeyondFloat` otherwise. Takes no memory, and a bounded time whatever the exponent or count.
pub fn int_binary(op: IntOp, a: i128, b: i128) -> Result<i128, IntEnd>
    ensures { result ≡ int_result op a b }
{
    match op {
        IntOp::Add => a.checked_add(b).ok_or(IntEnd::BeyondInt),
        IntOp::Sub => a.checked_sub(b).ok_or(IntEnd::BeyondInt),
        IntOp::Mul => multiply(a, b),
        IntOp::FloorDiv => floor_div(a, b),
        IntOp::Mod => floor_mod(a, b),
        IntOp::Pow => pow(a, b),
        IntOp::Shl => shift_left(a, b),
        IntOp::Shr => shift_right(a, b),
        IntOp::And => Ok(a & b),
        IntOp::Or => Ok(a | b),
        IntOp::Xor => Ok(a ^ b),
        IntOp::Div => true_div(a, b),
    }
}

/// What Python makes of `-a`, `+a` or `~a`, or `BeyondInt`.
pub fn int_unary(op: IntUnary, a: i128) -> Result<i128, IntEnd>
    ensures { result ≡ unary_result op a }
{
    match op {
        IntUnary::Neg => a.checked_neg().ok_or(IntEnd::BeyondInt),
        IntUnary::Pos => Ok(a),
        IntUnary::Invert => Ok(!a),
    }
}

/// Which of two ints is less.
pub fn int_compare(a: i128, b: i128) -> Ordering
    ensures { result ≡ int_cmp a b }
{
    a.cmp(&b)
}

/// No quotient of `/` is an int.
fn true_div(a: i128, b: i128) -> Result<i128, IntEnd>
    ensures { result ≡ true_quotient a b }
{
    if b == 0 {
        Err(IntEnd::DivZero)
    } else {
        Err(IntEnd::BeyondFloat)
    }
}

fn floor_div(a: i128, b: i128) -> Result<i128, IntEnd>
    ensures { result ≡ quotient a b }
{
    if b == 0 {
        return Err(IntEnd::DivZero);
    }
    if b == -1 {
        return a.checked_neg().ok_or(IntEnd::BeyondInt);
    }
    let quotient = a.div_euclid(b);
    if b > 0 {
        return Ok(quotient);
    }
    if a.rem_euclid(b) == 0 {
        Ok(quotient)
    } else {
        Ok(quotient - 1)
    }
}

fn floor_mod(a: i128, b: i128) -> Result<i128, IntEnd>
    ensures { result ≡ remainder a b }
{
    if b == 0 {
        return Err(IntEnd::DivZero);
    }
    if b == -1 {
        return Ok(0);
    }
    let rest = a.rem_euclid(b);
    if b > 0 {
        return Ok(rest);
    }
    if rest == 0 { Ok(0) } else { Ok(rest + b) }
}

fn pow(a: i128, b: i128) -> Result<i128, IntEnd>
    ensures { result ≡ power a b }
{
    if b < 0 {
        return negative_power(a);
    }
    match u32::try_from(b) {
        Ok(exponent) => a.checked_pow(exponent).ok_or(IntEnd::BeyondInt),
        Err(_) => huge_power(a, b),
    }
}

/// `1 / a`, `1 / (a * a)` and so on.
fn negative_power(a: i128) -> Result<i128, IntEnd>
    ensures { (e : ℕ) → result ≡ power a (negsuc e) }
{
    if a == 0 {
        Err(IntEnd::DivZero)
    } else {
        Err(IntEnd::BeyondFloat)
    }
}

/// Only 0, 1 and -1 have powers of 128 bits with an exponent that large.
fn huge_power(a: i128, b: i128) -> Result<i128, IntEnd>
    requires { pos 127 <ℤ b }
    ensures { result ≡ power a b }
{
    if a.unsigned_abs() > 1 {
        return Err(IntEnd::BeyondInt);
    }
    if b % 2 == 0 { Ok(a * a) } else { Ok(a) }
}

fn shift_left(a: i128, b: i128) -> Result<i128, IntEnd>
    ensures { result ≡ left_shift a b }
{
    if b < 0 {
        return Err(IntEnd::NegShift);
    }
    if b < 127 {
        return times_power_of_two(a, b as u32);
    }
    // Of what is left, 0 fits 128 bits, and -1 by 127 is the least int.
    if a == 0 {
        return Ok(0);
    }
    if a != -1 {
        return Err(IntEnd::BeyondInt);
    }
    if b == 127 {
        Ok(i128::MIN)
    } else {
        Err(IntEnd::BeyondInt)
    }
}

fn times_power_of_two(a: i128, count: u32) -> Result<i128, IntEnd>
    requires { count < 127 }
    ensures { result ≡ exact (a *ℤ pos (2 ^ count)) }
{
    multiply(a, 1 << count)
}

fn multiply(a: i128, b: i128) -> Result<i128, IntEnd>
    ensures { result ≡ exact (a *ℤ b) }
{
    a.checked_mul(b).ok_or(IntEnd::BeyondInt)
}

fn shift_right(a: i128, b: i128) -> Result<i128, IntEnd>
    ensures { result ≡ right_shift a b }
{
    if b < 0 {
        return Err(IntEnd::NegShift);
    }
    if b > 127 {
        return Ok(if a < 0 { -1 } else { 0 });
    }
    Ok(a >> (b as u32))
}
