ghost use Rattle.std.specs.Prelude.{◌≡◌, ◌<◌, ◌≤◌, IfSome};
ghost use Rattle.py_plain.specs.Arithmetic.{is_count};
ghost use Rattle.language_rules.specs.ListMethods.{nearest_place};
ghost use Rattle.language_rules.specs.TextFunctions.{as_int, below, place_among};

use rp_base::{Plain, Value};

/// The int that a value is, where a bool counts as one.
pub(crate) fn as_int(value: &Value) -> Option<i128>
    ensures { result ≡ as_int value.now }
{
    match value {
        Value::Plain(Plain::Bool(b)) => Some(i128::from(*b)),
        Value::Plain(Plain::Int(n)) => Some(*n),
        _ => None,
    }
}

/// Whether an int is one of 64 bits.
pub(crate) fn is_count(n: i128) -> bool
    ensures { result ≡ is_count n }
{
    i64::try_from(n).is_ok()
}

/// The place of a position among so many items: 0 is the first, and -1 the last.
pub(crate) fn place_among(len: usize, n: i128) -> Option<usize>
    ensures place { result ≡ place_among len n }
    ensures within { IfSome result (λ at. at < len) }
{
    if n < 0 {
        return below(len, n + len as i128);
    }
    below(len, n)
}

fn below(len: usize, n: i128) -> Option<usize>
    ensures place { result ≡ below len n }
    ensures within { IfSome result (λ at. at < len) }
{
    if n >= len as i128 {
        return None;
    }
    usize::try_from(n).ok()
}

/// The place in front of which an item is put: a position outside stands for the nearest end.
pub(crate) fn nearest_place(size: usize, position: i128) -> usize
    ensures place { result ≡ nearest_place size position }
    ensures within { result ≤ size }
{
    if position < 0 {
        return (size as u128).saturating_sub(position.unsigned_abs()) as usize;
    }
    (position as u128).min(size as u128) as usize
}
