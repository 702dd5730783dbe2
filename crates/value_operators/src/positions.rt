ghost use Rattle.std.specs.Prelude.{◌≡◌, ◌<◌, IfSome};
ghost use Rattle.language_rules.specs.TextFunctions.{as_int, below, place_among};

use rp_base::{Plain, Value};

/// The int that a value is, where a bool counts as one.
pub(crate) fn as_int(value: &Value) -> Option<i128>
    ensures { result ≡ as_int value.now }
{
    match value {
        Value::Plain(Plain::Bool(b)) => Some(i128::from(*b)),
        Value::Plain(Plain::Int(n)) => Some(*n),
        _ => None,
    }
}

/// The place of a position among so many items: 0 is the first, and -1 the last.
pub(crate) fn place_among(len: usize, n: i128) -> Option<usize>
    ensures place { result ≡ place_among len n }
    ensures within { IfSome result (λ at. at < len) }
{
    if n < 0 {
        return below(len, n + len as i128);
    }
    below(len, n)
}

fn below(len: usize, n: i128) -> Option<usize>
    ensures place { result ≡ below len n }
    ensures within { IfSome result (λ at. at < len) }
{
    if n >= len as i128 {
        return None;
    }
    usize::try_from(n).ok()
}
