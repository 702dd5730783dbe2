ghost use Rattle.std.specs.Prelude.{◌≡◌, ◌≤◌, ◌<◌, length, drop, IfSome, option_map, ◌+◌};
ghost use Rattle.py_lexer.specs.Literals.{item_size, escape_size, literal_size, is_hex, is_code, is_surrogate};

use crate::spelling::hex_digit;

/// The length of the literal in front, whose body begins behind its opening, up to its closing quote: None where it
/// does not end on its line, or has an item of another form.
pub(crate) fn literal_size(quote: u8, is_bytes: bool, opening: usize, rest: &[u8]) -> Option<usize>
    ensures value { result ≡ option_map (λ n. opening + n) (literal_size quote is_bytes 0 (drop opening rest.now)) }
    ensures within { IfSome result (λ n. (opening < n) × (n ≤ length rest.now)) }
{
    let mut at = opening;
    'items: while at < rest.len() {
        if rest[at] == quote {
            return Some(at + 1);
        }
        at += item_size(is_bytes, &rest[at..])?;
    }
    None
}

/// The length of the character or the escape in front. None where there is none that a literal of this kind may hold.
#[tactic(auto, unfolding(crate::specs::Literals::item_size))]
fn item_size(is_bytes: bool, rest: &[u8]) -> Option<usize>
    ensures value { result ≡ item_size is_bytes rest.now }
    ensures within { IfSome result (λ n. (0 < n) × (n ≤ length rest.now)) }
{
    match rest {
        [] | [b'\n', ..] | [b'\r', b'\n', ..] => None,
        [b'\\', escape @ ..] => Some(1 + escape_size(is_bytes, escape)?),
        [byte, ..] if is_bytes && *byte >= 128 => None,
        _ => Some(1),
    }
}

/// The length of the escape behind its backslash.
#[tactic(auto, unfolding(crate::specs::Literals::escape_size))]
fn escape_size(is_bytes: bool, escape: &[u8]) -> Option<usize>
    ensures value { result ≡ escape_size is_bytes escape.now }
    ensures within { IfSome result (λ n. (0 < n) × (n ≤ 5) × (n ≤ length escape.now)) }
{
    match escape {
        [b'n' | b't' | b'r' | b'\\' | b'\'' | b'"', ..] => Some(1),
        [b'x', a, b, ..] if is_hex(*a) && is_hex(*b) => Some(3),
        [b'u', a, b, c, d, ..] if !is_bytes && is_code(*a, *b, *c, *d) => Some(5),
        _ => None,
    }
}

/// Whether four hex digits spell a code that is no surrogate.
fn is_code(a: u8, b: u8, c: u8, d: u8) -> bool
    ensures { result ≡ is_code a b c d }
{
    is_hex(a) && is_hex(b) && is_hex(c) && is_hex(d) && !is_surrogate(a, b)
}

/// Whether a code whose hex digits begin so is a surrogate: from D800 to DFFF.
fn is_surrogate(a: u8, b: u8) -> bool
    ensures { result ≡ is_surrogate a b }
{
    matches!(a, b'd' | b'D') && !matches!(b, b'0'..=b'7')
}

fn is_hex(byte: u8) -> bool
    ensures { result ≡ is_hex byte }
{
    hex_digit(byte).is_some()
}
