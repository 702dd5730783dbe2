ghost use Rattle.std.specs.Prelude.{◌≡◌, ◌<◌, ◌≤◌, ◌+◌, ◌*◌, ◌++◌, ◌∷◌, ◌&&◌, [], length, false, IfSome, OnOk, Some, None, option_map, if◌then◌else◌};
ghost use Rattle.py_lexer.specs.Items.{Hex, Code};
ghost use Rattle.py_lexer.specs.Literals.{is_hex, is_code};
ghost use Rattle.py_lexer.specs.Spellings.{hex_natural};
ghost use Rattle.py_literals.specs.Reading.{item_of, escape_item};
ghost use Rattle.py_literals.specs.Values.{marked};
ghost use Rattle.py_literals.specs.Meanings.{kept, meant, stated};

use crate::int::hex_digit;
use rp_base::NoMemory;

/// What an item of a literal stands for.
#[derive(Clone, Copy, Debug, PartialEq, Eq)]
pub(crate) enum Meaning {
    Byte(u8),
    Char(char),
}

impl Meaning {
    /// Appends its bytes.
    pub(crate) fn push(self, out: &mut Vec<u8>) -> Result<(), NoMemory>
        ensures { OnOk result (out.new.items ≡ out.old.items ++ meant self) }
    {
        match self {
            Meaning::Byte(byte) => out.push(byte)?,
            Meaning::Char(c) => out.extend_from_slice(c.encode_utf8(&mut [0; 4]).as_bytes())?,
        }
        Ok(())
    }
}

/// An item that stands in front, by what it stands for and how many bytes spell it.
#[derive(Clone, Copy, Debug, PartialEq, Eq)]
pub(crate) struct Found {
    pub(crate) meaning: Meaning,
    pub(crate) size: usize,
}

/// The item in front, which no quote begins. None where no item of a literal of this kind stands there.
#[tactic(auto, unfolding(crate::specs::Reading::item_of))]
pub(crate) fn item_in_front(is_bytes: bool, rest: &[u8]) -> Option<Found>
    ensures value { option_map kept result ≡ option_map (stated is_bytes) (item_of is_bytes rest.now) }
    ensures within { IfSome result (λ f. (0 < f.size) × (f.size ≤ length rest.now)) }
{
    match rest {
        [b'\\', escape @ ..] => escape_in_front(is_bytes, escape),
        [] | [b'\n', ..] => None,
        [byte, ..] if is_bytes && *byte >= 128 => None,
        [byte, ..] => Some(sized(Meaning::Byte(*byte), 1)),
    }
}

fn sized(meaning: Meaning, size: usize) -> Found
    ensures { result ≡ record { meaning = meaning; size = size } }
{
    Found { meaning, size }
}

/// The escape whose backslash stood in front.
#[tactic(auto, unfolding(crate::specs::Reading::escape_item))]
fn escape_in_front(is_bytes: bool, escape: &[u8]) -> Option<Found>
    ensures value { option_map kept result ≡ option_map (stated is_bytes) (escape_item is_bytes escape.now) }
    ensures within { IfSome result (λ f. (0 < f.size) × (f.size ≤ 1 + length escape.now)) }
{
    match escape {
        [mark @ (b'n' | b't' | b'r' | b'\\' | b'\'' | b'"'), ..] => {
            Some(sized(Meaning::Byte(marked(*mark)), 2))
        }
        [b'x', a, b, ..] => hex_found(is_bytes, *a, *b),
        [b'u', a, b, c, d, ..] if !is_bytes => code_found(*a, *b, *c, *d),
        _ => None,
    }
}

/// What a letter or a sign behind a backslash stands for.
fn marked(mark: u8) -> u8
    ensures { result ≡ marked mark }
{
    match mark {
        b'n' => b'\n',
        b't' => b'\t',
        b'r' => b'\r',
        _ => mark,
    }
}

/// The escape with two hex digits: a byte, or in a text the character with this code.
fn hex_found(is_bytes: bool, a: u8, b: u8) -> Option<Found>
    ensures value { option_map kept result ≡ option_map (stated is_bytes) (if is_hex a && is_hex b then Some (Hex a b) else None) }
    ensures size { IfSome result (λ f. f.size ≡ 4) }
{
    let byte = byte_of(a, b)?;
    let meaning = if is_bytes {
        Meaning::Byte(byte)
    } else {
        Meaning::Char(char::from(byte))
    };
    Some(sized(meaning, 4))
}

/// The escape with four hex digits, which spell no surrogate.
fn code_found(a: u8, b: u8, c: u8, d: u8) -> Option<Found>
    ensures value { option_map kept result ≡ option_map (stated false) (if is_code a b c d then Some (Code a b c d) else None) }
    ensures size { IfSome result (λ f. f.size ≡ 6) }
{
    let c = char_of(a, b, c, d)?;
    Some(sized(Meaning::Char(c), 6))
}

/// The character whose code four hex digits spell.
fn char_of(a: u8, b: u8, c: u8, d: u8) -> Option<char>
    ensures { result ≡ (if is_code a b c d then Some (hex_natural (a ∷ b ∷ c ∷ d ∷ [])) else None) }
{
    let high = byte_of(a, b)?;
    let low = byte_of(c, d)?;
    char::from_u32(u32::from(high) * 256 + u32::from(low))
}

/// The number that two hex digits spell.
fn byte_of(a: u8, b: u8) -> Option<u8>
    ensures { result ≡ (if is_hex a && is_hex b then Some (hex_natural (a ∷ b ∷ [])) else None) }
{
    Some(hex_digit(a)? * 16 + hex_digit(b)?)
}
