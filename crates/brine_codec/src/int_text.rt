ghost use Rattle.std.specs.Prelude.{◌≡◌};
ghost use Rattle.std.specs.Str.{all_ascii_digits};
ghost use Rattle.py_ints.specs.IntTexts.{is_shortest, is_positive_text};
ghost use Rattle.brine_codec.specs.Reading.{int_of_text};

use crate::ends::BrineKind;
use crate::tag::is_small;
use py_ints::{IntText, read_int};

/// The int of a decimal text that is its shortest spelling.
#[tactic(auto, unfolding(crate::specs::Reading::int_of_text))]
pub(crate) fn int_of(text: &[u8]) -> Result<i128, BrineKind>
    ensures { result ≡ int_of_text text.now }
{
    if !is_decimal(text) {
        return Err(BrineKind::B5);
    }
    match read_int(text) {
        Ok(n) if is_small(n) => Err(BrineKind::B4),
        Ok(n) => Ok(n),
        Err(IntText::Wide) => Err(BrineKind::B6),
        Err(IntText::Shape) => Err(BrineKind::B5),
    }
}

/// Whether the text is an optional `-` and digits without a leading 0, and not `-0`.
fn is_decimal(text: &[u8]) -> bool
    ensures { result ≡ is_shortest text.now }
{
    match text {
        [] => false,
        [digit] => digit.is_ascii_digit(),
        [b'-', digits @ ..] => is_positive(digits),
        _ => is_positive(text),
    }
}

fn is_positive(digits: &[u8]) -> bool
    ensures { result ≡ is_positive_text digits.now }
{
    match digits {
        [] | [b'0', ..] => false,
        _ => are_digits(digits),
    }
}

fn are_digits(text: &[u8]) -> bool
    ensures { result ≡ all_ascii_digits text.now }
{
    for byte in text {
        if !byte.is_ascii_digit() {
            return false;
        }
    }
    true
}
