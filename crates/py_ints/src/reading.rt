ghost use Rattle.std.specs.Prelude.{◌≡◌, ◌-◌, ◌^◌, min, pos, option_map};
ghost use Rattle.py_ints.specs.IntTexts.{natural_value, int_value, below_zero, within};

/// Why a text gave no int.
#[derive(Clone, Copy, Debug, PartialEq, Eq)]
pub enum IntText {
    /// The text is not an optional sign and one digit or more.
    Shape,
    /// The number does not fit 128 bits.
    Wide,
}

/// The int that the text spells: an optional `+` or `-`, and one ASCII digit or more, zeros in front among them. Every
/// value of `i128` is read. Time is linear in the text.
pub fn read_int(text: &[u8]) -> Result<i128, IntText>
    ensures { result ≡ within (int_value text.now) }
{
    match text {
        [b'-', digits @ ..] => negative(digits),
        [b'+', digits @ ..] => positive(digits),
        _ => positive(text),
    }
}

fn positive(digits: &[u8]) -> Result<i128, IntText>
    ensures { result ≡ within (option_map pos (natural_value digits.now)) }
{
    let size = saturated(digits).ok_or(IntText::Shape)?;
    i128::try_from(size).map_err(|_| IntText::Wide)
}

fn negative(digits: &[u8]) -> Result<i128, IntText>
    ensures { result ≡ within (option_map below_zero (natural_value digits.now)) }
{
    let size = saturated(digits).ok_or(IntText::Shape)?;
    0i128.checked_sub_unsigned(size).ok_or(IntText::Wide)
}

/// The number that the digits spell, or the greatest `u128` where it is larger. None where they are not one digit or
/// more.
fn saturated(digits: &[u8]) -> Option<u128>
    ensures { result ≡ option_map (λ n. min n (2 ^ 128 - 1)) (natural_value digits.now) }
{
    if digits.is_empty() {
        return None;
    }
    let mut number = 0u128;
    for digit in digits {
        if !digit.is_ascii_digit() {
            return None;
        }
        number = number
            .saturating_mul(10)
            .saturating_add(u128::from(digit - b'0'));
    }
    Some(number)
}
