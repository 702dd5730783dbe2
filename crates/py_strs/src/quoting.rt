//! Texts and byte strings as Python prints them.
ghost use Rattle.std.specs.Prelude.{◌≡◌, ◌-◌, ◌<◌, ◌≤◌, ◌==◌, ◌∷◌, ◌++◌, ◌↔◌, length, take, chars, string_bytes, encode_utf8_all, IsTrue, OnOk, SomeIff};
ghost use Rattle.std.specs.Char.{digit_char};
ghost use Rattle.std.specs.List.{list_any};
ghost use Rattle.py_strs.specs.Quoting.{AppendsWithin, backslash, bytes_repr, code_escape, escape, hex, is_hidden, is_hidden_byte, quote_of, text_repr};
ghost use Rattle.py_strs.specs.QuotingForms.{spelled};

use crate::StrEnd;
use std::alloc::AllocError;
use ucd_category::{GeneralCategory, GeneralCategoryGroup};

/// Appends the repr of a text to `out`: the text in quotes, with escapes for what does not print.
///
/// The quotes are single ones, or double ones where the text holds `'` and no `"`. A backslash stands before a backslash
/// and before the quote; a line feed, a carriage return and a tab are `\n`, `\r` and `\t`; any other character of the
/// general categories Other and Separator, but for the space, is `\xHH`, `\uHHHH` or `\UHHHHHHHH`.
///
/// `Size` exactly where `out` would then hold more than `most` bytes. After an error `out` is as before.
pub fn repr_text(s: &str, most: u64, out: &mut String) -> Result<(), StrEnd>
    ensures { AppendsWithin most (text_repr s.now) (string_bytes out.old) (string_bytes out.new) result }
{
    let quote = quote_for(s);
    let Some(room) = room_behind(out, most) else {
        return Err(StrEnd::Size);
    };
    if !text_fits(s, quote, room) {
        return Err(StrEnd::Size);
    }
    let start = out.len();
    match push_text(s, quote, out) {
        Ok(()) => Ok(()),
        Err(_) => {
            out.truncate(start);
            Err(StrEnd::NoMemory)
        }
    }
}

/// Appends the repr of a byte string to `out`: a `b`, and the bytes in quotes like those of a text, with `\xHH` for each
/// other byte that is not from 20 to 7e.
///
/// `Size` exactly where `out` would then hold more than `most` bytes. After an error `out` is as before.
pub fn repr_bytes(b: &[u8], most: u64, out: &mut String) -> Result<(), StrEnd>
    ensures { AppendsWithin most (bytes_repr b.now) (string_bytes out.old) (string_bytes out.new) result }
{
    let quote = quote_for_bytes(b);
    let Some(room) = room_behind(out, most) else {
        return Err(StrEnd::Size);
    };
    if !bytes_fit(b, quote, room) {
        return Err(StrEnd::Size);
    }
    let start = out.len();
    match push_bytes(b, quote, out) {
        Ok(()) => Ok(()),
        Err(_) => {
            out.truncate(start);
            Err(StrEnd::NoMemory)
        }
    }
}

fn quote_for(s: &str) -> char
    ensures { result ≡ quote_of (chars s.now) }
{
    if has_char(s, '\'') && !has_char(s, '"') {
        '"'
    } else {
        '\''
    }
}

fn has_char(s: &str, wanted: char) -> bool
    ensures { result ≡ list_any (λ c. c == wanted) (chars s.now) }
{
    s.chars().any(|c| c == wanted)
}

fn quote_for_bytes(b: &[u8]) -> char
    ensures { result ≡ quote_of b.now }
{
    if b.contains(&b'\'') && !b.contains(&b'"') {
        '"'
    } else {
        '\''
    }
}

/// How many bytes may come behind `out`, where it may hold `most`; none where it holds more already.
fn room_behind(out: &String, most: u64) -> Option<u64>
    ensures { SomeIff result (length (string_bytes out.now) ≤ most) (most - length (string_bytes out.now)) }
{
    most.checked_sub(out.len() as u64)
}

/// Whether the text's repr has at most `room` bytes.
fn text_fits(s: &str, quote: char, room: u64) -> bool
    requires { quote ≡ quote_of (chars s.now) }
    ensures { IsTrue result ↔ (length (text_repr s.now) ≤ room) }
{
    let Some(mut left) = room.checked_sub(2) else {
        return false;
    };
    for c in s.chars() {
        let Some(less) = left.checked_sub(Form::of_char(c, quote).len()) else {
            return false;
        };
        left = less;
    }
    true
}

/// Whether the repr of these bytes has at most `room` bytes.
fn bytes_fit(b: &[u8], quote: char, room: u64) -> bool
    requires { quote ≡ quote_of b.now }
    ensures { IsTrue result ↔ (length (bytes_repr b.now) ≤ room) }
{
    let Some(mut left) = room.checked_sub(3) else {
        return false;
    };
    for byte in b {
        let Some(less) = left.checked_sub(Form::of_byte(*byte, quote).len()) else {
            return false;
        };
        left = less;
    }
    true
}

fn push_text(s: &str, quote: char, out: &mut String) -> Result<(), AllocError>
    requires { quote ≡ quote_of (chars s.now) }
    ensures written { OnOk result (string_bytes out.new ≡ string_bytes out.old ++ text_repr s.now) }
    ensures kept { take (length (string_bytes out.old)) (string_bytes out.new) ≡ string_bytes out.old }
{
    out.push(quote)?;
    for c in s.chars() {
        Form::of_char(c, quote).push(out)?;
    }
    out.push(quote)?;
    Ok(())
}

fn push_bytes(b: &[u8], quote: char, out: &mut String) -> Result<(), AllocError>
    requires { quote ≡ quote_of b.now }
    ensures written { OnOk result (string_bytes out.new ≡ string_bytes out.old ++ bytes_repr b.now) }
    ensures kept { take (length (string_bytes out.old)) (string_bytes out.new) ≡ string_bytes out.old }
{
    out.push('b')?;
    out.push(quote)?;
    for byte in b {
        Form::of_byte(*byte, quote).push(out)?;
    }
    out.push(quote)?;
    Ok(())
}

/// How one character stands between the quotes.
#[derive(Clone, Copy)]
enum Form {
    /// The character itself.
    Plain(char),
    /// A backslash and this character.
    Short(char),
    /// The escape of this code: `\x`, `\u` or `\U` and two, four or eight hex digits.
    Code(u32),
}

impl Form {
    fn of_char(c: char, quote: char) -> Form
        ensures { spelled result ≡ escape (is_hidden c) quote c }
    {
        Form::of(c, quote, is_hidden(c))
    }

    fn of_byte(b: u8, quote: char) -> Form
        ensures { spelled result ≡ escape (is_hidden_byte b) quote b }
    {
        Form::of(char::from(b), quote, b < 0x20 || 0x7e < b)
    }

    fn of(c: char, quote: char, hidden: bool) -> Form
        ensures { spelled result ≡ escape hidden quote c }
    {
        match c {
            '\n' => Form::Short('n'),
            '\r' => Form::Short('r'),
            '\t' => Form::Short('t'),
            '\\' => Form::Short('\\'),
            _ if c == quote => Form::Short(c),
            _ if hidden => Form::Code(c as u32),
            _ => Form::Plain(c),
        }
    }

    /// How many bytes it has in UTF-8.
    fn len(self) -> u64
        ensures { result ≡ length (encode_utf8_all (spelled self)) }
    {
        match self {
            Form::Plain(c) => c.len_utf8() as u64,
            Form::Short(c) => 1 + c.len_utf8() as u64,
            Form::Code(code) => {
                let (_, digits) = letter_and_digits(code);
                2 + digits as u64
            }
        }
    }

    fn push(self, out: &mut String) -> Result<(), AllocError>
        ensures written { OnOk result (string_bytes out.new ≡ string_bytes out.old ++ encode_utf8_all (spelled self)) }
        ensures kept { take (length (string_bytes out.old)) (string_bytes out.new) ≡ string_bytes out.old }
    {
        match self {
            Form::Plain(c) => out.push(c),
            Form::Short(c) => {
                out.push('\\')?;
                out.push(c)
            }
            Form::Code(code) => push_code(code, out),
        }
    }
}

/// Whether a character is of the general categories Other and Separator, and no space.
fn is_hidden(c: char) -> bool
    ensures { result ≡ is_hidden c }
{
    let category = GeneralCategory::for_char(c);
    c != ' '
        && (GeneralCategoryGroup::Other.contains(category)
            || GeneralCategoryGroup::Separator.contains(category))
}

fn push_code(code: u32, out: &mut String) -> Result<(), AllocError>
    ensures written { OnOk result (string_bytes out.new ≡ string_bytes out.old ++ encode_utf8_all (code_escape code)) }
    ensures kept { take (length (string_bytes out.old)) (string_bytes out.new) ≡ string_bytes out.old }
{
    let (letter, digits) = letter_and_digits(code);
    out.push('\\')?;
    out.push(letter)?;
    push_hex(digits, code, out)
}

/// The letter behind the backslash, and how many hex digits follow.
fn letter_and_digits(code: u32) -> (char, u32)
    ensures escape { code_escape code ≡ backslash ∷ result.0 ∷ hex result.1 code }
    ensures ascii { result.0 < 128 }
{
    match code {
        0..0x100 => ('x', 2),
        0x100..0x1_0000 => ('u', 4),
        _ => ('U', 8),
    }
}

/// Appends the last so many hex digits of a number, in lower case.
fn push_hex(digits: u32, n: u32, out: &mut String) -> Result<(), AllocError>
    ensures written { OnOk result (string_bytes out.new ≡ string_bytes out.old ++ encode_utf8_all (hex digits n)) }
    ensures kept { take (length (string_bytes out.old)) (string_bytes out.new) ≡ string_bytes out.old }
{
    if digits == 0 {
        return Ok(());
    }
    push_hex(digits - 1, n / 16, out)?;
    out.push(hex_digit(n % 16))?;
    Ok(())
}

fn hex_digit(digit: u32) -> char
    requires { digit < 16 }
    ensures { result ≡ digit_char digit }
{
    let digit = digit as u8;
    if digit < 10 {
        char::from(b'0' + digit)
    } else {
        char::from(b'a' - 10 + digit)
    }
}
