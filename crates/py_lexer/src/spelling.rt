ghost use Rattle.std.specs.Prelude.{◌≡◌, ◌≤◌, ◌<◌, length, drop, map};
ghost use Rattle.py_lexer.specs.Spellings.{sign_size, first_in_front, is_one_of, is_keyword, is_name_start, is_digit, is_name_byte, is_number_byte, name_size, number_size, comment_size, line_end_size, is_prefix, is_int, is_hex_int, hex_digit};

use py_ints::read_int;

/// The signs, the longer ones first.
const SIGNS: [&[u8]; 45] = [
    b"//=", b"**=", b"<<=", b">>=", b"...", b"+=", b"-=", b"*=", b"%=", b"&=", b"|=", b"^=", b"==",
    b"!=", b"<=", b">=", b"<<", b">>", b"//", b"**", b":=", b"->", b"=", b":", b"(", b")", b",",
    b".", b"[", b"]", b"<", b">", b"|", b"^", b"&", b"+", b"-", b"*", b"/", b"%", b"~", b"{", b"}",
    b";", b"@",
];

const KEYWORDS: [&[u8]; 35] = [
    b"False",
    b"None",
    b"True",
    b"and",
    b"as",
    b"assert",
    b"async",
    b"await",
    b"break",
    b"class",
    b"continue",
    b"def",
    b"del",
    b"elif",
    b"else",
    b"except",
    b"finally",
    b"for",
    b"from",
    b"global",
    b"if",
    b"import",
    b"in",
    b"is",
    b"lambda",
    b"nonlocal",
    b"not",
    b"or",
    b"pass",
    b"raise",
    b"return",
    b"try",
    b"while",
    b"with",
    b"yield",
];

/// The length of the longest sign in front, or 0.
#[tactic(auto, unfolding(crate::specs::Spellings::sign_size))]
pub(crate) fn sign_size(rest: &[u8]) -> usize
    ensures value { result ≡ sign_size rest.now }
    ensures within { result ≤ length rest.now }
{
    first_in_front(&SIGNS, rest)
}

/// The length of the first of the words that stands in front, or 0.
fn first_in_front(words: &[&[u8]], rest: &[u8]) -> usize
    ensures value { result ≡ first_in_front (map (λ w. w.now) words.now) rest.now }
    ensures within { result ≤ length rest.now }
{
    for word in words {
        if rest.starts_with(word) {
            return word.len();
        }
    }
    0
}

/// Whether the name is a keyword of Python.
#[tactic(auto, unfolding(crate::specs::Spellings::is_keyword))]
pub(crate) fn is_keyword(name: &[u8]) -> bool
    ensures { result ≡ is_keyword name.now }
{
    is_one_of(&KEYWORDS, name)
}

fn is_one_of(words: &[&[u8]], name: &[u8]) -> bool
    ensures { result ≡ is_one_of (map (λ w. w.now) words.now) name.now }
{
    for word in words {
        if name == *word {
            return true;
        }
    }
    false
}

/// Whether the name before a quote makes it a string of a form that is left out.
#[tactic(auto, unfolding(crate::specs::Spellings::is_prefix))]
pub(crate) fn is_prefix(name: &[u8]) -> bool
    ensures { result ≡ is_prefix name.now }
{
    match name {
        [b'b' | b'B' | b'f' | b'F' | b'r' | b'R' | b'u' | b'U'] => true,
        [b'r' | b'R', b'b' | b'B' | b'f' | b'F'] => true,
        [b'b' | b'B' | b'f' | b'F', b'r' | b'R'] => true,
        _ => false,
    }
}

pub(crate) fn is_name_start(byte: u8) -> bool
    ensures { result ≡ is_name_start byte }
{
    matches!(byte, b'a'..=b'z' | b'A'..=b'Z' | b'_')
}

pub(crate) fn is_digit(byte: u8) -> bool
    ensures { result ≡ is_digit byte }
{
    matches!(byte, b'0'..=b'9')
}

fn is_name_byte(byte: u8) -> bool
    ensures { result ≡ is_name_byte byte }
{
    is_name_start(byte) || is_digit(byte)
}

fn is_number_byte(byte: u8) -> bool
    ensures { result ≡ is_number_byte byte }
{
    is_name_byte(byte) || byte == b'.'
}

/// How many letters, digits and `_` stand in front.
pub(crate) fn name_size(rest: &[u8]) -> usize
    ensures value { result ≡ name_size rest.now }
    ensures within { result ≤ length rest.now }
{
    let mut size = 0;
    for byte in rest {
        if !is_name_byte(*byte) {
            return size;
        }
        size += 1;
    }
    size
}

/// How many letters, digits, `_` and `.` stand in front.
pub(crate) fn number_size(rest: &[u8]) -> usize
    ensures value { result ≡ number_size rest.now }
    ensures within { result ≤ length rest.now }
{
    let mut size = 0;
    for byte in rest {
        if !is_number_byte(*byte) {
            return size;
        }
        size += 1;
    }
    size
}

/// How many bytes stand before the end of the line.
#[tactic(auto, unfolding(crate::specs::Spellings::comment_size))]
pub(crate) fn comment_size(rest: &[u8]) -> usize
    ensures value { result ≡ comment_size rest.now }
    ensures within { result ≤ length rest.now }
{
    let mut size = 0;
    'bytes: while size < rest.len() && line_end_size(&rest[size..]) == 0 {
        size += 1;
    }
    size
}

/// The length of the line end in front, or 0.
pub(crate) fn line_end_size(rest: &[u8]) -> usize
    ensures value { result ≡ line_end_size rest.now }
    ensures within { result ≤ length rest.now }
{
    match rest {
        [b'\n', ..] => 1,
        [b'\r', b'\n', ..] => 2,
        _ => 0,
    }
}

/// Whether the text spells an int of at most 2^127 - 1: `0`, digits without a 0 in front, or `0x` and hex digits.
#[tactic(auto, unfolding(crate::specs::Spellings::is_int))]
pub(crate) fn is_int(text: &[u8]) -> bool
    ensures { result ≡ is_int text.now }
{
    match text {
        [b'0'] => true,
        [b'0', b'x', digits @ ..] => is_hex_int(digits),
        [b'1'..=b'9', ..] => read_int(text).is_ok(),
        _ => false,
    }
}

#[tactic(auto, unfolding(crate::specs::Spellings::is_hex_int))]
fn is_hex_int(digits: &[u8]) -> bool
    ensures { result ≡ is_hex_int digits.now }
{
    if digits.is_empty() {
        return false;
    }
    let mut number = 0u128;
    for digit in digits {
        let Some(value) = hex_digit(*digit) else {
            return false;
        };
        number = number.saturating_mul(16).saturating_add(u128::from(value));
    }
    number < 1 << 127
}

/// What a hex digit counts.
pub(crate) fn hex_digit(byte: u8) -> Option<u8>
    ensures { result ≡ hex_digit byte }
{
    match byte {
        b'0'..=b'9' => Some(byte - b'0'),
        b'a'..=b'f' => Some(byte - b'a' + 10),
        b'A'..=b'F' => Some(byte - b'A' + 10),
        _ => None,
    }
}
