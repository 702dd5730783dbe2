ghost use Rattle.std.specs.Prelude.{◌≡◌, ◌==◌, ◌||◌, ◌∷◌, [], nat_le, pos, unsigned_abs, chars, encode_utf8_all, Err, IfOk, false};
ghost use Rattle.std.specs.List.{list_any};
ghost use Rattle.language_rules.specs.AtOnce.{Computes, ComputesUnlessAsked};
ghost use Rattle.language_rules.specs.Conversions.{absolute, chr_of, character_of, code_of, gives_int, int_of, int_of_text, ord_of, refused_int};
ghost use Rattle.builtin_functions.specs.AtHand.{NoneOnlyWhere};

use crate::ends::{at_hand, fails};
use py_ints::{IntText, read_int};
use py_strs::{strip_text, text_at, text_len};
use rp_base::{Beyond, ExcKind, NoMemory, OpEnd, Plain, Text, Value};
use std::alloc::Global;

/// The greatest code of a character.
const GREATEST_CODE: i128 = 1_114_111;

/// An int of 128 bits.
fn int(n: i128) -> Result<Value, OpEnd>
    ensures { Computes (gives_int n) result }
{
    Ok(Value::Plain(Plain::Int(n)))
}

/// `int(v)`: of an int or bool the int, of a text the int that it spells with white space around it.
pub(crate) fn int_of(alloc: Global, value: &Value) -> Result<Option<Value>, OpEnd>
    ensures computes { ComputesUnlessAsked (int_of value.now) result }
    ensures asked { NoneOnlyWhere false result }
{
    at_hand(int_at_hand(alloc, value))
}

fn int_at_hand(alloc: Global, value: &Value) -> Result<Value, OpEnd>
    ensures { Computes (int_of value.now) result }
{
    match value {
        Value::Plain(Plain::Bool(b)) => int(i128::from(*b)),
        Value::Plain(Plain::Int(n)) => int(*n),
        Value::Plain(Plain::Text(text)) => int_of_text(alloc, text),
        _ => Err(OpEnd::Beyond(Beyond::Arguments)),
    }
}

fn int_of_text(alloc: Global, text: &Text) -> Result<Value, OpEnd>
    ensures { Computes (int_of_text text.now) result }
{
    match read_int(strip_text(text.as_str()).as_bytes()) {
        Ok(n) => Ok(Value::Plain(Plain::Int(n))),
        Err(IntText::Wide) => Err(OpEnd::Beyond(Beyond::Int)),
        Err(IntText::Shape) => Err(refused(alloc, text)),
    }
}

/// The end for a text that spells no int: an exception where Python refuses it too.
fn refused(alloc: Global, text: &Text) -> OpEnd
    ensures { Computes (refused_int text.now) (Err result) }
{
    if may_spell_otherwise(text.as_str().as_bytes()) {
        return OpEnd::Beyond(Beyond::IntText);
    }
    fails(alloc, ExcKind::ValueError, "not an integer text")
}

/// Whether a byte is no ASCII or `_`, which Python may read in an int's text.
fn may_spell_otherwise(bytes: &[u8]) -> bool
    ensures { result ≡ list_any (λ b. nat_le 128 b || (b == 95)) bytes.now }
{
    for byte in bytes {
        if *byte >= 128 || *byte == b'_' {
            return true;
        }
    }
    false
}

/// `abs(v)` of an int or bool.
pub(crate) fn absolute(value: &Value) -> Result<Option<Value>, OpEnd>
    ensures computes { ComputesUnlessAsked (absolute value.now) result }
    ensures asked { NoneOnlyWhere false result }
{
    at_hand(absolute_at_hand(value))
}

fn absolute_at_hand(value: &Value) -> Result<Value, OpEnd>
    ensures { Computes (absolute value.now) result }
{
    match value {
        Value::Plain(Plain::Bool(b)) => int(i128::from(*b)),
        Value::Plain(Plain::Int(n)) => size(*n),
        _ => Err(OpEnd::Beyond(Beyond::Arguments)),
    }
}

fn size(n: i128) -> Result<Value, OpEnd>
    ensures { Computes (gives_int (pos (unsigned_abs n))) result }
{
    match i128::try_from(n.unsigned_abs()) {
        Ok(size) => int(size),
        Err(_) => Err(OpEnd::Beyond(Beyond::Int)),
    }
}

/// `ord(v)` of a text of one character.
pub(crate) fn ord_of(value: &Value) -> Result<Option<Value>, OpEnd>
    ensures computes { ComputesUnlessAsked (ord_of value.now) result }
    ensures asked { NoneOnlyWhere false result }
{
    at_hand(ord_at_hand(value))
}

fn ord_at_hand(value: &Value) -> Result<Value, OpEnd>
    ensures { Computes (ord_of value.now) result }
{
    match value {
        Value::Plain(Plain::Text(text)) => code_of(text.as_str()),
        _ => Err(OpEnd::Beyond(Beyond::Arguments)),
    }
}

fn code_of(text: &str) -> Result<Value, OpEnd>
    ensures { Computes (code_of (chars text.now)) result }
{
    if text_len(text) != 1 {
        return Err(OpEnd::Beyond(Beyond::Arguments));
    }
    match text_at(text, 0) {
        Some(c) => int(i128::from(u32::from(c))),
        None => Err(OpEnd::Beyond(Beyond::Arguments)),
    }
}

/// `chr(v)` of an int.
pub(crate) fn chr_of(alloc: Global, value: &Value) -> Result<Option<Value>, OpEnd>
    ensures computes { ComputesUnlessAsked (chr_of value.now) result }
    ensures asked { NoneOnlyWhere false result }
{
    at_hand(chr_at_hand(alloc, value))
}

fn chr_at_hand(alloc: Global, value: &Value) -> Result<Value, OpEnd>
    ensures { Computes (chr_of value.now) result }
{
    match value {
        Value::Plain(Plain::Int(n)) => character_of(alloc, *n),
        _ => Err(OpEnd::Beyond(Beyond::Arguments)),
    }
}

fn character_of(alloc: Global, n: i128) -> Result<Value, OpEnd>
    ensures { Computes (character_of n) result }
{
    if n < 0 || n > GREATEST_CODE {
        return Err(fails(alloc, ExcKind::ValueError, "character out of range"));
    }
    match char::from_u32(n as u32) {
        Some(c) => Ok(Value::Plain(Plain::Text(character(alloc, c)?))),
        None => Err(OpEnd::Beyond(Beyond::Arguments)),
    }
}

/// The text of one character.
pub(crate) fn character(alloc: Global, c: char) -> Result<Text, NoMemory>
    ensures { IfOk result (λ t. t ≡ encode_utf8_all (c ∷ [])) }
{
    let mut out = String::new(alloc);
    out.push(c)?;
    Ok(Text::from_string(out))
}
