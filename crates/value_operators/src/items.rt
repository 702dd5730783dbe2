ghost use Rattle.std.specs.Prelude.{◌≡◌, ◌<◌, ◌∷◌, [], pos, length, map, slice_get, codes, encode_utf8_all, option_map, option_and_then, IfOk, IfSome};
ghost use Rattle.rp_base.specs.declared.plain.Plain.TheVariants as plain;
ghost use Rattle.rp_base.specs.declared.value.Value.TheVariants as value;
ghost use Rattle.language_rules.specs.AtOnce.{Computes, ComputesUnlessAsked};
ghost use Rattle.language_rules.specs.Draining.{characters_of, ints_of_bytes, items_at_hand};
ghost use Rattle.language_rules.specs.Going.{text};
ghost use Rattle.language_rules.specs.Kinds.{is_reference};
ghost use Rattle.language_rules.specs.PlainItems.{gives_item, gives_item_of, item_of, item_within, sequence_name};
ghost use Rattle.value_operators.specs.Answering.{AsksOnly};

use crate::ends::fails;
use crate::positions::{as_int, place_among};
use language_rules::positions_are_places;
use py_strs::text_at;
use rp_base::{ExcKind, NoMemory, OpEnd, Plain, Text, Value};
use std::alloc::Global;

/// `receiver[key]`, or None where an object has to be asked: where the receiver is a reference.
#[tactic(auto, using(language_rules::specs::StepLaws::items_of_a_tuple), unfolding(language_rules::specs::PlainItems::item_of))]
pub fn item(alloc: Global, receiver: &Value, key: &Value) -> Result<Option<Value>, OpEnd>
    ensures computes { ComputesUnlessAsked (item_of receiver.now key.now) result }
    ensures asked { AsksOnly (is_reference receiver.now) result }
{
    match receiver {
        Value::Plain(plain) => Ok(Some(item_of_plain(alloc, plain, key)?)),
        Value::Tuple(items) => Ok(Some(item_of_values(alloc, items.as_slice(), key)?)),
        Value::Own(_) => Ok(None),
        Value::Proxy(_) => Ok(None),
    }
}

fn item_of_plain(alloc: Global, receiver: &Plain, key: &Value) -> Result<Value, OpEnd>
    ensures { Computes (item_within (sequence_name (value.Plain receiver.now)) key.now (items_at_hand (value.Plain receiver.now))) result }
{
    match receiver {
        Plain::Text(text) => item_of_text(alloc, text.as_str(), key),
        Plain::Bytes(bytes) => item_of_bytes(alloc, bytes.as_slice(), key),
        Plain::Tuple(items) => item_of_plains(alloc, items.as_slice(), key),
        _ => Err(fails(alloc, ExcKind::TypeError, "no items")),
    }
}

fn item_of_text(alloc: Global, text: &str, key: &Value) -> Result<Value, OpEnd>
    ensures { Computes (gives_item_of (codes "text") (characters_of text.now) key.now) result }
{
    let Some(position) = as_int(key) else {
        return Err(fails(alloc, ExcKind::TypeError, "index is no integer"));
    };
    positions_are_places();
    give_letter(alloc, text_at(text, position))
}

/// The text of the character, where there is one.
fn give_letter(alloc: Global, letter: Option<char>) -> Result<Value, OpEnd>
    ensures { Computes (gives_item (codes "text") (option_map (λ c. text (encode_utf8_all (c ∷ []))) letter)) result }
{
    let Some(letter) = letter else {
        return Err(fails(alloc, ExcKind::IndexError, "text index out of range"));
    };
    Ok(character(alloc, letter)?)
}

fn character(alloc: Global, letter: char) -> Result<Value, NoMemory>
    ensures { IfOk result (λ v. v ≡ text (encode_utf8_all (letter ∷ []))) }
{
    let mut text = String::new(alloc);
    text.push(letter)?;
    Ok(Value::Plain(Plain::Text(Text::from_string(text))))
}

fn item_of_bytes(alloc: Global, bytes: &[u8], key: &Value) -> Result<Value, OpEnd>
    ensures { Computes (gives_item_of (codes "bytes") (ints_of_bytes bytes.now) key.now) result }
{
    let Some(position) = as_int(key) else {
        return Err(fails(alloc, ExcKind::TypeError, "index is no integer"));
    };
    give_byte(alloc, bytes, place_among(bytes.len(), position))
}

/// The int of the byte at the place, where there is one.
fn give_byte(alloc: Global, bytes: &[u8], place: Option<usize>) -> Result<Value, OpEnd>
    requires { IfSome place (λ at. at < length bytes.now) }
    ensures { Computes (gives_item (codes "bytes") (option_map (λ b. value.Plain (plain.Int (pos b))) (option_and_then (slice_get bytes.now) place))) result }
{
    let Some(at) = place else {
        return Err(fails(alloc, ExcKind::IndexError, "bytes index out of range"));
    };
    Ok(Value::Plain(Plain::Int(i128::from(bytes[at]))))
}

fn item_of_plains(alloc: Global, items: &[Plain], key: &Value) -> Result<Value, OpEnd>
    ensures { Computes (gives_item_of (codes "tuple") (map (λ p. value.Plain p) items.now) key.now) result }
{
    let Some(position) = as_int(key) else {
        return Err(fails(alloc, ExcKind::TypeError, "index is no integer"));
    };
    give_plain(alloc, items, place_among(items.len(), position))
}

/// The item at the place, where there is one.
fn give_plain(alloc: Global, items: &[Plain], place: Option<usize>) -> Result<Value, OpEnd>
    requires { IfSome place (λ at. at < length items.now) }
    ensures { Computes (gives_item (codes "tuple") (option_map (λ p. value.Plain p) (option_and_then (slice_get items.now) place))) result }
{
    let Some(at) = place else {
        return Err(fails(alloc, ExcKind::IndexError, "tuple index out of range"));
    };
    Ok(Value::Plain(items[at].copy(alloc)?))
}

fn item_of_values(alloc: Global, items: &[Value], key: &Value) -> Result<Value, OpEnd>
    ensures { Computes (gives_item_of (codes "tuple") items.now key.now) result }
{
    let Some(position) = as_int(key) else {
        return Err(fails(alloc, ExcKind::TypeError, "index is no integer"));
    };
    let Some(at) = place_among(items.len(), position) else {
        return Err(fails(alloc, ExcKind::IndexError, "tuple index out of range"));
    };
    Ok(items[at].copy(alloc)?)
}
