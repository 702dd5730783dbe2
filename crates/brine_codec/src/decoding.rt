ghost use Rattle.std.specs.Prelude.{◌≡◌, ◌≤◌, ◌++◌, List, ℕ, IsTrue, IfOk, length};
ghost use Rattle.std.specs.Result.{IsErrOf};
ghost use Rattle.rp_base.specs.PlainValues.{plain_depth};
ghost use Rattle.brine_codec.specs.Spelling.{spelling, spellable};
ghost use Rattle.brine_codec.specs.Reading.{Gives, Answers, size_at, bytes_at, int_at, text_at, items_at, tuple_within, value_at, decoded};

use crate::ends::{BrineFault, BrineKind, DecodeEnd, Stop};
use crate::int_text::int_of;
use crate::tag::{Size, Tag, tag_of};
use rp_base::{Blob, Plain, Text};
use sqlite_items::Items;
use std::alloc::Global;

/// How deep tuples may stand in tuples.
const LEVELS: u32 = 100;

/// The least length or count that stands in a byte behind its tag.
const LEAST: u8 = 5;

/// The input ends, and more is needed.
const CUT: Stop = Stop::Fault(0, BrineKind::B3);

/// The value whose spelling the bytes are, with tuples at most 100 deep, or else the first fault from left to right.
/// Time is linear in the bytes, and no length or count takes memory before its bytes are there.
pub fn decode(alloc: Global, bytes: &[u8]) -> Result<Plain, DecodeEnd>
    ensures found { IfOk result (λ v. IsTrue (spellable v) × (plain_depth v ≤ 100) × (bytes.now ≡ spelling v)) }
    ensures refused { (f : BrineFault) → IsErrOf result (DecodeEnd.Fault f) → (v : Plain) → IsTrue (spellable v) → plain_depth v ≤ 100 → bytes.now ≡ spelling v → ⊥ }
    ensures first { Answers result (decoded bytes.now) }
{
    let (value, rest) = match read_value(alloc, bytes, LEVELS) {
        Ok(read) => read,
        Err(stop) => return Err(stop.in_input(bytes.len())),
    };
    if !rest.is_empty() {
        return Err(Stop::Fault(rest.len(), BrineKind::B9).in_input(bytes.len()));
    }
    Ok(value)
}

/// The value at the front with tuples at most so deep, and the bytes after it.
#[cycle(reading)]
#[tactic(auto, unfolding(crate::specs::Reading::value_in))]
fn read_value(alloc: Global, bytes: &[u8], levels: u32) -> Result<(Plain, &[u8]), Stop>
    ensures { Gives (λ x. (x.0, x.1.now)) result (value_at levels bytes.now) }
{
    let Some((byte, rest)) = bytes.split_first() else {
        return Err(CUT);
    };
    let left = bytes.len();
    match tag_of(*byte) {
        Tag::None => Ok((Plain::None, rest)),
        Tag::Bool(truth) => Ok((Plain::Bool(truth), rest)),
        Tag::NotImpl => Ok((Plain::NotImpl, rest)),
        Tag::Ellipsis => Ok((Plain::Ellipsis, rest)),
        Tag::Int(n) => Ok((Plain::Int(n), rest)),
        Tag::IntText(size) => read_int_text(size, left, rest),
        Tag::Text => read_text(alloc, left, rest),
        Tag::Bytes(size) => {
            let (bytes, rest) = read_bytes(LEAST, size, left, rest)?;
            let bytes = Vec::from_slice(alloc, bytes)?;
            Ok((Plain::Bytes(Blob::from_vec(bytes)), rest))
        }
        Tag::Tuple(size) => read_tuple(alloc, size, left, rest, levels),
        Tag::LeftOut => Err(Stop::Fault(left, BrineKind::B2(*byte))),
        Tag::Unknown => Err(Stop::Fault(left, BrineKind::B1)),
    }
}

/// The tuple behind its tag, which counts as one of the levels.
#[cycle(reading)]
fn read_tuple(
    alloc: Global,
    size: Size,
    left: usize,
    bytes: &[u8],
    levels: u32,
) -> Result<(Plain, &[u8]), Stop>
    ensures { Gives (λ x. (x.0, x.1.now)) result (tuple_within levels size left bytes.now) }
{
    if levels == 0 {
        return Err(Stop::Fault(left, BrineKind::B8));
    }
    let (count, rest) = read_size(LEAST, size, left, bytes)?;
    let (items, rest) = read_items(alloc, count, rest, levels - 1)?;
    Ok((Plain::Tuple(items), rest))
}

/// So many values one after the other, with tuples at most so deep.
#[cycle(reading)]
fn read_items(
    alloc: Global,
    count: usize,
    bytes: &[u8],
    levels: u32,
) -> Result<(Items<Plain>, &[u8]), Stop>
    ensures { Gives (λ x. (x.0, x.1.now)) result (items_at (value_at levels) count bytes.now) }
{
    let mut items = Items::new(alloc);
    let mut rest = bytes;
    for _ in 0..count {
        let (item, after) = read_value(alloc, rest, levels)?;
        items.push(item)?;
        rest = after;
    }
    Ok((items, rest))
}

#[tactic(auto, unfolding(crate::specs::Reading::int_at))]
fn read_int_text(size: Size, left: usize, bytes: &[u8]) -> Result<(Plain, &[u8]), Stop>
    ensures { Gives (λ x. (x.0, x.1.now)) result (int_at size left bytes.now) }
{
    let (text, rest) = read_bytes(0, size, left, bytes)?;
    match int_of(text) {
        Ok(n) => Ok((Plain::Int(n), rest)),
        Err(what) => Err(Stop::Fault(left, what)),
    }
}

/// The text behind its tag, with the number of bytes that are left at the tag.
#[tactic(auto, unfolding(crate::specs::Reading::text_at))]
fn read_text(alloc: Global, left: usize, bytes: &[u8]) -> Result<(Plain, &[u8]), Stop>
    ensures { Gives (λ x. (x.0, x.1.now)) result (text_at left bytes.now) }
{
    let Some((byte, rest)) = bytes.split_first() else {
        return Err(CUT);
    };
    let Tag::Bytes(size) = tag_of(*byte) else {
        return Err(Stop::Fault(left, BrineKind::B7));
    };
    let (text, rest) = read_bytes(LEAST, size, bytes.len(), rest)?;
    let Ok(text) = str::from_utf8(text) else {
        return Err(Stop::Fault(left, BrineKind::B7));
    };
    Ok((Plain::Text(Text::from_str(alloc, text)?), rest))
}

#[tactic(auto, unfolding(crate::specs::Reading::bytes_at))]
fn read_bytes(least: u8, size: Size, left: usize, bytes: &[u8]) -> Result<(&[u8], &[u8]), Stop>
    ensures { Gives (λ x. (x.0.now, x.1.now)) result (bytes_at least size left bytes.now) }
{
    let (length, rest) = read_size(least, size, left, bytes)?;
    if rest.len() < length {
        return Err(CUT);
    }
    Ok(rest.split_at(length))
}

/// The length or the count whose tag has so many bytes left, least or more where it stands in one byte.
#[tactic(auto, unfolding(crate::specs::Reading::size_at))]
fn read_size(least: u8, size: Size, left: usize, bytes: &[u8]) -> Result<(usize, &[u8]), Stop>
    ensures { Gives (λ x. (x.0, x.1.now)) result (size_at least size left bytes.now) }
{
    match size {
        Size::Of(n) => Ok((usize::from(n), bytes)),
        Size::Byte => match bytes {
            [n, ..] if *n < least => Err(Stop::Fault(left, BrineKind::B4)),
            [n, rest @ ..] => Ok((usize::from(*n), rest)),
            [] => Err(CUT),
        },
        Size::FourBytes => match bytes {
            [a, b, c, d, rest @ ..] => {
                let n = u32::from_be_bytes([*a, *b, *c, *d]);
                if n < 256 {
                    return Err(Stop::Fault(left, BrineKind::B4));
                }
                Ok((n as usize, rest))
            }
            _ => Err(CUT),
        },
    }
}
