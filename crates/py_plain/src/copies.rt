ghost use Rattle.std.specs.Prelude.{◌≡◌, ◌+◌, ◌-◌, ◌*◌, ◌^◌, ◌++◌, min, map, sum, IfOk, OnOk};
ghost use Rattle.std.specs.List.{repeat};
ghost use Rattle.rp_base.specs.PlainValues.{plain_weight};
ghost use Rattle.py_plain.specs.Answers.{OrNoMemory};
ghost use Rattle.py_plain.specs.Arithmetic.{limited, counted, count_of};
ghost use Rattle.py_plain.specs.Judging.{judged, count};

use crate::ends::PlainEnd;
use rp_base::{Beyond, Blob, HEAVIEST_VALUE, NoMemory, Plain, Text};
use sqlite_items::Items;
use std::alloc::Global;

/// One text behind the other. `Beyond(Size)`, before it is made, where the result would be too heavy.
pub(crate) fn join_texts(alloc: Global, s: &Text, t: &Text) -> Result<Plain, PlainEnd>
    ensures { OrNoMemory (limited (Plain.Text (s.now ++ t.now))) result }
{
    judge(s.len() as u64, t.len() as u64)?;
    let mut text = String::from_str(alloc, s.as_str())?;
    text.push_str(t.as_str())?;
    Ok(Plain::Text(Text::from_string(text)))
}

/// The same for byte strings.
pub(crate) fn join_bytes(alloc: Global, s: &Blob, t: &Blob) -> Result<Plain, PlainEnd>
    ensures { OrNoMemory (limited (Plain.Bytes (s.now ++ t.now))) result }
{
    judge(s.len() as u64, t.len() as u64)?;
    let mut bytes = Vec::from_slice(alloc, s.as_slice())?;
    bytes.extend_from_slice(t.as_slice())?;
    Ok(Plain::Bytes(Blob::from_vec(bytes)))
}

/// The same for the items of tuples.
pub(crate) fn join_items(alloc: Global, xs: &[Plain], ys: &[Plain]) -> Result<Plain, PlainEnd>
    ensures { OrNoMemory (limited (Plain.Tuple (xs.now ++ ys.now))) result }
{
    judge(weight_of_items(xs), weight_of_items(ys))?;
    let mut items = Items::new(alloc);
    append(alloc, xs, &mut items)?;
    append(alloc, ys, &mut items)?;
    Ok(Plain::Tuple(items))
}

/// n copies of the text in a row, none where n is below 0. `Beyond(Int)` where n is outside 64 bits, and `Beyond(Size)`,
/// before it is made, where the result would be too heavy.
pub(crate) fn repeat_text(alloc: Global, n: i128, text: &Text) -> Result<Plain, PlainEnd>
    ensures { OrNoMemory (counted n (Plain.Text (repeat (count_of n) text.now))) result }
{
    let n = count(n)?;
    judge_copies(n, text.len() as u64)?;
    Ok(Plain::Text(Text::from_string(text.as_str().repeat(alloc, n)?)))
}

/// The same for a byte string.
pub(crate) fn repeat_bytes(alloc: Global, n: i128, bytes: &Blob) -> Result<Plain, PlainEnd>
    ensures { OrNoMemory (counted n (Plain.Bytes (repeat (count_of n) bytes.now))) result }
{
    let n = count(n)?;
    judge_copies(n, bytes.len() as u64)?;
    Ok(Plain::Bytes(Blob::from_vec(bytes.as_slice().repeat(alloc, n)?)))
}

/// The same for the items of a tuple.
pub(crate) fn repeat_items(alloc: Global, n: i128, items: &[Plain]) -> Result<Plain, PlainEnd>
    ensures { OrNoMemory (counted n (Plain.Tuple (repeat (count_of n) items.now))) result }
{
    let n = count(n)?;
    judge_copies(n, weight_of_items(items))?;
    Ok(Plain::Tuple(append_copies(alloc, n, items)?))
}

fn append_copies(alloc: Global, n: usize, items: &[Plain]) -> Result<Items<Plain>, NoMemory>
    ensures { IfOk result (λ all. all ≡ repeat n items.now) }
{
    let mut all = Items::new(alloc);
    if items.is_empty() {
        return Ok(all);
    }
    for _ in 0..n {
        append(alloc, items, &mut all)?;
    }
    Ok(all)
}

/// Copies of the items, behind those that are there.
fn append(alloc: Global, items: &[Plain], all: &mut Items<Plain>) -> Result<(), NoMemory>
    ensures { OnOk result (all.new ≡ all.old ++ items.now) }
{
    for item in items {
        all.push(item.copy(alloc)?)?;
    }
    Ok(())
}

/// The weight of the items, or the greatest `u64` where it is larger.
fn weight_of_items(items: &[Plain]) -> u64
    ensures { result ≡ min (sum (map plain_weight items.now)) (2 ^ 64 - 1) }
{
    let mut sum = 0u64;
    for item in items {
        sum = sum.saturating_add(item.weight());
    }
    sum
}

/// How many copies an int asks for: none where it is below 0. `Beyond(Int)` where it is outside 64 bits.
fn count(n: i128) -> Result<usize, PlainEnd>
    ensures { result ≡ count n }
{
    match i64::try_from(n) {
        Ok(n) => Ok(n.max(0) as usize),
        Err(_) => Err(PlainEnd::Beyond(Beyond::Int)),
    }
}

/// `Beyond(Size)` where a value with contents of these two weights would be too heavy.
fn judge(first: u64, second: u64) -> Result<(), PlainEnd>
    ensures { result ≡ judged (1 + (first + second)) }
{
    if first.saturating_add(second) >= HEAVIEST_VALUE {
        Err(PlainEnd::Beyond(Beyond::Size))
    } else {
        Ok(())
    }
}

/// `Beyond(Size)` where a value with n times contents of this weight would be too heavy.
fn judge_copies(n: usize, weight: u64) -> Result<(), PlainEnd>
    ensures { result ≡ judged (1 + n * weight) }
{
    if weight.saturating_mul(n as u64) >= HEAVIEST_VALUE {
        Err(PlainEnd::Beyond(Beyond::Size))
    } else {
        Ok(())
    }
}
