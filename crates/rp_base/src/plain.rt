ghost use Rattle.std.specs.Prelude.{◌≡◌, ◌+◌, ◌-◌, ◌^◌, min, max, map, sum, fold, IfOk};
ghost use Rattle.rp_base.specs.PlainValues.{plain_weight, plain_depth, equal_to, equal_items};

use crate::ends::NoMemory;
use crate::text::{Blob, Text};
use sqlite_items::Items;
use std::alloc::Global;

/// The values that cross a wire by value: Python's `None`, bools, ints of 128 bits, texts, bytes, `NotImplemented`, `...`
/// and tuples of these.
#[derive(Drop)]
pub enum Plain {
    None,
    Bool(bool),
    Int(i128),
    Text(Text),
    Bytes(Blob),
    NotImpl,
    Ellipsis,
    Tuple(Items<Plain>),
}

impl Plain {
    /// The weight, or the greatest `u64` where it is larger: 2 for an int, 1 plus its bytes for a text or a byte
    /// string, 1 plus its items for a tuple, and 1 for each other value.
    #[cycle(weights)]
    #[tactic(auto, using(crate::specs::PlainLaws::weight_tuple), unfolding(crate::specs::PlainValues::plain_weight))]
    pub fn weight(&self) -> u64
        ensures { result ≡ min (plain_weight self.now) (2 ^ 64 - 1) }
    {
        match self {
            Plain::Int(_) => 2,
            Plain::Text(text) => (text.len() as u64).saturating_add(1),
            Plain::Bytes(bytes) => (bytes.len() as u64).saturating_add(1),
            Plain::Tuple(items) => weight_all(items.as_slice()),
            _ => 1,
        }
    }

    /// How deep tuples stand in tuples, or the greatest `u32` where it is more: 1 for a tuple with no tuple in it, and 0
    /// for what is no tuple.
    #[cycle(depths)]
    #[tactic(auto, using(crate::specs::PlainLaws::depth_tuple), unfolding(crate::specs::PlainValues::plain_depth))]
    pub fn depth(&self) -> u32
        ensures { result ≡ min (plain_depth self.now) (2 ^ 32 - 1) }
    {
        match self {
            Plain::Tuple(items) => depth_all(items.as_slice()),
            _ => 0,
        }
    }

    /// An equal value of its own.
    #[cycle(copies)]
    pub fn copy(&self, alloc: Global) -> Result<Plain, NoMemory>
        ensures { IfOk result (λ v. v ≡ self.now) }
    {
        match self {
            Plain::None => Ok(Plain::None),
            Plain::Bool(b) => Ok(Plain::Bool(*b)),
            Plain::Int(n) => Ok(Plain::Int(*n)),
            Plain::Text(text) => Ok(Plain::Text(text.copy(alloc)?)),
            Plain::Bytes(bytes) => Ok(Plain::Bytes(bytes.copy(alloc)?)),
            Plain::NotImpl => Ok(Plain::NotImpl),
            Plain::Ellipsis => Ok(Plain::Ellipsis),
            Plain::Tuple(items) => Ok(Plain::Tuple(copy_all(alloc, items.as_slice())?)),
        }
    }
}

#[cycle(copies)]
pub(crate) fn copy_all(alloc: Global, items: &[Plain]) -> Result<Items<Plain>, NoMemory>
    ensures { IfOk result (λ all. all ≡ items.now) }
{
    let mut all = Items::new(alloc);
    for item in items {
        all.push(item.copy(alloc)?)?;
    }
    Ok(all)
}

#[cycle(weights)]
fn weight_all(items: &[Plain]) -> u64
    ensures { result ≡ min (1 + sum (map plain_weight items.now)) (2 ^ 64 - 1) }
{
    let mut sum = 1u64;
    for item in items {
        sum = sum.saturating_add(item.weight());
    }
    sum
}

#[cycle(depths)]
fn depth_all(items: &[Plain]) -> u32
    ensures { result ≡ min (1 + fold max 0 (map plain_depth items.now)) (2 ^ 32 - 1) }
{
    let mut deepest = 0u32;
    for item in items {
        deepest = deepest.max(item.depth());
    }
    deepest.saturating_add(1)
}

/// Python's `==` on plain values. A bool equals the int that it stands for, texts and byte strings compare by their
/// bytes, tuples by their items, and values of two other kinds differ.
#[cycle(equals)]
#[tactic(auto, using(crate::specs::PlainLaws::equal_tuples), unfolding(crate::specs::PlainValues::equal_to))]
pub fn equal(a: &Plain, b: &Plain) -> bool
    ensures { result ≡ equal_to a.now b.now }
{
    match (a, b) {
        (Plain::None, Plain::None) => true,
        (Plain::Bool(x), Plain::Bool(y)) => *x == *y,
        (Plain::Bool(x), Plain::Int(y)) => i128::from(*x) == *y,
        (Plain::Int(x), Plain::Bool(y)) => *x == i128::from(*y),
        (Plain::Int(x), Plain::Int(y)) => *x == *y,
        (Plain::Text(x), Plain::Text(y)) => x.as_str() == y.as_str(),
        (Plain::Bytes(x), Plain::Bytes(y)) => x.as_slice() == y.as_slice(),
        (Plain::NotImpl, Plain::NotImpl) => true,
        (Plain::Ellipsis, Plain::Ellipsis) => true,
        (Plain::Tuple(xs), Plain::Tuple(ys)) => equal_all(xs.as_slice(), ys.as_slice()),
        _ => false,
    }
}

#[cycle(equals)]
fn equal_all(xs: &[Plain], ys: &[Plain]) -> bool
    ensures { result ≡ equal_items xs.now ys.now }
{
    if xs.len() != ys.len() {
        return false;
    }
    for i in 0..xs.len() {
        if !equal(&xs[i], &ys[i]) {
            return false;
        }
    }
    true
}
