ghost use Rattle.std.specs.Prelude.{◌≡◌, ◌+◌, ◌-◌, ◌^◌, min, max, map, sum, fold, IfOk};
ghost use Rattle.rp_base.specs.Values.{weight_of, depth_of, plain_of, plains_of, tuple_of, OrNoMemory};

use crate::ends::{NoMemory, TupleEnd};
use crate::exceptions::Beyond;
use crate::identity::IdPack;
use crate::plain::Plain;
use sqlite_items::Items;
use std::alloc::Global;

/// The greatest weight of a value.
pub const HEAVIEST_VALUE: u64 = 1_048_576;

/// The greatest depth of a tuple.
pub const DEEPEST_TUPLE: u32 = 32;

/// A value of the language: a plain value, a tuple that holds a reference at some depth, a reference to a cell of
/// one's own side by its number, or a reference to a cell of the other side by its identity.
#[derive(Drop)]
pub enum Value {
    Plain(Plain),
    Tuple(Items<Value>),
    Own(u32),
    Proxy(IdPack),
}

impl Value {
    /// An equal value of its own.
    #[cycle(copies)]
    pub fn copy(&self, alloc: Global) -> Result<Value, NoMemory>
        ensures { IfOk result (λ v. v ≡ self.now) }
    {
        match self {
            Value::Plain(plain) => Ok(Value::Plain(plain.copy(alloc)?)),
            Value::Tuple(items) => Ok(Value::Tuple(copy_all(alloc, items.as_slice())?)),
            Value::Own(cell) => Ok(Value::Own(*cell)),
            Value::Proxy(id) => Ok(Value::Proxy(id.copy(alloc)?)),
        }
    }
}

#[cycle(copies)]
fn copy_all(alloc: Global, items: &[Value]) -> Result<Items<Value>, NoMemory>
    ensures { IfOk result (λ all. all ≡ items.now) }
{
    let mut all = Items::new(alloc);
    for item in items {
        all.push(item.copy(alloc)?)?;
    }
    Ok(all)
}

/// The weight, or the greatest `u64` where it is larger: a plain value as it weighs, 1 plus its items for a tuple, and 8
/// for a reference.
#[cycle(weights)]
#[tactic(auto, using(crate::specs::ValueLaws::value_weight_tuple), unfolding(crate::specs::Values::weight_of))]
pub fn weight(v: &Value) -> u64
    ensures { result ≡ min (weight_of v.now) (2 ^ 64 - 1) }
{
    match v {
        Value::Plain(plain) => plain.weight(),
        Value::Tuple(items) => weight_all(items.as_slice()),
        Value::Own(_) => 8,
        Value::Proxy(_) => 8,
    }
}

/// The weight of the tuple of these items.
#[cycle(weights)]
fn weight_all(items: &[Value]) -> u64
    ensures { result ≡ min (1 + sum (map weight_of items.now)) (2 ^ 64 - 1) }
{
    let mut sum = 1u64;
    for item in items {
        sum = sum.saturating_add(weight(item));
    }
    sum
}

/// How deep tuples stand in tuples, or the greatest `u32` where it is more: 1 for a tuple with no tuple in it, and 0 for
/// what is no tuple.
#[cycle(depths)]
#[tactic(auto, using(crate::specs::ValueLaws::value_depth_tuple), unfolding(crate::specs::Values::depth_of))]
pub fn depth(v: &Value) -> u32
    ensures { result ≡ min (depth_of v.now) (2 ^ 32 - 1) }
{
    match v {
        Value::Plain(plain) => plain.depth(),
        Value::Tuple(items) => depth_all(items.as_slice()),
        Value::Own(_) => 0,
        Value::Proxy(_) => 0,
    }
}

/// The depth of the tuple of these items.
#[cycle(depths)]
fn depth_all(items: &[Value]) -> u32
    ensures { result ≡ min (1 + fold max 0 (map depth_of items.now)) (2 ^ 32 - 1) }
{
    let mut deepest = 0u32;
    for item in items {
        deepest = deepest.max(depth(item));
    }
    deepest.saturating_add(1)
}

/// The tuple of these items: a plain value where no reference stands in them. `Beyond::Size` where its weight passes
/// `HEAVIEST_VALUE`, and else `Beyond::Depth` where its depth passes `DEEPEST_TUPLE`.
pub fn make_tuple(alloc: Global, items: Items<Value>) -> Result<Value, TupleEnd>
    ensures { OrNoMemory result (tuple_of items) }
{
    if weight_all(items.as_slice()) > HEAVIEST_VALUE {
        return Err(TupleEnd::Beyond(Beyond::Size));
    }
    if depth_all(items.as_slice()) > DEEPEST_TUPLE {
        return Err(TupleEnd::Beyond(Beyond::Depth));
    }
    match to_plains(alloc, items.as_slice())? {
        Some(plains) => Ok(Value::Plain(Plain::Tuple(plains))),
        None => Ok(Value::Tuple(items)),
    }
}

/// The plain value that it is, or None where a reference stands in it at any depth.
#[cycle(plains)]
#[tactic(auto, using(crate::specs::ValueLaws::plain_of_tuple), unfolding(crate::specs::Values::plain_of))]
pub fn to_plain(alloc: Global, v: &Value) -> Result<Option<Plain>, NoMemory>
    ensures { IfOk result (λ p. p ≡ plain_of v.now) }
{
    match v {
        Value::Plain(plain) => Ok(Some(plain.copy(alloc)?)),
        Value::Own(_) => Ok(None),
        Value::Proxy(_) => Ok(None),
        Value::Tuple(items) => match to_plains(alloc, items.as_slice())? {
            Some(plains) => Ok(Some(Plain::Tuple(plains))),
            None => Ok(None),
        },
    }
}

#[cycle(plains)]
fn to_plains(alloc: Global, items: &[Value]) -> Result<Option<Items<Plain>>, NoMemory>
    ensures { IfOk result (λ ps. ps ≡ plains_of items.now) }
{
    let mut all = Items::new(alloc);
    for item in items {
        match to_plain(alloc, item)? {
            Some(plain) => all.push(plain)?,
            None => return Ok(None),
        }
    }
    Ok(Some(all))
}
