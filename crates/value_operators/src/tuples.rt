ghost use Rattle.std.specs.Prelude.{◌≡◌, ◌+◌, ◌-◌, ◌*◌, ◌^◌, ◌++◌, min, map, sum, nat_lt, false, IfOk, OnOk};
ghost use Rattle.std.specs.List.{repeat};
ghost use Rattle.rp_base.specs.declared.value.Value.TheVariants as value;
ghost use Rattle.rp_base.specs.Values.{weight_of, tuple_of, heaviest_value};
ghost use Rattle.language_rules.specs.Answers.{tuple_answers};
ghost use Rattle.language_rules.specs.AtOnce.{Computes, ComputesUnlessAsked};
ghost use Rattle.language_rules.specs.Comparing.{tuple_items};
ghost use Rattle.language_rules.specs.Operators.{is_format, left_out, tuple_copies, tuple_product, tuple_rule, tuples_sum};
ghost use Rattle.value_operators.specs.Answering.{AsksOnly};
ghost use Rattle.value_operators.specs.Counting.{copies_rule, count_in, limit_given};

use crate::ends::unsupported;
use crate::positions::as_int;
use rp_base::{
    Beyond, BinaryOp, HEAVIEST_VALUE, NoMemory, OpEnd, Plain, TupleEnd, Value, make_tuple, weight,
};
use sqlite_items::Items;
use std::alloc::Global;

/// A binary operator on two values that are no references, of which one is a tuple that holds one.
pub(crate) fn tuple_operator(
    alloc: Global,
    op: BinaryOp,
    left: &Value,
    right: &Value,
) -> Result<Option<Value>, OpEnd>
    ensures computes { ComputesUnlessAsked (tuple_rule op left.now right.now) result }
    ensures there { AsksOnly false result }
{
    match op {
        BinaryOp::Add => Ok(Some(sum(alloc, left, right)?)),
        BinaryOp::Mul => Ok(Some(product(alloc, left, right)?)),
        BinaryOp::Mod => Err(format(alloc, left)),
        _ => Err(unsupported(alloc)),
    }
}

/// `%` would put values into a text or a byte string.
fn format(alloc: Global, left: &Value) -> OpEnd
    ensures { Computes (left_out (is_format left.now)) (Err result) }
{
    match left {
        Value::Plain(Plain::Text(_)) => OpEnd::Beyond(Beyond::Operator),
        Value::Plain(Plain::Bytes(_)) => OpEnd::Beyond(Beyond::Operator),
        _ => unsupported(alloc),
    }
}

/// One tuple behind the other.
fn sum(alloc: Global, left: &Value, right: &Value) -> Result<Value, OpEnd>
    ensures { Computes (tuples_sum (tuple_items left.now) (tuple_items right.now)) result }
{
    let Some(mut items) = items_of(alloc, left)? else {
        return Err(unsupported(alloc));
    };
    let Some(more) = items_of(alloc, right)? else {
        return Err(unsupported(alloc));
    };
    append(&mut items, more)?;
    make(alloc, items)
}

fn append(items: &mut Items<Value>, more: Items<Value>) -> Result<(), NoMemory>
    ensures { OnOk result (items.new ≡ items.old ++ more) }
{
    Ok(items.append(more)?)
}

/// Copies of a tuple, with the int on either side.
fn product(alloc: Global, left: &Value, right: &Value) -> Result<Value, OpEnd>
    ensures { Computes (tuple_product left.now right.now) result }
{
    let count = as_int(left);
    match count {
        Some(_) => copies_of(alloc, right, count),
        None => copies_of(alloc, left, as_int(right)),
    }
}

fn copies_of(alloc: Global, tuple: &Value, count: Option<i128>) -> Result<Value, OpEnd>
    ensures { Computes (tuple_copies (tuple_items tuple.now) count) result }
{
    let Some(items) = items_of(alloc, tuple)? else {
        return Err(unsupported(alloc));
    };
    let Some(n) = count else {
        return Err(unsupported(alloc));
    };
    copies(alloc, items.as_slice(), n)
}

/// `Beyond(Int)` where the int is outside 64 bits.
fn copies(alloc: Global, items: &[Value], n: i128) -> Result<Value, OpEnd>
    ensures { Computes (copies_rule items.now n) result }
{
    match count(n) {
        Some(count) => repeated(alloc, items, count),
        None => Err(OpEnd::Beyond(Beyond::Int)),
    }
}

/// How many copies an int asks for: none where it is below 0.
fn count(n: i128) -> Option<usize>
    ensures { result ≡ count_in n }
{
    match i64::try_from(n) {
        Ok(n) => Some(n.max(0) as usize),
        Err(_) => None,
    }
}

/// The tuple of n times these items. `Beyond(Size)`, before it is made, where it would be too heavy.
fn repeated(alloc: Global, items: &[Value], n: usize) -> Result<Value, OpEnd>
    ensures { Computes (tuple_answers (tuple_of (repeat n items.now))) result }
{
    if is_too_heavy(weight_of_items(items), n) {
        return Err(OpEnd::Beyond(Beyond::Size));
    }
    make(alloc, append_copies(alloc, items, n)?)
}

fn is_too_heavy(weight: u64, n: usize) -> bool
    ensures { result ≡ nat_lt heaviest_value (1 + n * weight) }
{
    weight.saturating_mul(n as u64) >= HEAVIEST_VALUE
}

/// The weight of the items, or the greatest `u64` where it is larger.
fn weight_of_items(items: &[Value]) -> u64
    ensures { result ≡ min (sum (map weight_of items.now)) (2 ^ 64 - 1) }
{
    let mut sum = 0u64;
    for item in items {
        sum = sum.saturating_add(weight(item));
    }
    sum
}

fn append_copies(alloc: Global, items: &[Value], n: usize) -> Result<Items<Value>, NoMemory>
    ensures { IfOk result (λ all. all ≡ repeat n items.now) }
{
    let mut all = Items::new(alloc);
    if items.is_empty() {
        return Ok(all);
    }
    for _ in 0..n {
        append_items(alloc, items, &mut all)?;
    }
    Ok(all)
}

/// Copies of the items, behind those that are there.
fn append_items(alloc: Global, items: &[Value], all: &mut Items<Value>) -> Result<(), NoMemory>
    ensures { OnOk result (all.new ≡ all.old ++ items.now) }
{
    for item in items {
        all.push(item.copy(alloc)?)?;
    }
    Ok(())
}

/// The tuple of the items, where it is within the limits.
fn make(alloc: Global, items: Items<Value>) -> Result<Value, OpEnd>
    ensures { Computes (tuple_answers (tuple_of items)) result }
{
    match make_tuple(alloc, items) {
        Ok(tuple) => Ok(tuple),
        Err(end) => Err(limit(end)),
    }
}

fn limit(end: TupleEnd) -> OpEnd
    ensures { result ≡ limit_given end }
{
    match end {
        TupleEnd::Beyond(beyond) => OpEnd::Beyond(beyond),
        TupleEnd::NoMemory => OpEnd::NoMemory,
    }
}

/// The items of a tuple, plain or not.
#[tactic(auto, using(language_rules::specs::StepLaws::items_of_a_tuple, language_rules::specs::StepLaws::items_of_a_plain_tuple))]
fn items_of(alloc: Global, value: &Value) -> Result<Option<Items<Value>>, NoMemory>
    ensures { IfOk result (λ items. items ≡ tuple_items value.now) }
{
    match value {
        Value::Tuple(items) => Ok(Some(value_items(alloc, items.as_slice())?)),
        Value::Plain(Plain::Tuple(items)) => Ok(Some(plain_items(alloc, items.as_slice())?)),
        _ => Ok(None),
    }
}

fn value_items(alloc: Global, items: &[Value]) -> Result<Items<Value>, NoMemory>
    ensures { IfOk result (λ all. all ≡ items.now) }
{
    let mut all = Items::new(alloc);
    for item in items {
        all.push(item.copy(alloc)?)?;
    }
    Ok(all)
}

fn plain_items(alloc: Global, items: &[Plain]) -> Result<Items<Value>, NoMemory>
    ensures { IfOk result (λ all. all ≡ map (λ p. value.Plain p) items.now) }
{
    let mut all = Items::new(alloc);
    for item in items {
        all.push(Value::Plain(item.copy(alloc)?))?;
    }
    Ok(all)
}
