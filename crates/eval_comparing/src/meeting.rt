ghost use Rattle.std.specs.Prelude.{◌≡◌, ◌||◌, IfOk, length, map, reverse, false, true, Some};
ghost use Rattle.rp_base.specs.declared.operators.CmpOp.TheVariants as cmp;
ghost use Rattle.rp_base.specs.declared.value.Value.TheVariants as value;
ghost use Rattle.language_rules.specs.Comparing.{compare_step, same_object, tuple_items};
ghost use Rattle.language_rules.specs.Kinds.{is_reference};
ghost use Rattle.eval_comparing.specs.Answers.{MeetsItem, MeetsStep, pairs_of, tuples_equal};

use crate::answer::Meeting;
use crate::asking::{one_refers, same_object};
use eval_frames::ValuePair;
use rp_base::{NoMemory, Plain, Value, equal};
use sqlite_items::Items;
use std::alloc::Global;

/// How a value is found in an item: where they are one object it is.
pub(crate) fn meet_item(alloc: Global, wanted: &Value, item: &Value) -> Result<Meeting, NoMemory>
    ensures { IfOk result (λ m. MeetsItem wanted.now item.now m) }
{
    if same_object(wanted, item) {
        Ok(Meeting::Told(true))
    } else {
        meet_other(alloc, wanted, item)
    }
}

fn meet_other(alloc: Global, wanted: &Value, item: &Value) -> Result<Meeting, NoMemory>
    requires { same_object wanted.now item.now ≡ false }
    ensures { IfOk result (λ m. MeetsItem wanted.now item.now m) }
{
    if one_refers(wanted, item) {
        Ok(Meeting::Asked)
    } else {
        meet(alloc, wanted, item)
    }
}

/// How two values are equal that refer to no object.
pub(crate) fn meet(alloc: Global, left: &Value, right: &Value) -> Result<Meeting, NoMemory>
    requires { (is_reference left.now || is_reference right.now) ≡ false }
    ensures { IfOk result (λ m. MeetsStep (compare_step cmp.Eq left.now right.now) m) }
{
    match left {
        Value::Plain(plain) => meet_plain(alloc, plain, left, right),
        Value::Tuple(_) => meet_tuples(alloc, left, right),
        Value::Own(_) => Ok(Meeting::Told(false)),
        Value::Proxy(_) => Ok(Meeting::Told(false)),
    }
}

/// A plain value on the left.
fn meet_plain(
    alloc: Global,
    plain: &Plain,
    left: &Value,
    right: &Value,
) -> Result<Meeting, NoMemory>
    requires plain { left.now ≡ value.Plain plain.now }
    requires apart { is_reference right.now ≡ false }
    ensures { IfOk result (λ m. MeetsStep (compare_step cmp.Eq left.now right.now) m) }
{
    match right {
        Value::Plain(other) => Ok(Meeting::Told(equal(plain, other))),
        Value::Tuple(_) => meet_tuples(alloc, left, right),
        Value::Own(_) => Ok(Meeting::Told(false)),
        Value::Proxy(_) => Ok(Meeting::Told(false)),
    }
}

/// Two values that refer to no object, of which one is a tuple that holds one.
fn meet_tuples(alloc: Global, left: &Value, right: &Value) -> Result<Meeting, NoMemory>
    requires { compare_step cmp.Eq left.now right.now ≡ tuples_equal (tuple_items left.now) (tuple_items right.now) }
    ensures { IfOk result (λ m. MeetsStep (compare_step cmp.Eq left.now right.now) m) }
{
    match items_of(alloc, left)? {
        Some(items) => meet_tuple(alloc, items, right),
        None => Ok(Meeting::Told(false)),
    }
}

fn meet_tuple(alloc: Global, left: Items<Value>, right: &Value) -> Result<Meeting, NoMemory>
    ensures { IfOk result (λ m. MeetsStep (tuples_equal (Some left) (tuple_items right.now)) m) }
{
    match items_of(alloc, right)? {
        Some(items) => meet_items(alloc, left, items),
        None => Ok(Meeting::Told(false)),
    }
}

/// Two tuples are compared pair by pair, where they are as long as each other.
fn meet_items(alloc: Global, left: Items<Value>, right: Items<Value>) -> Result<Meeting, NoMemory>
    ensures { IfOk result (λ m. MeetsStep (tuples_equal (Some left) (Some right)) m) }
{
    if left.len() == right.len() {
        Ok(Meeting::Deeper(paired(alloc, left, right)?))
    } else {
        Ok(Meeting::Uneven)
    }
}

/// The pairs of two tuples that are as long as each other, the last first.
fn paired(
    alloc: Global,
    mut lefts: Items<Value>,
    mut rights: Items<Value>,
) -> Result<Items<ValuePair>, NoMemory>
    requires { length lefts ≡ length rights }
    ensures { IfOk result (λ pairs. reverse pairs ≡ pairs_of lefts rights) }
{
    let mut pairs = Items::new(alloc);
    'items: while let Some(left) = lefts.pop() {
        match rights.pop() {
            Some(right) => pairs.push(ValuePair { left, right })?,
            None => return Ok(pairs),
        }
    }
    Ok(pairs)
}

/// The items of a tuple, plain or not.
#[tactic(auto, using(language_rules::specs::StepLaws::items_of_a_tuple, language_rules::specs::StepLaws::items_of_a_plain_tuple))]
pub(crate) fn items_of(alloc: Global, value: &Value) -> Result<Option<Items<Value>>, NoMemory>
    ensures { IfOk result (λ items. items ≡ tuple_items value.now) }
{
    match value {
        Value::Tuple(items) => Ok(Some(value_items(alloc, items.as_slice())?)),
        Value::Plain(Plain::Tuple(items)) => Ok(Some(plain_items(alloc, items.as_slice())?)),
        _ => Ok(None),
    }
}

fn value_items(alloc: Global, items: &[Value]) -> Result<Items<Value>, NoMemory>
    ensures { IfOk result (λ all. all ≡ items.now) }
{
    let mut all = Items::new(alloc);
    for item in items {
        all.push(item.copy(alloc)?)?;
    }
    Ok(all)
}

fn plain_items(alloc: Global, items: &[Plain]) -> Result<Items<Value>, NoMemory>
    ensures { IfOk result (λ all. all ≡ map (λ p. value.Plain p) items.now) }
{
    let mut all = Items::new(alloc);
    for item in items {
        all.push(Value::Plain(item.copy(alloc)?))?;
    }
    Ok(all)
}
