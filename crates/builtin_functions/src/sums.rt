ghost use Rattle.std.specs.Prelude.{◌≡◌, ◌+ℤ◌, if◌then◌else◌, not, false, is_some, pos, Some, None, IfOk, option_map};
ghost use Rattle.py_ints.specs.IntTexts.{fits};
ghost use Rattle.language_rules.specs.AtOnce.{ComputesUnlessAsked};
ghost use Rattle.language_rules.specs.Draining.{drains, items_at_hand};
ghost use Rattle.language_rules.specs.Kinds.{is_reference};
ghost use Rattle.language_rules.specs.Ordering.{adds_up, all_ints, gives_sum};
ghost use Rattle.language_rules.specs.TextFunctions.{as_int};
ghost use Rattle.builtin_functions.specs.AtHand.{NoneOnlyWhere};

use crate::items::{items_at_hand, without_items};
use rp_base::{Beyond, NoMemory, OpEnd, Plain, Value};
use std::alloc::Global;

/// `sum(v)`; None where an object has to be asked.
pub(crate) fn sum_of(alloc: Global, value: &Value) -> Result<Option<Value>, OpEnd>
    ensures computes { ComputesUnlessAsked (drains value.now gives_sum) result }
    ensures asked { NoneOnlyWhere (is_reference value.now) result }
{
    match items_at_hand(alloc, value) {
        Ok(Some(items)) => sum_of_items(alloc, items.as_slice()),
        Ok(None) => without_items(alloc, value),
        Err(_) => Err(OpEnd::NoMemory),
    }
}

/// The sum of these items, where all are ints or bools, which is judged before they are added.
pub fn sum_of_items(alloc: Global, items: &[Value]) -> Result<Option<Value>, OpEnd>
    ensures computes { ComputesUnlessAsked (gives_sum items.now) result }
    ensures asked { NoneOnlyWhere false result }
{
    match all_ints(alloc, items) {
        Ok(Some(ints)) => adds_up(ints.as_slice()),
        Ok(None) => Err(OpEnd::Beyond(Beyond::Order)),
        Err(_) => Err(OpEnd::NoMemory),
    }
}

/// The ints that these are, where all are ints or bools.
fn all_ints(alloc: Global, items: &[Value]) -> Result<Option<Vec<i128>>, NoMemory>
    ensures { IfOk result (λ ints. option_map (λ v. v.items) ints ≡ all_ints items.now) }
{
    let mut all = Vec::new(alloc);
    for item in items {
        match as_int(item) {
            Some(n) => all.push(n)?,
            None => return Ok(None),
        }
    }
    Ok(Some(all))
}

/// The int that a value is, where a bool counts as one.
fn as_int(value: &Value) -> Option<i128>
    ensures { result ≡ as_int value.now }
{
    match value {
        Value::Plain(Plain::Bool(b)) => Some(i128::from(*b)),
        Value::Plain(Plain::Int(n)) => Some(*n),
        _ => None,
    }
}

/// The sum of ints, each partial sum of which has 128 bits.
fn adds_up(ints: &[i128]) -> Result<Option<Value>, OpEnd>
    ensures computes { ComputesUnlessAsked (adds_up (pos 0) ints.now) result }
    ensures asked { NoneOnlyWhere false result }
{
    let mut sum = 0i128;
    for n in ints {
        match plus(sum, *n) {
            Some(more) => sum = more,
            None => return Err(OpEnd::Beyond(Beyond::Int)),
        }
    }
    Ok(Some(Value::Plain(Plain::Int(sum))))
}

fn plus(a: i128, b: i128) -> Option<i128>
    ensures { result ≡ (if fits (a +ℤ b) then Some (a +ℤ b) else None) }
{
    a.checked_add(b)
}
