ghost use Rattle.std.specs.Prelude.{◌≡◌, not, false, is_some, IfOk};
ghost use Rattle.rp_base.specs.Values.{plains_of};
ghost use Rattle.py_plain.specs.Answers.{OrNoMemory};
ghost use Rattle.language_rules.specs.AtOnce.{ComputesUnlessAsked};
ghost use Rattle.language_rules.specs.Draining.{drains, items_at_hand};
ghost use Rattle.language_rules.specs.Kinds.{is_reference};
ghost use Rattle.language_rules.specs.Ordering.{best_of, best_plain, gives_best};
ghost use Rattle.builtin_functions.specs.AtHand.{NoneOnlyWhere};

use crate::ends::fails;
use crate::items::{items_at_hand, without_items};
use py_plain::{PlainEnd, plain_compare};
use rp_base::{Beyond, CmpOp, ExcKind, NoMemory, OpEnd, Plain, Value, to_plain};
use sqlite_items::Items;
use std::alloc::Global;

/// `min(v)` by `<` and `max(v)` by `>`; None where an object has to be asked.
pub(crate) fn best_of(alloc: Global, op: CmpOp, value: &Value) -> Result<Option<Value>, OpEnd>
    ensures computes { ComputesUnlessAsked (drains value.now (gives_best op)) result }
    ensures asked { NoneOnlyWhere (is_reference value.now) result }
{
    match items_at_hand(alloc, value) {
        Ok(Some(items)) => best_of_items(alloc, op, items.as_slice()),
        Ok(None) => without_items(alloc, value),
        Err(_) => Err(OpEnd::NoMemory),
    }
}

/// The best of these items, where all are plain, which is judged before they are compared.
pub fn best_of_items(alloc: Global, op: CmpOp, items: &[Value]) -> Result<Option<Value>, OpEnd>
    ensures computes { ComputesUnlessAsked (gives_best op items.now) result }
    ensures asked { NoneOnlyWhere false result }
{
    match plains_of(alloc, items) {
        Ok(Some(plains)) => best_plain(alloc, op, plains.as_slice()),
        Ok(None) => Err(OpEnd::Beyond(Beyond::Order)),
        Err(_) => Err(OpEnd::NoMemory),
    }
}

/// The plain values that these are, where each is one.
fn plains_of(alloc: Global, items: &[Value]) -> Result<Option<Items<Plain>>, NoMemory>
    ensures { IfOk result (λ ps. ps ≡ plains_of items.now) }
{
    let mut all = Items::new(alloc);
    for item in items {
        match to_plain(alloc, item)? {
            Some(plain) => all.push(plain)?,
            None => return Ok(None),
        }
    }
    Ok(Some(all))
}

fn best_plain(alloc: Global, op: CmpOp, plains: &[Plain]) -> Result<Option<Value>, OpEnd>
    ensures computes { ComputesUnlessAsked (best_plain op plains.now) result }
    ensures asked { NoneOnlyWhere false result }
{
    match plains {
        [] => Err(fails(alloc, ExcKind::ValueError, "empty sequence")),
        [first, rest @ ..] => match best(alloc, op, first, rest) {
            Ok(plain) => Ok(Some(Value::Plain(plain))),
            Err(PlainEnd::Raise(raised)) => Err(OpEnd::Raise(raised)),
            Err(PlainEnd::Beyond(beyond)) => Err(OpEnd::Beyond(beyond)),
            Err(PlainEnd::NoMemory) => Err(OpEnd::NoMemory),
        },
    }
}

/// The first item, or the last of those that each stood before the best so far.
fn best(alloc: Global, op: CmpOp, first: &Plain, rest: &[Plain]) -> Result<Plain, PlainEnd>
    ensures { OrNoMemory (best_of op first.now rest.now) result }
{
    let mut best = first;
    for plain in rest {
        match plain_compare(alloc, op, plain, best) {
            Ok(true) => best = plain,
            Ok(false) => {}
            Err(end) => return Err(end),
        }
    }
    Ok(best.copy(alloc)?)
}
