ghost use Rattle.std.specs.Prelude.{IfOk, List};
ghost use Rattle.eval_frames.specs.declared.frame.Frame.{Frame};
ghost use Rattle.eval_frames.specs.Meaning.{IsLight, Means};
ghost use Rattle.language_rules.specs.Iterating.{iter_plain_rule};
ghost use Rattle.language_rules.specs.Perform.{special_of_plain};

use crate::exceptions::refuse;
use builtin_functions::items_at_hand;
use eval_frames::Next;
use object_operations::Special;
use py_store::Cell;
use rp_base::{Beyond, NoMemory, Value};
use std::alloc::Global;

/// A special operation on what is no object: `__iter__`, and to set or delete an item.
pub(crate) fn special_of_plain(
    alloc: Global,
    special: Special,
    receiver: &Value,
    arguments: &[Value],
) -> Result<Next, NoMemory>
    ensures means { IfOk result (λ next. (stack : List Frame) → Means stack next (special_of_plain special receiver.now arguments.now) stack) }
    ensures light { IfOk result (λ next. (stack : List Frame) → IsLight stack next stack) }
{
    match special {
        Special::Iter => match arguments {
            [] => begin_sequence(alloc, receiver),
            _ => Ok(Next::Leave(Beyond::NotYet)),
        },
        Special::SetItem => match arguments {
            [_, _] => refuse(alloc, "no items"),
            _ => Ok(Next::Leave(Beyond::NotYet)),
        },
        Special::DelItem => match arguments {
            [_] => refuse(alloc, "no items"),
            _ => Ok(Next::Leave(Beyond::NotYet)),
        },
        _ => Ok(Next::Leave(Beyond::NotYet)),
    }
}

/// A new iterator over a text, a byte string or a tuple.
fn begin_sequence(alloc: Global, receiver: &Value) -> Result<Next, NoMemory>
    ensures means { IfOk result (λ next. (stack : List Frame) → Means stack next (iter_plain_rule receiver.now) stack) }
    ensures light { IfOk result (λ next. (stack : List Frame) → IsLight stack next stack) }
{
    match items_at_hand(alloc, receiver)? {
        Some(_) => Ok(Next::Make(Cell::Iter {
            source: Some(receiver.copy(alloc)?),
            at: 0,
            shape: 0,
        })),
        None => refuse(alloc, "not iterable"),
    }
}
