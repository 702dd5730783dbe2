ghost use Rattle.std.specs.Prelude.{◌≡◌, ℕ, pos, IfOk, List, Some};
ghost use Rattle.eval_frames.specs.declared.frame.Frame.{Frame};
ghost use Rattle.eval_frames.specs.Meaning.{IsLight, Means};
ghost use Rattle.language_rules.specs.Lengths.{on_counted, on_length};
ghost use Rattle.eval_instances.specs.Methods.{counting};

use eval_frames::{Next, fail};
use eval_ranges::{as_int, give, give_truth, refuse};
use rp_base::{Beyond, ExcKind, NoMemory, Plain, Value};
use std::alloc::Global;

/// The first number that is no length of at most 63 bits.
const TOO_LONG: i128 = 9_223_372_036_854_775_808;

/// `__len__` gives an int from 0 on, where a bool counts as one: the length itself, or whether it is above 0.
pub(crate) fn give_length(alloc: Global, value: &Value, is_truth: bool) -> Result<Next, NoMemory>
    ensures means { IfOk result (λ next. (stack : List Frame) → Means stack next (on_length (counting is_truth) value.now) stack) }
    ensures light { IfOk result (λ next. (stack : List Frame) → IsLight stack next stack) }
{
    match as_int(value) {
        Some(length) => judge_length(alloc, length, is_truth),
        None => refuse(alloc, "wrong result kind"),
    }
}

fn judge_length(alloc: Global, length: i128, is_truth: bool) -> Result<Next, NoMemory>
    ensures means { IfOk result (λ next. (stack : List Frame) → Means stack next (on_counted (counting is_truth) (Some length)) stack) }
    ensures light { IfOk result (λ next. (stack : List Frame) → IsLight stack next stack) }
{
    if length < 0 {
        return fail(alloc, ExcKind::ValueError, "negative length");
    }
    if length >= TOO_LONG {
        return Ok(Next::Leave(Beyond::Int));
    }
    Ok(tell_length(length, is_truth))
}

fn tell_length(length: i128, is_truth: bool) -> Next
    ensures means { (n : ℕ) → length ≡ pos n → (stack : List Frame) → Means stack result (counting is_truth n) stack }
    ensures light { (stack : List Frame) → IsLight stack result stack }
{
    if is_truth {
        give_truth(length > 0)
    } else {
        give(Value::Plain(Plain::Int(length)))
    }
}
