ghost use Rattle.std.specs.Prelude.{not};
ghost use Rattle.language_rules.specs.AtOnce.{ComputesUnlessAsked};
ghost use Rattle.language_rules.specs.Printing.{gives_text, on_repr, on_str, str_step};
ghost use Rattle.py_plain.specs.Printing.{str_of, repr_of};
ghost use Rattle.builtin_functions.specs.AtHand.{NoneOnlyWhere, TellsText, TextComes, is_plain};

use py_plain::{PlainEnd, plain_repr, plain_str};
use rp_base::{Beyond, HEAVIEST_VALUE, OpEnd, Plain, Text, Value};
use std::alloc::Global;

/// The greatest length of a text in bytes: a text weighs one more than its bytes.
const LONGEST_TEXT: u64 = HEAVIEST_VALUE - 1;

/// What `print` writes for a value, `Beyond(Size)` where it is too long for a text; None where an object has to be asked.
pub fn text_of(alloc: Global, value: &Value) -> Result<Option<Text>, OpEnd>
    ensures tells { TellsText (str_step value.now) result }
    ensures asked { NoneOnlyWhere (not (is_plain value.now)) result }
{
    match value {
        Value::Plain(plain) => match printed(alloc, plain) {
            Ok(text) => Ok(Some(text)),
            Err(end) => Err(end),
        },
        _ => Ok(None),
    }
}

/// `str(v)`; None where an object has to be asked.
pub(crate) fn str_of(alloc: Global, value: &Value) -> Result<Option<Value>, OpEnd>
    ensures computes { ComputesUnlessAsked (on_str value.now gives_text) result }
    ensures asked { NoneOnlyWhere (not (is_plain value.now)) result }
{
    match value {
        Value::Plain(plain) => match printed(alloc, plain) {
            Ok(text) => Ok(Some(Value::Plain(Plain::Text(text)))),
            Err(end) => Err(end),
        },
        _ => Ok(None),
    }
}

/// `repr(v)`; None where an object has to be asked.
#[tactic(auto, unfolding(language_rules::specs::Printing::repr_step))]
pub(crate) fn repr_of(alloc: Global, value: &Value) -> Result<Option<Value>, OpEnd>
    ensures computes { ComputesUnlessAsked (on_repr value.now gives_text) result }
    ensures asked { NoneOnlyWhere (not (is_plain value.now)) result }
{
    match value {
        Value::Plain(plain) => match shown(alloc, plain) {
            Ok(text) => Ok(Some(Value::Plain(Plain::Text(text)))),
            Err(end) => Err(end),
        },
        _ => Ok(None),
    }
}

/// The str of a plain value.
fn printed(alloc: Global, plain: &Plain) -> Result<Text, OpEnd>
    ensures { TextComes (str_of plain.now) result }
{
    let mut out = String::new(alloc);
    match plain_str(plain, LONGEST_TEXT, &mut out) {
        Ok(()) => Ok(Text::from_string(out)),
        Err(PlainEnd::Beyond(_)) => Err(OpEnd::Beyond(Beyond::Size)),
        Err(PlainEnd::NoMemory) => Err(OpEnd::NoMemory),
        Err(PlainEnd::Raise(_)) => unreachable!(),
    }
}

/// The repr of a plain value.
fn shown(alloc: Global, plain: &Plain) -> Result<Text, OpEnd>
    ensures { TextComes (repr_of plain.now) result }
{
    let mut out = String::new(alloc);
    match plain_repr(plain, LONGEST_TEXT, &mut out) {
        Ok(()) => Ok(Text::from_string(out)),
        Err(PlainEnd::Beyond(_)) => Err(OpEnd::Beyond(Beyond::Size)),
        Err(PlainEnd::NoMemory) => Err(OpEnd::NoMemory),
        Err(PlainEnd::Raise(_)) => unreachable!(),
    }
}
