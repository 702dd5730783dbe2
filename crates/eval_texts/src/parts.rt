ghost use Rattle.std.specs.Prelude.{◌≡◌, ℕ, List, IfOk, string_bytes};
ghost use Rattle.language_rules.specs.Codes.{Code, Completion};
ghost use Rattle.language_rules.specs.Going.{RuleTree};
ghost use Rattle.language_rules.specs.Printing.{adds_part};
ghost use Rattle.py_plain.specs.Printing.{repr_of};
ghost use Rattle.py_plain.specs.Putting.{separator};
ghost use Rattle.rp_base.specs.declared.value.Value.TheVariants as value;
ghost use Rattle.eval_texts.specs.Texts.{Adds, Makes, PartComes, behind_text, item_text};

use py_plain::{PlainEnd, plain_repr};
use rp_base::{Beyond, HEAVIEST_VALUE, NoMemory, OpEnd, Plain, Text, Value};
use std::alloc::Global;

/// The greatest length of a text in bytes: a text weighs one more than its bytes.
const LONGEST_TEXT: u64 = HEAVIEST_VALUE - 1;

/// A part behind what is made: `Beyond(Size)` where the text would then be too long.
pub(crate) fn put_part(part: &str, made: &mut String) -> Result<(), OpEnd>
    ensures adds { Adds (adds_part (string_bytes made.old) part.now) result (string_bytes made.new) }
{
    let bytes = made.len().saturating_add(part.len());
    if bytes as u64 > LONGEST_TEXT {
        return Err(OpEnd::Beyond(Beyond::Size));
    }
    match made.push_str(part) {
        Ok(()) => Ok(()),
        Err(_) => Err(OpEnd::NoMemory),
    }
}

/// The repr of a plain value behind what is made.
pub(crate) fn put_repr(plain: &Plain, made: &mut String) -> Result<(), OpEnd>
    ensures part { Adds (adds_part (string_bytes made.old) (repr_of plain.now)) result (string_bytes made.new) }
    ensures item { (f : Completion → Code) → Adds (item_text f (string_bytes made.old) (value.Plain plain.now)) result (string_bytes made.new) }
{
    append_repr(plain, made)
}

fn append_repr(plain: &Plain, made: &mut String) -> Result<(), OpEnd>
    ensures comes { PartComes (string_bytes made.old) (repr_of plain.now) result (string_bytes made.new) }
{
    match plain_repr(plain, LONGEST_TEXT, made) {
        Ok(()) => Ok(()),
        Err(PlainEnd::Beyond(_)) => Err(OpEnd::Beyond(Beyond::Size)),
        Err(PlainEnd::NoMemory) => Err(OpEnd::NoMemory),
        Err(PlainEnd::Raise(_)) => unreachable!(),
    }
}

/// What is made so far, to which more is added.
pub(crate) fn reopened(alloc: Global, made: &Text) -> Result<String, NoMemory>
    ensures { IfOk result (λ text. string_bytes text ≡ made.now) }
{
    Ok(String::from_str(alloc, made.as_str())?)
}

/// The text of a plain value behind what is made: whether it was added, or an object has to be asked.
pub(crate) fn put_text(value: &Value, made: &mut String) -> Result<bool, OpEnd>
    ensures makes { (f : List ℕ → Completion → Code) (next : List ℕ → RuleTree) → Makes (item_text (f (string_bytes made.old)) (string_bytes made.old) value.now next) (behind_text f value.now next) result (string_bytes made.new) }
{
    match value {
        Value::Plain(plain) => match put_repr(plain, made) {
            Ok(()) => Ok(true),
            Err(end) => Err(end),
        },
        _ => Ok(false),
    }
}

/// What stands in front of the part at a position: nothing before the first.
pub(crate) fn put_separator(at: usize, made: &mut String) -> Result<(), OpEnd>
    ensures adds { Adds (adds_part (string_bytes made.old) (separator at)) result (string_bytes made.new) }
{
    if at == 0 {
        put_part("", made)
    } else {
        put_part(", ", made)
    }
}
