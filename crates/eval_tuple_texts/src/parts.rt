ghost use Rattle.std.specs.Prelude.{◌≡◌, [], IfOk, OnOk, string_bytes};
ghost use Rattle.py_plain.specs.Printing.{repr_of};
ghost use Rattle.eval_tuple_texts.specs.TextLevels.{Fits};

use py_plain::{PlainEnd, plain_repr};
use rp_base::{HEAVIEST_VALUE, NoMemory, Plain, Text};
use std::alloc::Global;

/// The greatest length of a text in bytes: a text weighs one more than its bytes.
const LONGEST_TEXT: u64 = HEAVIEST_VALUE - 1;

/// A part behind what is made, where the text is then not too long.
pub(crate) fn put_part(part: &str, made: &mut String) -> Result<bool, NoMemory>
    ensures { IfOk result (λ fits. Fits (string_bytes made.old) part.now fits (string_bytes made.new)) }
{
    let bytes = made.len().saturating_add(part.len());
    if bytes as u64 > LONGEST_TEXT {
        return Ok(false);
    }
    match made.push_str(part) {
        Ok(()) => Ok(true),
        Err(_) => Err(NoMemory),
    }
}

/// The repr of a plain value behind what is made, where the text is then not too long.
pub(crate) fn put_repr(plain: &Plain, made: &mut String) -> Result<bool, NoMemory>
    ensures { IfOk result (λ fits. Fits (string_bytes made.old) (repr_of plain.now) fits (string_bytes made.new)) }
{
    match plain_repr(plain, LONGEST_TEXT, made) {
        Ok(()) => Ok(true),
        Err(PlainEnd::Beyond(_)) => Ok(false),
        Err(PlainEnd::NoMemory) => Err(NoMemory),
        Err(PlainEnd::Raise(_)) => unreachable!(),
    }
}

/// What is made so far, to which more is added.
pub(crate) fn reopened(alloc: Global, made: &Text) -> Result<String, NoMemory>
    ensures { IfOk result (λ text. string_bytes text ≡ made.now) }
{
    Ok(String::from_str(alloc, made.as_str())?)
}
