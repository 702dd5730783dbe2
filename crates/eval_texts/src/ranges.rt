ghost use Rattle.std.specs.Prelude.{◌≡◌, ◌++◌, IfOk, codes, pos, string_bytes, true, false};
ghost use Rattle.std.specs.Ordering.{int_eq};
ghost use Rattle.language_rules.specs.Printing.{number_text, range_text};

use py_plain::plain_repr;
use rp_base::{NoMemory, Plain};
use std::alloc::Global;

/// The text of a range: its step is left out where it is 1.
pub(crate) fn range_text(
    alloc: Global,
    start: i128,
    stop: i128,
    step: i128,
) -> Result<String, NoMemory>
    ensures { IfOk result (λ text. string_bytes text ≡ range_text start stop step) }
{
    let mut text = String::from_str(alloc, "range(")?;
    put_number(start, &mut text)?;
    text.push_str(", ")?;
    put_number(stop, &mut text)?;
    put_step(step, &mut text)?;
    Ok(text)
}

/// The step, where it is not 1, and the closing bracket.
fn put_step(step: i128, text: &mut String) -> Result<(), NoMemory>
    ensures { IfOk result (λ u. string_bytes text.new ≡ string_bytes text.old ++ elim (int_eq step (pos 1)) [ true ↦ codes ")" | false ↦ codes ", " ++ number_text step ++ codes ")" ]) }
{
    if step != 1 {
        text.push_str(", ")?;
        put_number(step, text)?;
    }
    text.push_str(")")?;
    Ok(())
}

/// A number behind what is there. No text is longer than the greatest `u64`.
fn put_number(number: i128, text: &mut String) -> Result<(), NoMemory>
    ensures { IfOk result (λ u. string_bytes text.new ≡ string_bytes text.old ++ number_text number) }
{
    match plain_repr(&Plain::Int(number), u64::MAX, text) {
        Ok(()) => Ok(()),
        Err(_) => Err(NoMemory),
    }
}
