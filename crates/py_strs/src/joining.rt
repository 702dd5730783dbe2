ghost use Rattle.std.specs.Prelude.{◌≡◌, ◌+◌, ◌<◌, ◌≤◌, ◌++◌, length, map, string_bytes, IfOk, OnOk, IsErrOf};
ghost use Rattle.std.specs.Str.{chars};
ghost use Rattle.rp_base.specs.Values.{heaviest_value};
ghost use Rattle.py_strs.specs.declared.ends.StrEnd.TheVariants as end;
ghost use Rattle.py_strs.specs.Joining.{characters, joined, text_weight};

use crate::ends::StrEnd;
use rp_base::HEAVIEST_VALUE;
use std::alloc::Global;

/// The parts in a row, with the separator between two of them. `Size` exactly where the text would weigh more than
/// a value may.
pub fn join_texts(alloc: Global, sep: &str, parts: &[String]) -> Result<String, StrEnd>
    ensures ok { IfOk result (λ t. (characters t ≡ joined (chars sep.now) (map characters parts.now)) × (text_weight (characters t) ≤ heaviest_value)) }
    ensures size { IsErrOf result end.Size → heaviest_value < text_weight (joined (chars sep.now) (map characters parts.now)) }
    ensures no_sep { ¬ (IsErrOf result end.EmptySep) }
{
    let mut text = String::new(alloc);
    let [first, others @ ..] = parts else {
        return Ok(text);
    };
    append(&mut text, first.as_str())?;
    for part in others {
        append_both(&mut text, sep, part.as_str())?;
    }
    Ok(text)
}

/// Appends the separator and the part.
fn append_both(text: &mut String, sep: &str, part: &str) -> Result<(), StrEnd>
    ensures ok { OnOk result (string_bytes text.new ≡ string_bytes text.old ++ (sep.now ++ part.now)) }
    ensures fits { OnOk result (length (string_bytes text.new) < heaviest_value) }
    ensures size { IsErrOf result end.Size → heaviest_value ≤ length (string_bytes text.old) + (length sep.now + length part.now) }
    ensures no_sep { ¬ (IsErrOf result end.EmptySep) }
{
    append(text, sep)?;
    append(text, part)?;
    Ok(())
}

/// Appends the piece. `Size` exactly where the text would weigh more than a value may.
fn append(text: &mut String, piece: &str) -> Result<(), StrEnd>
    ensures ok { OnOk result (string_bytes text.new ≡ string_bytes text.old ++ piece.now) }
    ensures fits { OnOk result (length (string_bytes text.new) < heaviest_value) }
    ensures size { IsErrOf result end.Size → heaviest_value ≤ length (string_bytes text.old) + length piece.now }
    ensures no_sep { ¬ (IsErrOf result end.EmptySep) }
{
    let bytes = text.len().saturating_add(piece.len());
    if bytes as u64 >= HEAVIEST_VALUE {
        return Err(StrEnd::Size);
    }
    text.push_str(piece)?;
    Ok(())
}
