ghost use Rattle.std.specs.Prelude.{◌≡◌, ◌<◌, ◌≤◌, List, ℕ, length, IfOk, IsErrOf};
ghost use Rattle.std.specs.Str.{chars};
ghost use Rattle.rp_base.specs.Values.{heaviest_value};
ghost use Rattle.py_strs.specs.declared.ends.StrEnd.TheVariants as end;
ghost use Rattle.py_strs.specs.Joining.{characters, joined, text_weight};
ghost use Rattle.py_strs.specs.Splitting.{IsSplit};

use crate::ends::StrEnd;
use crate::joining::join_texts;
use crate::splitting::pieces;
use std::alloc::Global;

/// The text with `new` in the place of each `old`, found from the left: its pieces between `old`, joined by `new`. `Size`
/// exactly where the text would weigh more than a value may.
pub fn replace_text(alloc: Global, s: &str, old: &str, new: &str) -> Result<String, StrEnd>
    requires { 0 < length old.now }
    ensures ok { IfOk result (λ t. (ps : List (List ℕ)) × IsSplit (chars old.now) (chars s.now) ps × (characters t ≡ joined (chars new.now) ps) × (text_weight (characters t) ≤ heaviest_value)) }
    ensures size { IsErrOf result end.Size → (ps : List (List ℕ)) × IsSplit (chars old.now) (chars s.now) ps × (heaviest_value < text_weight (joined (chars new.now) ps)) }
    ensures no_sep { ¬ (IsErrOf result end.EmptySep) }
{
    let pieces = pieces(alloc, s, old)?;
    let text = join_texts(alloc, new, &pieces)?;
    Ok(text)
}
