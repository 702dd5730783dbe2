ghost use Rattle.std.specs.Prelude.{◌≡◌, ◌∷◌, [], Err, IfOk};
ghost use Rattle.rp_base.specs.declared.plain.Plain.TheVariants as plain;
ghost use Rattle.language_rules.specs.Going.{fails, raised};
ghost use Rattle.language_rules.specs.AtOnce.{Computes};

use rp_base::{ExcKind, NoMemory, OpEnd, Plain, Raised, Text};
use sqlite_items::Items;
use std::alloc::Global;

/// The end with an exception of this kind that has this text.
pub(crate) fn fails(alloc: Global, kind: ExcKind, text: &str) -> OpEnd
    ensures { Computes (fails kind text.now) (Err result) }
{
    match exception(alloc, kind, text) {
        Ok(raised) => OpEnd::Raise(raised),
        Err(_) => OpEnd::NoMemory,
    }
}

fn exception(alloc: Global, kind: ExcKind, text: &str) -> Result<Raised, NoMemory>
    ensures { IfOk result (λ r. r ≡ raised kind (plain.Text text.now ∷ [])) }
{
    let mut args = Items::new(alloc);
    args.push(Plain::Text(Text::from_str(alloc, text)?))?;
    Ok(Raised { kind, args })
}
