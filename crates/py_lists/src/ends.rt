ghost use Rattle.std.specs.Prelude.{◌≡◌, ◌∷◌, [], IfOk};
ghost use Rattle.rp_base.specs.declared.plain.Plain.TheVariants as plain;
ghost use Rattle.rp_base.specs.declared.value.Value.{Value};
ghost use Rattle.language_rules.specs.Going.{none, raised};
ghost use Rattle.language_rules.specs.AtOnce.{EndsAs};

use rp_base::{ExcKind, NoMemory, OpEnd, Plain, Raised, Text, Value};
use sqlite_items::Items;
use std::alloc::Global;

/// What a statement or a method gives that gives nothing.
pub(crate) fn none() -> Value
    ensures { result ≡ none }
{
    Value::Plain(Plain::None)
}

/// The end with an exception of this kind that has this text.
pub(crate) fn fails(alloc: Global, kind: ExcKind, text: &str) -> OpEnd
    ensures { EndsAs (raised kind (plain.Text text.now ∷ [])) result }
{
    match exception(alloc, kind, text) {
        Ok(raised) => OpEnd::Raise(raised),
        Err(_) => OpEnd::NoMemory,
    }
}

fn exception(alloc: Global, kind: ExcKind, text: &str) -> Result<Raised, NoMemory>
    ensures { IfOk result (λ r. r ≡ raised kind (plain.Text text.now ∷ [])) }
{
    let mut args = Items::new(alloc);
    args.push(Plain::Text(Text::from_str(alloc, text)?))?;
    Ok(Raised { kind, args })
}
