ghost use Rattle.std.specs.Prelude.{◌≡◌, ◌∷◌, [], IfOk, false};
ghost use Rattle.rp_base.specs.declared.plain.Plain.TheVariants as plain;
ghost use Rattle.language_rules.specs.AtOnce.{Computes, ComputesUnlessAsked, EndsAs};
ghost use Rattle.language_rules.specs.Going.{RuleTree, raised};
ghost use Rattle.builtin_functions.specs.AtHand.{NoneOnlyWhere};

use rp_base::{ExcKind, NoMemory, OpEnd, Plain, Raised, Text, Value};
use sqlite_items::Items;
use std::alloc::Global;

/// The answer of a function that asks nothing.
pub(crate) fn at_hand(answer: Result<Value, OpEnd>) -> Result<Option<Value>, OpEnd>
    ensures computes { (t : RuleTree) → Computes t answer → ComputesUnlessAsked t result }
    ensures asked { NoneOnlyWhere false result }
{
    match answer {
        Ok(value) => Ok(Some(value)),
        Err(end) => Err(end),
    }
}

/// The end with an exception of this kind that has this text.
pub(crate) fn fails(alloc: Global, kind: ExcKind, text: &str) -> OpEnd
    ensures { EndsAs (raised kind (plain.Text text.now ∷ [])) result }
{
    match exception(alloc, kind, text) {
        Ok(raised) => OpEnd::Raise(raised),
        Err(_) => OpEnd::NoMemory,
    }
}

fn exception(alloc: Global, kind: ExcKind, text: &str) -> Result<Raised, NoMemory>
    ensures { IfOk result (λ r. r ≡ raised kind (plain.Text text.now ∷ [])) }
{
    let mut args = Items::new(alloc);
    args.push(Plain::Text(Text::from_str(alloc, text)?))?;
    Ok(Raised { kind, args })
}
