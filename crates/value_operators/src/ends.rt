ghost use Rattle.std.specs.Prelude.{◌≡◌, ◌∷◌, [], IfOk, Result, codes, false};
ghost use Rattle.rp_base.specs.declared.exceptions.ExcKind.TheVariants as kind;
ghost use Rattle.rp_base.specs.declared.plain.Plain.{Plain};
ghost use Rattle.rp_base.specs.declared.plain.Plain.TheVariants as plain;
ghost use Rattle.py_plain.specs.declared.ends.PlainEnd.{PlainEnd};
ghost use Rattle.py_plain.specs.Answers.{OrNoMemory};
ghost use Rattle.language_rules.specs.Answers.{answers};
ghost use Rattle.language_rules.specs.AtOnce.{ComputesUnlessAsked, EndsAs};
ghost use Rattle.language_rules.specs.Going.{raised};
ghost use Rattle.value_operators.specs.Answering.{AsksOnly, end_given};

use py_plain::PlainEnd;
use rp_base::{ExcKind, NoMemory, OpEnd, Plain, Raised, Text, Value};
use sqlite_items::Items;
use std::alloc::Global;

/// The end that an operation on plain values comes to.
pub(crate) fn end_of(end: PlainEnd) -> OpEnd
    ensures { result ≡ end_given end }
{
    match end {
        PlainEnd::Raise(raised) => OpEnd::Raise(raised),
        PlainEnd::Beyond(beyond) => OpEnd::Beyond(beyond),
        PlainEnd::NoMemory => OpEnd::NoMemory,
    }
}

/// The end with an exception of this kind that has this text.
pub(crate) fn fails(alloc: Global, kind: ExcKind, text: &str) -> OpEnd
    ensures { EndsAs (raised kind (plain.Text text.now ∷ [])) result }
{
    match exception(alloc, kind, text) {
        Ok(raised) => OpEnd::Raise(raised),
        Err(_) => OpEnd::NoMemory,
    }
}

fn exception(alloc: Global, kind: ExcKind, text: &str) -> Result<Raised, NoMemory>
    ensures { IfOk result (λ r. r ≡ raised kind (plain.Text text.now ∷ [])) }
{
    let mut args = Items::new(alloc);
    args.push(Plain::Text(Text::from_str(alloc, text)?))?;
    Ok(Raised { kind, args })
}

/// The end of an operator that does not take its operands.
pub(crate) fn unsupported(alloc: Global) -> OpEnd
    ensures { EndsAs (raised kind.TypeError (plain.Text (codes "unsupported operand") ∷ [])) result }
{
    fails(alloc, ExcKind::TypeError, "unsupported operand")
}

/// The answer of an operation on plain values.
pub(crate) fn give(answer: Result<Plain, PlainEnd>) -> Result<Option<Value>, OpEnd>
    ensures computes { (wanted : Result Plain PlainEnd) → OrNoMemory wanted answer → ComputesUnlessAsked (answers wanted) result }
    ensures there { AsksOnly false result }
{
    match answer {
        Ok(plain) => Ok(Some(Value::Plain(plain))),
        Err(end) => Err(end_of(end)),
    }
}
