ghost use Rattle.std.specs.Prelude.{◌≡◌, codes, IfOk};
ghost use Rattle.rp_base.specs.declared.exceptions.ExcKind.TheVariants as kind;
ghost use Rattle.py_plain.specs.Answers.{raised, unsupported, no_order, end_of_ints, EndsAs};

use py_ints::IntEnd;
use rp_base::{Beyond, ExcKind, NoMemory, Plain, Raised, Text};
use sqlite_items::Items;
use std::alloc::{AllocError, Global};

/// Why an operation on plain values has no value.
#[derive(Drop)]
pub enum PlainEnd {
    /// The operation raises this exception.
    Raise(Raised),
    /// The answer is outside the subset.
    Beyond(Beyond),
    /// There was no memory.
    NoMemory,
}

impl From<NoMemory> for PlainEnd {
    ghost use Rattle.py_plain.specs.declared.ends.PlainEnd.TheVariants as end;

    ghost from_gives = { λ _ e. e ≡ end.NoMemory };

    fn from(_error: NoMemory) -> PlainEnd {
        PlainEnd::NoMemory
    }
}

impl From<AllocError> for PlainEnd {
    ghost use Rattle.py_plain.specs.declared.ends.PlainEnd.TheVariants as end;

    ghost from_gives = { λ _ e. e ≡ end.NoMemory };

    fn from(_error: AllocError) -> PlainEnd {
        PlainEnd::NoMemory
    }
}

/// The end of an operation whose operands it does not take.
pub(crate) fn unsupported(alloc: Global) -> PlainEnd
    ensures { EndsAs unsupported result }
{
    raise(alloc, ExcKind::TypeError, "unsupported operand")
}

/// The end of a comparison of values that have no order.
pub(crate) fn no_order(alloc: Global) -> PlainEnd
    ensures { EndsAs no_order result }
{
    raise(alloc, ExcKind::TypeError, "no order")
}

/// The end of an operation on ints that gives no int.
pub(crate) fn end_of_ints(alloc: Global, end: IntEnd) -> PlainEnd
    ensures { EndsAs (end_of_ints end) result }
{
    match end {
        IntEnd::BeyondInt => PlainEnd::Beyond(Beyond::Int),
        IntEnd::BeyondFloat => PlainEnd::Beyond(Beyond::Float),
        IntEnd::DivZero => raise(alloc, ExcKind::ZeroDivisionError, "division by zero"),
        IntEnd::NegShift => raise(alloc, ExcKind::ValueError, "negative shift count"),
    }
}

fn raise(alloc: Global, kind: ExcKind, text: &str) -> PlainEnd
    ensures { EndsAs (raised kind text.now) result }
{
    match exception(alloc, kind, text) {
        Ok(raised) => PlainEnd::Raise(raised),
        Err(_) => PlainEnd::NoMemory,
    }
}

/// The exception of this kind with this text as its argument.
fn exception(alloc: Global, kind: ExcKind, text: &str) -> Result<Raised, NoMemory>
    ensures { IfOk result (λ r. PlainEnd.Raise r ≡ raised kind text.now) }
{
    let mut args = Items::new(alloc);
    args.push(Plain::Text(Text::from_str(alloc, text)?))?;
    Ok(Raised { kind, args })
}
