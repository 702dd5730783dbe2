ghost use Rattle.std.specs.Prelude.{◌≡◌, IfOk, List};
ghost use Rattle.rp_base.specs.Values.{plains_of};
ghost use Rattle.eval_frames.specs.declared.frame.Frame.{Frame};
ghost use Rattle.eval_frames.specs.declared.frame.Gathering.TheVariants as gathering;
ghost use Rattle.eval_frames.specs.Meaning.{IsLight, Means, gathers};
ghost use Rattle.language_rules.specs.Raising.{raise_plain};

use eval_frames::{Next, are_too_heavy};
use object_operations::Completion;
use rp_base::{Beyond, ExcKind, NoMemory, Plain, Raised, Value, to_plain};
use sqlite_items::Items;
use std::alloc::Global;

/// `raise` of a class with arguments (Python Language Reference, "The raise statement"): they are judged together, and
/// each is a plain value, else `Beyond(Payload)`.
pub(crate) fn raise(alloc: Global, kind: ExcKind, values: Items<Value>) -> Result<Next, NoMemory>
    ensures means { IfOk result (λ next. (stack : List Frame) → Means stack next (gathers (gathering.Raise kind) values) stack) }
    ensures light { IfOk result (λ next. (stack : List Frame) → IsLight stack next stack) }
{
    if are_too_heavy(values.as_slice()) {
        return Ok(Next::Leave(Beyond::Size));
    }
    Ok(raise_plain(kind, plains_of(alloc, values.as_slice())?))
}

fn raise_plain(kind: ExcKind, plains: Option<Items<Plain>>) -> Next
    ensures means { (stack : List Frame) → Means stack result (raise_plain kind plains) stack }
    ensures light { (stack : List Frame) → IsLight stack result stack }
{
    match plains {
        Some(args) => Next::Give(Completion::Raises(Raised { kind, args })),
        None => Next::Leave(Beyond::Payload),
    }
}

/// The plain values that these are, where each is one.
fn plains_of(alloc: Global, values: &[Value]) -> Result<Option<Items<Plain>>, NoMemory>
    ensures { IfOk result (λ plains. plains ≡ plains_of values.now) }
{
    let mut all = Items::new(alloc);
    for value in values {
        match to_plain(alloc, value)? {
            Some(plain) => all.push(plain)?,
            None => return Ok(None),
        }
    }
    Ok(Some(all))
}
