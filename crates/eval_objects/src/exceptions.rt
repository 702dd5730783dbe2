ghost use Rattle.std.specs.Prelude.{◌≡◌, ◌∷◌, [], IfOk, List};
ghost use Rattle.rp_base.specs.declared.plain.Plain.TheVariants as plain;
ghost use Rattle.eval_frames.specs.declared.frame.Frame.{Frame};
ghost use Rattle.eval_frames.specs.Meaning.{IsLight, Means};
ghost use Rattle.language_rules.specs.Attributes.{no_attribute};
ghost use Rattle.language_rules.specs.Going.{raised, type_error};

use eval_frames::Next;
use object_operations::Completion;
use rp_base::{ExcKind, NoMemory, Plain, Raised, Text};
use sqlite_items::Items;
use std::alloc::Global;

/// A `TypeError` with this text.
pub(crate) fn refuse(alloc: Global, text: &str) -> Result<Next, NoMemory>
    ensures means { IfOk result (λ next. (stack : List Frame) → Means stack next (type_error text.now) stack) }
    ensures light { IfOk result (λ next. (stack : List Frame) → IsLight stack next stack) }
{
    let raised = exception(alloc, ExcKind::TypeError, text)?;
    Ok(Next::Give(Completion::Raises(raised)))
}

/// The receiver has no attribute of this name.
pub(crate) fn no_attribute(alloc: Global, name: &str) -> Result<Next, NoMemory>
    ensures means { IfOk result (λ next. (stack : List Frame) → Means stack next (no_attribute name.now) stack) }
    ensures light { IfOk result (λ next. (stack : List Frame) → IsLight stack next stack) }
{
    let raised = exception(alloc, ExcKind::AttributeError, name)?;
    Ok(Next::Give(Completion::Raises(raised)))
}

fn exception(alloc: Global, kind: ExcKind, text: &str) -> Result<Raised, NoMemory>
    ensures { IfOk result (λ r. r ≡ raised kind (plain.Text text.now ∷ [])) }
{
    let mut args = Items::new(alloc);
    args.push(Plain::Text(Text::from_str(alloc, text)?))?;
    Ok(Raised { kind, args })
}
