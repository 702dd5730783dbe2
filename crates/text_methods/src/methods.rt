ghost use Rattle.std.specs.Prelude.{◌≡◌, ℕ, List};
ghost use Rattle.object_operations.specs.declared.method.BuiltinMethod.TheVariants as method;
ghost use Rattle.language_rules.specs.TextMethods.{characters_method, text_method};
ghost use Rattle.text_methods.specs.TextAnswers.{Answers, is_drain, joins_one};

use crate::answers::TextAnswer;
use crate::changing::{replaces, strips};
use crate::ends::{with_list, with_value};
use crate::searching::{ends, finds, starts};
use crate::splitting::splits;
use object_operations::BuiltinMethod;
use rp_base::{Beyond, OpEnd, Value};
use std::alloc::Global;

/// A method of a text with these arguments: its value, the texts of its new list, its exception, or its way out of the
/// subset. `Drain` exactly for `join` with one argument, which has to be gone over: `join` then takes its items.
pub fn text_method(
    alloc: Global,
    text: &str,
    method: BuiltinMethod,
    arguments: &[Value],
) -> Result<TextAnswer, OpEnd>
    ensures answers { Answers (text_method text.now method arguments.now) result }
    ensures drain { is_drain result ≡ joins_one method arguments.now }
{
    match method {
        BuiltinMethod::EndsWith => with_value(ends(text, arguments)),
        BuiltinMethod::Find => with_value(finds(text, arguments)),
        BuiltinMethod::Join => joins(arguments),
        BuiltinMethod::Replace => with_value(replaces(alloc, text, arguments)),
        BuiltinMethod::Split => with_list(splits(alloc, text, arguments)),
        BuiltinMethod::StartsWith => with_value(starts(text, arguments)),
        BuiltinMethod::Strip => with_value(strips(alloc, text, arguments)),
        BuiltinMethod::Append
        | BuiltinMethod::Clear
        | BuiltinMethod::Extend
        | BuiltinMethod::Index
        | BuiltinMethod::Insert
        | BuiltinMethod::Pop
        | BuiltinMethod::Remove
        | BuiltinMethod::Reverse
        | BuiltinMethod::Get
        | BuiltinMethod::Items
        | BuiltinMethod::Keys
        | BuiltinMethod::SetDefault
        | BuiltinMethod::Values
        | BuiltinMethod::Eval
        | BuiltinMethod::Execute
        | BuiltinMethod::GetModule => Err(OpEnd::Beyond(Beyond::Arguments)),
    }
}

/// `join` with these arguments: one has to be gone over.
fn joins(arguments: &[Value]) -> Result<TextAnswer, OpEnd>
    ensures answers { (cs : List ℕ) → Answers (characters_method cs method.Join arguments.now) result }
    ensures drain { is_drain result ≡ joins_one method.Join arguments.now }
{
    match arguments {
        [_] => Ok(TextAnswer::Drain),
        _ => Err(OpEnd::Beyond(Beyond::Arguments)),
    }
}
