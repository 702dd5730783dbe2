ghost use Rattle.std.specs.Prelude.{◌≡◌, ◌∷◌, [], ℕ, List, Err, IfOk, false};
ghost use Rattle.rp_base.specs.declared.plain.Plain.TheVariants as plain;
ghost use Rattle.language_rules.specs.AtOnce.{Computes, EndsAs};
ghost use Rattle.language_rules.specs.Going.{RuleTree, raised};
ghost use Rattle.language_rules.specs.TextMethods.{made_text};
ghost use Rattle.text_methods.specs.TextAnswers.{Answers, Lists, Makes, NotMade, is_drain};

use crate::answers::TextAnswer;
use py_store::Values;
use py_strs::StrEnd;
use rp_base::{Beyond, ExcKind, NoMemory, OpEnd, Plain, Raised, Text, Value};
use sqlite_items::Items;
use std::alloc::Global;

/// The answer of a method that gives a value.
pub(crate) fn with_value(answer: Result<Value, OpEnd>) -> Result<TextAnswer, OpEnd>
    ensures answers { (t : RuleTree) → Computes t answer → Answers t result }
    ensures drain { is_drain result ≡ false }
{
    match answer {
        Ok(value) => Ok(TextAnswer::Value(value)),
        Err(end) => Err(end),
    }
}

/// The answer of a method that gives a new list.
pub(crate) fn with_list(answer: Result<Values, OpEnd>) -> Result<TextAnswer, OpEnd>
    ensures answers { (t : RuleTree) → Lists t answer → Answers t result }
    ensures drain { is_drain result ≡ false }
{
    match answer {
        Ok(items) => Ok(TextAnswer::List(items)),
        Err(end) => Err(end),
    }
}

/// The text that is made, or the end that it has.
pub(crate) fn made(answer: Result<String, StrEnd>) -> Result<Value, OpEnd>
    ensures { (cs : List ℕ) → Makes cs answer → Computes (made_text cs) result }
{
    match answer {
        Ok(text) => Ok(Value::Plain(Plain::Text(Text::from_string(text)))),
        Err(why) => Err(ended(why)),
    }
}

fn ended(why: StrEnd) -> OpEnd
    ensures { (cs : List ℕ) → NotMade cs why → Computes (made_text cs) (Err result) }
{
    match why {
        StrEnd::Size => OpEnd::Beyond(Beyond::Size),
        StrEnd::EmptySep | StrEnd::NoMemory => OpEnd::NoMemory,
    }
}

/// The end with an exception of this kind that has this text.
pub(crate) fn fails(alloc: Global, kind: ExcKind, text: &str) -> OpEnd
    ensures { EndsAs (raised kind (plain.Text text.now ∷ [])) result }
{
    match exception(alloc, kind, text) {
        Ok(raised) => OpEnd::Raise(raised),
        Err(_) => OpEnd::NoMemory,
    }
}

fn exception(alloc: Global, kind: ExcKind, text: &str) -> Result<Raised, NoMemory>
    ensures { IfOk result (λ r. r ≡ raised kind (plain.Text text.now ∷ [])) }
{
    let mut args = Items::new(alloc);
    args.push(Plain::Text(Text::from_str(alloc, text)?))?;
    Ok(Raised { kind, args })
}
