ghost use Rattle.std.specs.Prelude.{◌≡◌, ◌∷◌, ◌<◌, [], ℕ, List, chars, codes, length, map, string_bytes, IfOk, Err};
ghost use Rattle.rp_base.specs.declared.exceptions.ExcKind.TheVariants as kind;
ghost use Rattle.object_operations.specs.declared.method.BuiltinMethod.TheVariants as method;
ghost use Rattle.py_strs.specs.Joining.{characters};
ghost use Rattle.language_rules.specs.Going.{fails, text};
ghost use Rattle.language_rules.specs.TextFunctions.{pieces, words};
ghost use Rattle.language_rules.specs.TextMethods.{characters_method, list_of_texts, split_rule};
ghost use Rattle.text_methods.specs.TextAnswers.{Lists};

use crate::ends::fails;
use py_store::Values;
use py_strs::split_text;
use rp_base::{Beyond, ExcKind, NoMemory, OpEnd, Plain, Text, Value};
use std::alloc::Global;

/// The greatest number of items of a list.
const MOST_ITEMS: usize = 1_048_576;

/// `split` with these arguments.
pub(crate) fn splits(alloc: Global, text: &str, arguments: &[Value]) -> Result<Values, OpEnd>
    ensures { Lists (characters_method (chars text.now) method.Split arguments.now) result }
{
    match arguments {
        [] => words(alloc, text),
        [separator] => splits_at_value(alloc, text, separator),
        _ => Err(OpEnd::Beyond(Beyond::Arguments)),
    }
}

fn splits_at_value(alloc: Global, text: &str, separator: &Value) -> Result<Values, OpEnd>
    ensures { Lists (characters_method (chars text.now) method.Split (separator.now ∷ [])) result }
{
    match separator {
        Value::Plain(Plain::Text(separator)) => splits_at(alloc, text, separator.as_str()),
        _ => Err(OpEnd::Beyond(Beyond::Arguments)),
    }
}

/// The words of the text, as a new list.
fn words(alloc: Global, text: &str) -> Result<Values, OpEnd>
    ensures { Lists (list_of_texts (words (chars text.now))) result }
{
    match words_of(alloc, text) {
        Ok(pieces) => listed(alloc, pieces.as_slice()),
        Err(_) => Err(OpEnd::NoMemory),
    }
}

/// The words of the text: its runs without white space.
fn words_of(alloc: Global, text: &str) -> Result<Vec<String>, NoMemory>
    ensures { IfOk result (λ v. map characters v.items ≡ words (chars text.now)) }
{
    match split_text(alloc, text, None) {
        Ok(pieces) => Ok(pieces),
        Err(_) => Err(NoMemory),
    }
}

/// The pieces of the text between separators, as a new list; ValueError where the separator is empty.
fn splits_at(alloc: Global, text: &str, separator: &str) -> Result<Values, OpEnd>
    ensures { Lists (split_rule (chars text.now) (chars separator.now)) result }
{
    if separator.is_empty() {
        return Err(refused(alloc));
    }
    cut(alloc, text, separator)
}

fn refused(alloc: Global) -> OpEnd
    ensures { Lists (fails kind.ValueError (codes "empty separator")) (Err result) }
{
    fails(alloc, ExcKind::ValueError, "empty separator")
}

fn cut(alloc: Global, text: &str, separator: &str) -> Result<Values, OpEnd>
    requires { 0 < length separator.now }
    ensures { Lists (list_of_texts (pieces (chars separator.now) (chars text.now))) result }
{
    match pieces_of(alloc, text, separator) {
        Ok(pieces) => listed(alloc, pieces.as_slice()),
        Err(_) => Err(OpEnd::NoMemory),
    }
}

/// The pieces of the text between separators.
fn pieces_of(alloc: Global, text: &str, separator: &str) -> Result<Vec<String>, NoMemory>
    requires { 0 < length separator.now }
    ensures { IfOk result (λ v. map characters v.items ≡ pieces (chars separator.now) (chars text.now)) }
{
    match split_text(alloc, text, Some(separator)) {
        Ok(pieces) => Ok(pieces),
        Err(_) => Err(NoMemory),
    }
}

/// The items of a new list of these pieces, where they are not too many.
fn listed(alloc: Global, pieces: &[String]) -> Result<Values, OpEnd>
    ensures { Lists (list_of_texts (map characters pieces.now)) result }
{
    if pieces.len() > MOST_ITEMS {
        return Err(OpEnd::Beyond(Beyond::Size));
    }
    match texts(alloc, pieces) {
        Ok(items) => Ok(items),
        Err(_) => Err(OpEnd::NoMemory),
    }
}

/// The pieces, each as a value.
fn texts(alloc: Global, pieces: &[String]) -> Result<Values, NoMemory>
    ensures { IfOk result (λ items. items ≡ map (λ p. text (string_bytes p)) pieces.now) }
{
    let mut items = Values::new(alloc);
    for piece in pieces {
        items.push(Value::Plain(Plain::Text(Text::from_str(alloc, piece.as_str())?)))?;
    }
    Ok(items)
}
