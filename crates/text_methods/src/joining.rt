ghost use Rattle.std.specs.Prelude.{◌≡◌, chars, map, IfOk, option_map};
ghost use Rattle.py_strs.specs.Joining.{characters, joined};
ghost use Rattle.language_rules.specs.AtOnce.{Computes};
ghost use Rattle.language_rules.specs.TextMethods.{all_characters, join_rule, made_text};

use crate::ends::{fails, made};
use py_strs::join_texts;
use rp_base::{ExcKind, NoMemory, OpEnd, Plain, Value};
use std::alloc::Global;

/// `join` of these items: the texts in a row, with the text between two of them. TypeError where one is no text, and
/// `Beyond(Size)` where the whole would weigh more than a value may.
pub fn join(alloc: Global, text: &str, items: &[Value]) -> Result<Value, OpEnd>
    ensures { Computes (join_rule (chars text.now) (all_characters items.now)) result }
{
    match all_texts(alloc, items) {
        Ok(Some(parts)) => joined(alloc, text, parts.as_slice()),
        Ok(None) => Err(fails(alloc, ExcKind::TypeError, "text expected")),
        Err(_) => Err(OpEnd::NoMemory),
    }
}

fn joined(alloc: Global, text: &str, parts: &[String]) -> Result<Value, OpEnd>
    ensures { Computes (made_text (joined (chars text.now) (map characters parts.now))) result }
{
    made(join_texts(alloc, text, parts))
}

/// The texts that these are, where all are texts.
fn all_texts(alloc: Global, items: &[Value]) -> Result<Option<Vec<String>>, NoMemory>
    ensures { IfOk result (λ parts. option_map (λ v. map characters v.items) parts ≡ all_characters items.now) }
{
    let mut parts = Vec::new(alloc);
    for item in items {
        match item {
            Value::Plain(Plain::Text(text)) => parts.push(String::from_str(alloc, text.as_str())?)?,
            _ => return Ok(None),
        }
    }
    Ok(Some(parts))
}
