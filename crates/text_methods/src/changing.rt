ghost use Rattle.std.specs.Prelude.{◌≡◌, ◌∷◌, [], chars, encode_utf8_all, IfOk};
ghost use Rattle.rp_base.specs.declared.plain.Plain.TheVariants as plain;
ghost use Rattle.rp_base.specs.declared.value.Value.TheVariants as value;
ghost use Rattle.object_operations.specs.declared.method.BuiltinMethod.TheVariants as method;
ghost use Rattle.language_rules.specs.AtOnce.{Computes};
ghost use Rattle.language_rules.specs.TextFunctions.{stripped};
ghost use Rattle.language_rules.specs.TextMethods.{characters_method, replace_rule};

use crate::ends::made;
use py_strs::{replace_text, strip_text};
use rp_base::{Beyond, NoMemory, OpEnd, Plain, Text, Value};
use std::alloc::Global;

/// `strip` with these arguments.
pub(crate) fn strips(alloc: Global, text: &str, arguments: &[Value]) -> Result<Value, OpEnd>
    ensures { Computes (characters_method (chars text.now) method.Strip arguments.now) result }
{
    match arguments {
        [] => match stripped(alloc, text) {
            Ok(part) => Ok(Value::Plain(Plain::Text(part))),
            Err(_) => Err(OpEnd::NoMemory),
        },
        _ => Err(OpEnd::Beyond(Beyond::Arguments)),
    }
}

/// The text without the white space at both ends.
fn stripped(alloc: Global, text: &str) -> Result<Text, NoMemory>
    ensures { IfOk result (λ t. t ≡ encode_utf8_all (stripped (chars text.now))) }
{
    Text::from_str(alloc, strip_text(text))
}

/// `replace` with these arguments.
pub(crate) fn replaces(alloc: Global, text: &str, arguments: &[Value]) -> Result<Value, OpEnd>
    ensures { Computes (characters_method (chars text.now) method.Replace arguments.now) result }
{
    match arguments {
        [old, new] => replaces_value(alloc, text, old, new),
        _ => Err(OpEnd::Beyond(Beyond::Arguments)),
    }
}

fn replaces_value(alloc: Global, text: &str, old: &Value, new: &Value) -> Result<Value, OpEnd>
    ensures { Computes (characters_method (chars text.now) method.Replace (old.now ∷ new.now ∷ [])) result }
{
    match old {
        Value::Plain(Plain::Text(old)) => replaces_text(alloc, text, old.as_str(), new),
        _ => Err(OpEnd::Beyond(Beyond::Arguments)),
    }
}

fn replaces_text(alloc: Global, text: &str, old: &str, new: &Value) -> Result<Value, OpEnd>
    ensures { Computes (characters_method (chars text.now) method.Replace (value.Plain (plain.Text old.now) ∷ new.now ∷ [])) result }
{
    match new {
        Value::Plain(Plain::Text(new)) => replace(alloc, text, old, new.as_str()),
        _ => Err(OpEnd::Beyond(Beyond::Arguments)),
    }
}

/// The text with `new` in the place of each `old`, which is not empty.
fn replace(alloc: Global, text: &str, old: &str, new: &str) -> Result<Value, OpEnd>
    ensures { Computes (replace_rule (chars text.now) (chars old.now) (chars new.now)) result }
{
    if old.is_empty() {
        return Err(OpEnd::Beyond(Beyond::Arguments));
    }
    made(replace_text(alloc, text, old, new))
}
