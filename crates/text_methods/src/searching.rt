ghost use Rattle.std.specs.Prelude.{◌≡◌, ◌∷◌, [], chars};
ghost use Rattle.object_operations.specs.declared.method.BuiltinMethod.TheVariants as method;
ghost use Rattle.language_rules.specs.AtOnce.{Computes};
ghost use Rattle.language_rules.specs.TextFunctions.{begins_with, ends_in, find, least_place};
ghost use Rattle.language_rules.specs.TextMethods.{characters_method};

use py_strs::{ends_with, find_text, starts_with};
use rp_base::{Beyond, OpEnd, Plain, Value};

/// `startswith` with these arguments.
pub(crate) fn starts(text: &str, arguments: &[Value]) -> Result<Value, OpEnd>
    ensures { Computes (characters_method (chars text.now) method.StartsWith arguments.now) result }
{
    match arguments {
        [part] => starts_with_value(text, part),
        _ => Err(OpEnd::Beyond(Beyond::Arguments)),
    }
}

fn starts_with_value(text: &str, part: &Value) -> Result<Value, OpEnd>
    ensures { Computes (characters_method (chars text.now) method.StartsWith (part.now ∷ [])) result }
{
    match part {
        Value::Plain(Plain::Text(part)) => Ok(Value::Plain(Plain::Bool(begins(
            text,
            part.as_str(),
        )))),
        _ => Err(OpEnd::Beyond(Beyond::Arguments)),
    }
}

fn begins(text: &str, part: &str) -> bool
    ensures { result ≡ begins_with (chars text.now) (chars part.now) }
{
    starts_with(text, part)
}

/// `endswith` with these arguments.
pub(crate) fn ends(text: &str, arguments: &[Value]) -> Result<Value, OpEnd>
    ensures { Computes (characters_method (chars text.now) method.EndsWith arguments.now) result }
{
    match arguments {
        [part] => ends_with_value(text, part),
        _ => Err(OpEnd::Beyond(Beyond::Arguments)),
    }
}

fn ends_with_value(text: &str, part: &Value) -> Result<Value, OpEnd>
    ensures { Computes (characters_method (chars text.now) method.EndsWith (part.now ∷ [])) result }
{
    match part {
        Value::Plain(Plain::Text(part)) => Ok(Value::Plain(Plain::Bool(ends_in(
            text,
            part.as_str(),
        )))),
        _ => Err(OpEnd::Beyond(Beyond::Arguments)),
    }
}

fn ends_in(text: &str, part: &str) -> bool
    ensures { result ≡ ends_in (chars text.now) (chars part.now) }
{
    ends_with(text, part)
}

/// `find` with these arguments.
pub(crate) fn finds(text: &str, arguments: &[Value]) -> Result<Value, OpEnd>
    ensures { Computes (characters_method (chars text.now) method.Find arguments.now) result }
{
    match arguments {
        [part] => finds_value(text, part),
        _ => Err(OpEnd::Beyond(Beyond::Arguments)),
    }
}

fn finds_value(text: &str, part: &Value) -> Result<Value, OpEnd>
    ensures { Computes (characters_method (chars text.now) method.Find (part.now ∷ [])) result }
{
    match part {
        Value::Plain(Plain::Text(part)) => Ok(Value::Plain(Plain::Int(find(text, part.as_str())))),
        _ => Err(OpEnd::Beyond(Beyond::Arguments)),
    }
}

/// The least place of the part, and -1 where there is none.
fn find(text: &str, part: &str) -> i128
    ensures { result ≡ find (chars text.now) (chars part.now) }
{
    match least_place(text, part) {
        Some(place) => i128::from(place),
        None => -1,
    }
}

fn least_place(text: &str, part: &str) -> Option<u64>
    ensures { result ≡ least_place (chars text.now) (chars part.now) }
{
    find_text(text, part)
}
