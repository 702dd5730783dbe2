ghost use Rattle.std.specs.Prelude.{◌≡◌, ◌&&◌, not, false};
ghost use Rattle.rp_base.specs.declared.value.Value.TheVariants as value;
ghost use Rattle.language_rules.specs.PlainItems.{contains_in, contains_within};
ghost use Rattle.value_operators.specs.Answering.{AsksOnly, TestsUnlessAsked, is_plain};
ghost use Rattle.value_operators.specs.Finding.{is_among};

use crate::ends::fails;
use language_rules::places_are_least;
use py_strs::find_text;
use rp_base::{Beyond, ExcKind, OpEnd, Plain, Value, equal};
use std::alloc::Global;

/// Whether a value is in another, or None where one of the two is not plain. `Beyond(Compare)` for a byte string.
pub(crate) fn contains(
    alloc: Global,
    container: &Value,
    part: &Value,
) -> Result<Option<bool>, OpEnd>
    ensures tests { TestsUnlessAsked (contains_in container.now part.now) result }
    ensures asked { AsksOnly (not (is_plain part.now && is_plain container.now)) result }
{
    match (container, part) {
        (Value::Plain(container), Value::Plain(part)) => contains_plain(alloc, container, part),
        (Value::Plain(_), _) => Ok(None),
        _ => Ok(None),
    }
}

fn contains_plain(alloc: Global, container: &Plain, part: &Plain) -> Result<Option<bool>, OpEnd>
    ensures tests { TestsUnlessAsked (contains_within (value.Plain container.now) (value.Plain part.now)) result }
    ensures there { AsksOnly false result }
{
    match container {
        Plain::Text(text) => match part {
            Plain::Text(part) => {
                places_are_least();
                Ok(Some(find_text(text.as_str(), part.as_str()).is_some()))
            }
            _ => Err(fails(alloc, ExcKind::TypeError, "text expected")),
        },
        Plain::Bytes(_) => Err(OpEnd::Beyond(Beyond::Compare)),
        Plain::Tuple(items) => Ok(Some(is_among(part, items.as_slice()))),
        _ => Err(fails(alloc, ExcKind::TypeError, "not iterable")),
    }
}

/// Whether an item equals the value.
fn is_among(value: &Plain, items: &[Plain]) -> bool
    ensures { result ≡ is_among value.now items.now }
{
    for item in items {
        if equal(value, item) {
            return true;
        }
    }
    false
}
