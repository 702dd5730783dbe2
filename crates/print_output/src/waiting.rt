ghost use Rattle.std.specs.Prelude.{◌≡◌, IfOk, reverse};
ghost use Rattle.builtin_functions.specs.AtHand.{is_plain};
ghost use Rattle.language_rules.specs.Kinds.{is_reference};

use rp_base::{NoMemory, Value};
use sqlite_items::Items;
use std::alloc::Global;

/// The values, the last first.
pub(crate) fn reversed(alloc: Global, mut values: Items<Value>) -> Result<Items<Value>, NoMemory>
    ensures { IfOk result (λ waiting. reverse waiting ≡ values) }
{
    let mut waiting = Items::new(alloc);
    'values: while let Some(value) = values.pop() {
        waiting.push(value)?;
    }
    Ok(waiting)
}

pub(crate) fn is_plain(value: &Value) -> bool
    ensures { result ≡ is_plain value.now }
{
    matches!(value, Value::Plain(_))
}

pub(crate) fn is_reference(value: &Value) -> bool
    ensures { result ≡ is_reference value.now }
{
    match value {
        Value::Own(_) => true,
        Value::Proxy(_) => true,
        Value::Plain(_) => false,
        Value::Tuple(_) => false,
    }
}
