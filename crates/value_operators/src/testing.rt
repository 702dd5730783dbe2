ghost use Rattle.language_rules.specs.Kinds.{is_reference};
ghost use Rattle.language_rules.specs.Truth.{truth_step};
ghost use Rattle.value_operators.specs.Answering.{AsksOnly, TellsUnlessAsked};

use crate::ends::end_of;
use py_plain::plain_truth;
use rp_base::{OpEnd, Value};

/// Whether a value is true, or None where an object has to be asked. `Beyond(Truth)` for NotImplemented.
pub fn truth(value: &Value) -> Result<Option<bool>, OpEnd>
    ensures tells { TellsUnlessAsked (truth_step value.now) result }
    ensures asked { AsksOnly (is_reference value.now) result }
{
    match value {
        Value::Plain(plain) => match plain_truth(plain) {
            Ok(holds) => Ok(Some(holds)),
            Err(end) => Err(end_of(end)),
        },
        Value::Tuple(_) => Ok(Some(true)),
        Value::Own(_) => Ok(None),
        Value::Proxy(_) => Ok(None),
    }
}
