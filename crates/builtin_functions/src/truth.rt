ghost use Rattle.language_rules.specs.AtOnce.{ComputesUnlessAsked};
ghost use Rattle.language_rules.specs.Codes.{Gives};
ghost use Rattle.language_rules.specs.Going.{boolean};
ghost use Rattle.language_rules.specs.Kinds.{is_reference};
ghost use Rattle.language_rules.specs.Truth.{on_truth};
ghost use Rattle.side_trees.specs.Trees.{Return};
ghost use Rattle.builtin_functions.specs.AtHand.{NoneOnlyWhere};

use py_plain::{PlainEnd, plain_truth};
use rp_base::{OpEnd, Plain, Value};

/// `bool(v)`: whether a value is true; None where an object has to be asked.
pub(crate) fn truth_of(value: &Value) -> Result<Option<Value>, OpEnd>
    ensures computes { ComputesUnlessAsked (on_truth value.now (λ b. Return (Gives (boolean b)))) result }
    ensures asked { NoneOnlyWhere (is_reference value.now) result }
{
    match value {
        Value::Plain(plain) => match plain_truth(plain) {
            Ok(truth) => Ok(Some(Value::Plain(Plain::Bool(truth)))),
            Err(PlainEnd::Raise(raised)) => Err(OpEnd::Raise(raised)),
            Err(PlainEnd::Beyond(beyond)) => Err(OpEnd::Beyond(beyond)),
            Err(PlainEnd::NoMemory) => Err(OpEnd::NoMemory),
        },
        Value::Tuple(_) => Ok(Some(Value::Plain(Plain::Bool(true)))),
        Value::Own(_) => Ok(None),
        Value::Proxy(_) => Ok(None),
    }
}
