ghost use Rattle.std.specs.Prelude.{◌≡◌, ◌||◌, IfOk, false};
ghost use Rattle.language_rules.specs.Comparing.{same_object};
ghost use Rattle.language_rules.specs.Kinds.{is_reference};
ghost use Rattle.eval_searching.specs.Searched.{IsFound};

use crate::asking::one_refers;
use eval_comparing::{Answer, equal_values, same_object};
use rp_base::{NoMemory, Value};
use std::alloc::Global;

/// Whether a value is found in an item: they are one object, or equal. Without an answer an object has to be asked, or
/// they are tuples that are not compared.
pub(crate) fn found_at_once(
    alloc: Global,
    wanted: &Value,
    item: &Value,
) -> Result<Option<bool>, NoMemory>
    ensures { IfOk result (λ found. IsFound wanted.now item.now found) }
{
    if same_object(wanted, item) {
        Ok(Some(true))
    } else {
        equal_at_once(alloc, wanted, item)
    }
}

fn equal_at_once(alloc: Global, wanted: &Value, item: &Value) -> Result<Option<bool>, NoMemory>
    requires { same_object wanted.now item.now ≡ false }
    ensures { IfOk result (λ found. IsFound wanted.now item.now found) }
{
    if one_refers(wanted, item) {
        Ok(None)
    } else {
        compare_at_once(alloc, wanted, item)
    }
}

/// Two values that refer to no object.
fn compare_at_once(alloc: Global, wanted: &Value, item: &Value) -> Result<Option<bool>, NoMemory>
    requires apart { same_object wanted.now item.now ≡ false }
    requires unasked { (is_reference wanted.now || is_reference item.now) ≡ false }
    ensures { IfOk result (λ found. IsFound wanted.now item.now found) }
{
    match equal_values(alloc, wanted, item)? {
        Answer::Told(holds) => Ok(Some(holds)),
        Answer::Uneven => Ok(None),
        Answer::Asked(_) => Ok(None),
    }
}
