ghost use Rattle.std.specs.Prelude.{◌≡◌, ◌<◌, IfOk, ℕ, suc, drop, length};
ghost use Rattle.language_rules.specs.Searching.{values_from, values_of};
ghost use Rattle.eval_searching.specs.Values.{behind_value, left_of_values};

use crate::found::found_at_once;
use crate::lists::Searched;
use py_store::Entries;
use rp_base::{NoMemory, Value};
use std::alloc::Global;

/// Searches the values of a dict from a position on, as far as no object has to be asked.
pub(crate) fn search_values_from(
    alloc: Global,
    entries: &Entries,
    start: usize,
    wanted: &Value,
) -> Result<Searched, NoMemory>
    ensures { IfOk result (λ r. (n shape : ℕ) → values_from n shape start wanted.now (drop start (values_of entries.now)) ≡ left_of_values n shape wanted.now (values_of entries.now) r) }
{
    let mut at = start;
    'entries: while at < entries.len() {
        match search_value_at(alloc, entries, at, wanted)? {
            Some(true) => return Ok(Searched::Found(at)),
            Some(false) => at += 1,
            None => return Ok(Searched::Asked(at)),
        }
    }
    Ok(Searched::Nowhere)
}

/// Searches the values behind a position.
pub(crate) fn search_values_behind(
    alloc: Global,
    entries: &Entries,
    position: u64,
    wanted: &Value,
) -> Result<Searched, NoMemory>
    ensures { IfOk result (λ r. (n shape : ℕ) → values_from n shape (suc position) wanted.now (drop (suc position) (values_of entries.now)) ≡ left_of_values n shape wanted.now (values_of entries.now) r) }
{
    if position < entries.len() as u64 {
        search_values_from(alloc, entries, position as usize + 1, wanted)
    } else {
        Ok(Searched::Nowhere)
    }
}

/// Whether the value is found in that at a position, which is one.
fn search_value_at(
    alloc: Global,
    entries: &Entries,
    at: usize,
    wanted: &Value,
) -> Result<Option<bool>, NoMemory>
    requires { at < length entries.now }
    ensures { IfOk result (λ r. (n shape : ℕ) → values_from n shape at wanted.now (drop at (values_of entries.now)) ≡ behind_value n shape at wanted.now (values_of entries.now) r) }
{
    found_at_once(alloc, wanted, entries.value_at(at))
}
