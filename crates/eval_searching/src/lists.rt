ghost use Rattle.std.specs.Prelude.{◌≡◌, ◌<◌, IfOk, ℕ, suc, drop, length};
ghost use Rattle.language_rules.specs.Searching.{searches_from};
ghost use Rattle.eval_searching.specs.Searched.{behind_item, left_of_search};

use crate::found::found_at_once;
use rp_base::{NoMemory, Value};
use std::alloc::Global;

/// How far a search has come.
#[derive(Clone, Copy, Debug, PartialEq, Eq)]
pub(crate) enum Searched {
    /// The value is in no item.
    Nowhere,
    /// It is found at this position.
    Found(usize),
    /// The item at this position has to be compared with it.
    Asked(usize),
}

/// Searches the items from a position on, as far as no object has to be asked.
pub(crate) fn search_from(
    alloc: Global,
    items: &[Value],
    start: usize,
    wanted: &Value,
) -> Result<Searched, NoMemory>
    ensures { IfOk result (λ r. (n : ℕ) → searches_from n start wanted.now (drop start items.now) ≡ left_of_search n wanted.now items.now r) }
{
    let mut at = start;
    'items: while at < items.len() {
        match search_at(alloc, items, at, wanted)? {
            Some(true) => return Ok(Searched::Found(at)),
            Some(false) => at += 1,
            None => return Ok(Searched::Asked(at)),
        }
    }
    Ok(Searched::Nowhere)
}

/// Searches the items behind a position.
pub(crate) fn search_behind(
    alloc: Global,
    items: &[Value],
    position: u64,
    wanted: &Value,
) -> Result<Searched, NoMemory>
    ensures { IfOk result (λ r. (n : ℕ) → searches_from n (suc position) wanted.now (drop (suc position) items.now) ≡ left_of_search n wanted.now items.now r) }
{
    if position < items.len() as u64 {
        search_from(alloc, items, position as usize + 1, wanted)
    } else {
        Ok(Searched::Nowhere)
    }
}

/// Whether the value is found in the item at a position, which is one.
fn search_at(
    alloc: Global,
    items: &[Value],
    at: usize,
    wanted: &Value,
) -> Result<Option<bool>, NoMemory>
    requires { at < length items.now }
    ensures { IfOk result (λ r. (n : ℕ) → searches_from n at wanted.now (drop at items.now) ≡ behind_item n at wanted.now items.now r) }
{
    found_at_once(alloc, wanted, &items[at])
}
