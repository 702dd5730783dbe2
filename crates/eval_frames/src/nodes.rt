ghost use Rattle.std.specs.Prelude.{◌≡◌, IfOk, option_copied, reverse, slice_get};
ghost use Rattle.language_rules.specs.Texts.{node_of};

use object_operations::Env;
use py_ast::{Node, Program};
use rp_base::NoMemory;
use sqlite_items::Items;
use std::alloc::Global;

/// The node of this number in the text that runs.
pub fn node_at(texts: &[Program], env: Env, number: u32) -> Option<&Node>
    ensures { option_copied result ≡ node_of (slice_get texts.now env.text) number }
{
    texts
        .get(env.text as usize)?
        .nodes
        .as_slice()
        .get(number as usize)
}

/// These numbers, the last first, so that the next one is taken from the end.
pub fn waiting_numbers(alloc: Global, numbers: &[u32]) -> Result<Items<u32>, NoMemory>
    ensures { IfOk result (λ waiting. reverse waiting ≡ numbers.now) }
{
    let mut waiting = Vec::from_slice(alloc, numbers)?;
    waiting.reverse();
    Ok(Items::from_vec(waiting))
}
