ghost use Rattle.std.specs.Prelude.{◌≡◌, ℕ, List, [], IfOk, Some};
ghost use Rattle.py_store.specs.declared.cell.Cell.TheVariants as cell;
ghost use Rattle.eval_frames.specs.Meaning.{RunsAs};
ghost use Rattle.language_rules.specs.Going.{RuleTree, sets_cell};
ghost use Rattle.language_rules.specs.Programs.{reserves, with_names};
ghost use Rattle.language_rules.specs.States.{State, cell_at, namespace_number};
ghost use Rattle.language_rules.specs.Texts.{has_name};

use rp_base::{NoMemory, Text};
use sqlite_items::Items;
use std::alloc::Global;

/// Each of these names once, in the order in which they come first.
pub fn reserved_names(alloc: Global, names: &[Text]) -> Result<Items<Text>, NoMemory>
    ensures { IfOk result (λ reserved. reserved ≡ with_names names.now []) }
{
    let mut reserved: Items<Text> = Items::new(alloc);
    for name in names {
        if !has_name(name.as_str(), reserved.as_slice()) {
            reserved.push(name.copy(alloc)?)?;
        }
    }
    Ok(reserved)
}

/// Whether the name is among these.
fn has_name(name: &str, others: &[Text]) -> bool
    ensures { result ≡ has_name name.now others.now }
{
    for other in others {
        if name == other.as_str() {
            return true;
        }
    }
    false
}

/// Where no exception is being handled and no name is bound or reserved yet, the names of a text are reserved, each once.
pub fn a_first_text_reserves_its_names()
    ensures { (s : State) (names : List (List ℕ)) (t : RuleTree) → s.handled ≡ [] → cell_at s namespace_number ≡ Some (cell.Namespace [] []) → RunsAs s (reserves names t) (sets_cell namespace_number (cell.Namespace [] (with_names names [])) t) }
{}
