ghost use Rattle.std.specs.Prelude.{◌≡◌, ℕ, List, [], length, slice_get, Some, IfOk, OnOk, OnErr};
ghost use Rattle.py_scope.specs.Names.{with_name, Each};

use indexmap::IndexSet;
use rp_base::{NoMemory, Text};
use sqlite_items::Items;
use std::alloc::Global;
use std::marker::Model;

/// Names, each once, in the order in which they came. Contracts see their list.
#[derive(Drop)]
pub(crate) struct NameSet<'a> {
    set: IndexSet<&'a str>,
}

impl<'a> Model for NameSet<'a> {
    ghost use Rattle.std.specs.Prelude.{ℕ, List, map};

    ghost Value = { List (List ℕ) };

    ghost view = { λ s. map (λ k. k.now) s.set.keys };
}

impl<'a> NameSet<'a> {
    pub fn new(alloc: Global) -> NameSet<'a>
        ensures { result ≡ [] }
    {
        NameSet {
            set: IndexSet::new(alloc),
        }
    }

    /// Puts the name last, unless it is there.
    pub fn add(&mut self, name: &'a str) -> Result<(), NoMemory>
        ensures ok { OnOk result (self.new ≡ with_name self.old name.now) }
        ensures err { OnErr result (self.new ≡ self.old) }
    {
        self.set.insert_full(name)?;
        Ok(())
    }

    /// The names, as texts of their own.
    pub fn texts(&self, alloc: Global) -> Result<Items<Text>, NoMemory>
        ensures { IfOk result (λ t. t ≡ self.now) }
    {
        let mut texts = Items::new(alloc);
        for name in self.set.as_slice() {
            texts.push(Text::from_str(alloc, *name)?)?;
        }
        Ok(texts)
    }
}

/// So many sets with no name.
pub(crate) fn empty_sets<'a>(alloc: Global, count: usize) -> Result<Vec<NameSet<'a>>, NoMemory>
    ensures { IfOk result (λ v. Each count (λ f. []) v.items) }
{
    let mut sets = Vec::new(alloc);
    for _place in 0..count {
        sets.push(NameSet::new(alloc))?;
    }
    Ok(sets)
}
