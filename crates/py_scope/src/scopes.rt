ghost use Rattle.std.specs.Prelude.{◌≡◌, ◌==◌, ℕ, List, [], length, slice_get, Some, IfOk, OnOk};
ghost use Rattle.py_scope.specs.Finished.{is_among, is_plain, binds_local, takes_through, other_locals, free_names, handled, handler_names};
ghost use Rattle.py_scope.specs.Names.{Added, Each, added_if};
ghost use Rattle.py_scope.specs.Scopes.{around, holding_of, passes, passing};
ghost use Rattle.py_scope.specs.Tables.{Knows};

use crate::facts::Facts;
use crate::forms::{binds, is_caught, looks_up};
use crate::holding::Holding;
use crate::locals::LocalFacts;
use crate::name_set::{NameSet, empty_sets};
use py_mentions::Mention;
use rp_base::NoMemory;
use std::alloc::Global;

/// Whether a name is neither a parameter nor declared.
fn is_plain(facts: LocalFacts) -> bool
    ensures { result ≡ is_plain facts }
{
    !(facts.is_parameter || facts.is_global || facts.is_nonlocal)
}

/// Adds the name to the set of a function.
fn add_at<'a>(sets: &mut Vec<NameSet<'a>>, function: u32, name: &'a str) -> Result<(), NoMemory>
    ensures { OnOk result (Added (λ g. function == g) name.now sets.old.items sets.new.items) }
{
    if function as usize >= sets.len() {
        return Ok(());
    }
    sets[function as usize].add(name)?;
    Ok(())
}

impl<'a> Facts<'a> {
    /// Adds the mention's name to the locals of its function, where it binds one that is no parameter.
    fn add_local(&self, sets: &mut Vec<NameSet<'a>>, mention: &'a Mention) -> Result<(), NoMemory>
        requires { Knows self.now }
        ensures { OnOk result (Added (λ f. binds_local self.now.mentions.now f mention.now) mention.now.name sets.old.items sets.new.items) }
    {
        let Some(function) = mention.function else {
            return Ok(());
        };
        let name = mention.name.as_str();
        if !binds(mention.form) || !is_plain(self.locals.facts(function, name)) {
            return Ok(());
        }
        add_at(sets, function, name)?;
        Ok(())
    }

    /// The locals of each function that are no parameters.
    pub fn other_locals(&self, alloc: Global) -> Result<Vec<NameSet<'a>>, NoMemory>
        requires { Knows self.now }
        ensures { IfOk result (λ v. Each (length self.now.functions.now) (other_locals self.now.mentions.now self.now.mentions.now) v.items) }
    {
        let mut sets = empty_sets(alloc, self.functions.len())?;
        for mention in self.mentions {
            self.add_local(&mut sets, mention)?;
        }
        Ok(sets)
    }

    /// Whether the function leaves the name to those around it.
    fn passes(&self, function: u32, name: &'a str) -> bool
        requires { Knows self.now }
        ensures { result ≡ passes (holding_of self.now.mentions.now function name.now) }
    {
        matches!(self.holding(function, name), Holding::Passes)
    }

    /// Adds the name to the sets of the functions, from this one outwards, that pass it on.
    fn add_to_passing(
        &self,
        sets: &mut Vec<NameSet<'a>>,
        from: Option<u32>,
        name: &'a str,
    ) -> Result<(), NoMemory>
        requires { Knows self.now }
        ensures { OnOk result (Added (is_among (passing self.now.mentions.now (around self.now.functions.now from) name.now)) name.now sets.old.items sets.new.items) }
    {
        let mut here = from;
        for _step in 0..self.functions.len() {
            let Some(function) = here else {
                return Ok(());
            };
            if !self.passes(function, name) {
                return Ok(());
            }
            add_at(sets, function, name)?;
            here = self.parent(function);
        }
        Ok(())
    }

    /// Adds the mention's name to what the functions through which it is taken from around take.
    fn add_free(&self, sets: &mut Vec<NameSet<'a>>, mention: &'a Mention) -> Result<(), NoMemory>
        requires { Knows self.now }
        ensures { OnOk result (Added (λ f. takes_through self.now.mentions.now self.now.functions.now f mention.now) mention.now.name sets.old.items sets.new.items) }
    {
        let name = mention.name.as_str();
        if !looks_up(mention.form) || !self.is_kept(mention.function, name) {
            return Ok(());
        }
        self.add_to_passing(sets, mention.function, name)?;
        Ok(())
    }

    /// The names that each function takes from around it, for itself or for functions inside it.
    pub fn free_names(&self, alloc: Global) -> Result<Vec<NameSet<'a>>, NoMemory>
        requires { Knows self.now }
        ensures { IfOk result (λ v. Each (length self.now.functions.now) (free_names self.now.mentions.now self.now.functions.now self.now.mentions.now) v.items) }
    {
        let mut sets = empty_sets(alloc, self.functions.len())?;
        for mention in self.mentions {
            self.add_free(&mut sets, mention)?;
        }
        Ok(sets)
    }
}

/// The names after `as`, each once, in the order in which the script has them.
pub(crate) fn handler_names<'a>(
    alloc: Global,
    mentions: &'a [Mention],
) -> Result<NameSet<'a>, NoMemory>
    ensures { IfOk result (λ s. s ≡ handler_names mentions.now) }
{
    let mut names = NameSet::new(alloc);
    for mention in mentions {
        add_handler(&mut names, mention)?;
    }
    Ok(names)
}

/// Adds the mention's name where it comes after `as`.
fn add_handler<'a>(names: &mut NameSet<'a>, mention: &'a Mention) -> Result<(), NoMemory>
    ensures { OnOk result (names.new ≡ added_if (handled mention.now) mention.now.name names.old) }
{
    if is_caught(mention.form) {
        return names.add(mention.name.as_str());
    }
    Ok(())
}
