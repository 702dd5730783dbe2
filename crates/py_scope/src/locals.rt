ghost use Rattle.std.specs.Prelude.{◌≡◌, ℕ, List, [], IfOk, OnOk};
ghost use Rattle.py_scope.specs.Tables.{local_in, local_with, local_noted, KnowsLocals};

use crate::forms::{binds, is_global, is_nonlocal, is_parameter, uses};
use indexmap::IndexMap;
use py_mentions::{Form, Mention};
use rp_base::NoMemory;
use std::alloc::Global;

/// What the mentions of a name in a function say of it.
#[derive(Clone, Copy)]
pub(crate) struct LocalFacts {
    pub is_parameter: bool,
    pub is_bound: bool,
    pub is_global: bool,
    pub is_nonlocal: bool,
    /// It is bound or read.
    pub is_used: bool,
}

const NO_LOCAL: LocalFacts = LocalFacts {
    is_parameter: false,
    is_bound: false,
    is_global: false,
    is_nonlocal: false,
    is_used: false,
};

impl LocalFacts {
    /// The facts with one mention more, in this form.
    fn with(&self, form: Form) -> LocalFacts
        ensures { result ≡ local_with form self.now }
    {
        LocalFacts {
            is_parameter: self.is_parameter || is_parameter(form),
            is_bound: self.is_bound || binds(form),
            is_global: self.is_global || is_global(form),
            is_nonlocal: self.is_nonlocal || is_nonlocal(form),
            is_used: self.is_used || uses(form),
        }
    }
}

/// What mentions say of each name in each function.
#[derive(Drop)]
pub(crate) struct LocalTable<'a> {
    pub map: IndexMap<(u32, &'a str), LocalFacts>,
}

impl<'a> LocalTable<'a> {
    pub fn new(alloc: Global) -> LocalTable<'a>
        ensures { result.map.entries ≡ [] }
    {
        LocalTable {
            map: IndexMap::new(alloc),
        }
    }

    pub fn facts(&self, function: u32, name: &'a str) -> LocalFacts
        ensures { result ≡ local_in self.now.map function name.now }
    {
        match self.map.get(&(function, name)) {
            Some(facts) => *facts,
            None => NO_LOCAL,
        }
    }

    /// Takes one mention more in.
    pub fn note(&mut self, mention: &'a Mention) -> Result<(), NoMemory>
        ensures { OnOk result ((f : ℕ) → (n : List ℕ) → local_in self.new.map f n ≡ local_noted mention.now f n (local_in self.old.map f n)) }
    {
        let Some(function) = mention.function else {
            return Ok(());
        };
        let name = mention.name.as_str();
        let facts = self.facts(function, name).with(mention.form);
        self.map.insert((function, name), facts)?;
        Ok(())
    }

    /// What these mentions say.
    pub fn of(alloc: Global, mentions: &'a [Mention]) -> Result<LocalTable<'a>, NoMemory>
        ensures { IfOk result (λ t. KnowsLocals mentions.now t.map) }
    {
        let mut table = LocalTable::new(alloc);
        for mention in mentions {
            table.note(mention)?;
        }
        Ok(table)
    }
}
