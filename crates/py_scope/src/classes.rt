ghost use Rattle.std.specs.Prelude.{◌≡◌, ℕ, List, [], IfOk, OnOk};
ghost use Rattle.py_scope.specs.Tables.{class_in, class_with, class_noted, KnowsClasses};

use crate::forms::{is_base, is_method};
use crate::words::is_operator;
use indexmap::IndexMap;
use py_mentions::Mention;
use rp_base::NoMemory;
use std::alloc::Global;

/// What the mentions of a class statement say of it.
#[derive(Clone, Copy)]
pub(crate) struct ClassFacts {
    pub has_base: bool,
    /// It defines a method for comparisons or for arithmetic.
    pub has_operator: bool,
}

const NO_CLASS: ClassFacts = ClassFacts {
    has_base: false,
    has_operator: false,
};

impl ClassFacts {
    /// The facts with one mention more.
    fn with(&self, mention: &Mention) -> ClassFacts
        ensures { result ≡ class_with mention.now self.now }
    {
        ClassFacts {
            has_base: self.has_base || is_base(mention.form),
            has_operator: self.has_operator
                || (is_method(mention.form) && is_operator(mention.name.as_str())),
        }
    }
}

/// What mentions say of each class statement.
#[derive(Drop)]
pub(crate) struct ClassTable {
    pub map: IndexMap<u32, ClassFacts>,
}

impl ClassTable {
    pub fn new(alloc: Global) -> ClassTable
        ensures { result.map.entries ≡ [] }
    {
        ClassTable {
            map: IndexMap::new(alloc),
        }
    }

    pub fn facts(&self, class: u32) -> ClassFacts
        ensures { result ≡ class_in self.now.map class }
    {
        match self.map.get(&class) {
            Some(facts) => *facts,
            None => NO_CLASS,
        }
    }

    /// Takes one mention more in.
    fn note(&mut self, mention: &Mention) -> Result<(), NoMemory>
        ensures { OnOk result ((k : ℕ) → class_in self.new.map k ≡ class_noted mention.now k (class_in self.old.map k)) }
    {
        let Some(class) = mention.class else {
            return Ok(());
        };
        let facts = self.facts(class).with(mention);
        self.map.insert(class, facts)?;
        Ok(())
    }

    /// What these mentions say.
    pub fn of(alloc: Global, mentions: &[Mention]) -> Result<ClassTable, NoMemory>
        ensures { IfOk result (λ t. KnowsClasses mentions.now t.map) }
    {
        let mut table = ClassTable::new(alloc);
        for mention in mentions {
            table.note(mention)?;
        }
        Ok(table)
    }
}
