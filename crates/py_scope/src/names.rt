ghost use Rattle.std.specs.Prelude.{◌≡◌, ℕ, List, [], IfOk, OnOk};
ghost use Rattle.py_scope.specs.Facts.{in_script};
ghost use Rattle.py_scope.specs.Tables.{name_in, name_with, name_noted, lesser, class_number, KnowsNames, KnowsLocals};

use crate::forms::{binds, is_base, is_caught, is_class};
use crate::locals::LocalTable;
use indexmap::IndexMap;
use py_mentions::Mention;
use rp_base::NoMemory;
use std::alloc::Global;

/// What the mentions of a name say of it.
#[derive(Clone, Copy)]
pub(crate) struct NameFacts {
    /// It comes after `as`.
    pub is_handled: bool,
    pub is_base: bool,
    /// It is bound as the script's own otherwise than by a class statement.
    pub is_rebound: bool,
    /// The first class statement that has it.
    pub first_class: Option<u32>,
}

const NO_NAME: NameFacts = NameFacts {
    is_handled: false,
    is_base: false,
    is_rebound: false,
    first_class: None,
};

fn lesser(a: Option<u32>, b: Option<u32>) -> Option<u32>
    ensures { result ≡ lesser a b }
{
    match (a, b) {
        (None, _) => b,
        (Some(_), None) => a,
        (Some(first), Some(second)) => Some(first.min(second)),
    }
}

/// The number of the class statement whose name this is.
fn class_number(mention: &Mention) -> Option<u32>
    ensures { result ≡ class_number mention.now }
{
    if is_class(mention.form) {
        mention.class
    } else {
        None
    }
}

impl NameFacts {
    /// The facts with one mention more. Where it binds the name, that is the script's own or not.
    fn with(&self, mention: &Mention, is_own: bool) -> NameFacts
        ensures { result ≡ name_with mention.now is_own self.now }
    {
        NameFacts {
            is_handled: self.is_handled || is_caught(mention.form),
            is_base: self.is_base || is_base(mention.form),
            is_rebound: self.is_rebound
                || (binds(mention.form) && !is_class(mention.form) && is_own),
            first_class: lesser(self.first_class, class_number(mention)),
        }
    }
}

/// What mentions say of each name.
#[derive(Drop)]
pub(crate) struct NameTable<'a> {
    pub map: IndexMap<&'a str, NameFacts>,
}

impl<'a> NameTable<'a> {
    pub fn new(alloc: Global) -> NameTable<'a>
        ensures { result.map.entries ≡ [] }
    {
        NameTable {
            map: IndexMap::new(alloc),
        }
    }

    pub fn facts(&self, name: &str) -> NameFacts
        ensures { result ≡ name_in self.now.map name.now }
    {
        match self.map.get(name) {
            Some(facts) => *facts,
            None => NO_NAME,
        }
    }

    /// Takes one mention more in.
    fn note(&mut self, mention: &'a Mention, is_own: bool) -> Result<(), NoMemory>
        ensures { OnOk result ((n : List ℕ) → name_in self.new.map n ≡ name_noted mention.now is_own n (name_in self.old.map n)) }
    {
        let name = mention.name.as_str();
        let facts = self.facts(name).with(mention, is_own);
        self.map.insert(name, facts)?;
        Ok(())
    }

    /// What these mentions say. `locals` says what they say of names in functions.
    pub fn of(
        alloc: Global,
        mentions: &'a [Mention],
        locals: &LocalTable<'a>,
    ) -> Result<NameTable<'a>, NoMemory>
        requires { KnowsLocals mentions.now locals.now.map }
        ensures { IfOk result (λ t. KnowsNames mentions.now mentions.now t.map) }
    {
        let mut table = NameTable::new(alloc);
        for mention in mentions {
            table.note(mention, is_own(mention, locals))?;
        }
        Ok(table)
    }
}

/// Whether a name that is bound where this mention stands is the script's own.
fn is_own<'a>(mention: &'a Mention, locals: &LocalTable<'a>) -> bool
    ensures { (ms : List Mention) → KnowsLocals ms locals.now.map → result ≡ in_script ms mention.now.function mention.now.name }
{
    match mention.function {
        None => true,
        Some(function) => locals.facts(function, mention.name.as_str()).is_global,
    }
}
