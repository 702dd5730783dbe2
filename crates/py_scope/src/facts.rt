ghost use Rattle.std.specs.Prelude.{◌≡◌, ℕ, List, IfOk, length};
ghost use Rattle.py_scope.specs.Scopes.{parent_of, holding_by, holding_of, around, is_kept};
ghost use Rattle.py_scope.specs.Tables.{Knows};

use crate::classes::ClassTable;
use crate::holding::Holding;
use crate::locals::{LocalFacts, LocalTable};
use crate::names::NameTable;
use py_ast::FunctionInfo;
use py_mentions::Mention;
use rp_base::NoMemory;
use std::alloc::Global;

/// The mentions of a script and its functions, with what the mentions say.
#[derive(Drop)]
pub(crate) struct Facts<'a> {
    pub mentions: &'a [Mention],
    pub functions: &'a [FunctionInfo],
    pub locals: LocalTable<'a>,
    pub names: NameTable<'a>,
    pub classes: ClassTable,
}

fn holding_by(facts: LocalFacts) -> Holding
    ensures { result ≡ holding_by facts }
{
    if facts.is_global {
        Holding::Global
    } else if facts.is_nonlocal {
        Holding::Passes
    } else if facts.is_parameter || facts.is_bound {
        Holding::Own
    } else {
        Holding::Passes
    }
}

impl<'a> Facts<'a> {
    pub fn of(
        alloc: Global,
        mentions: &'a [Mention],
        functions: &'a [FunctionInfo],
    ) -> Result<Facts<'a>, NoMemory>
        ensures mentions { IfOk result (λ f. f.mentions.now ≡ mentions.now) }
        ensures functions { IfOk result (λ f. f.functions.now ≡ functions.now) }
        ensures known { IfOk result (λ f. Knows f) }
    {
        let locals = LocalTable::of(alloc, mentions)?;
        let names = NameTable::of(alloc, mentions, &locals)?;
        let classes = ClassTable::of(alloc, mentions)?;
        Ok(Facts {
            mentions,
            functions,
            locals,
            names,
            classes,
        })
    }

    /// The function around a function.
    pub fn parent(&self, function: u32) -> Option<u32>
        ensures { result ≡ parent_of self.now.functions.now function }
    {
        match self.functions.get(function as usize) {
            Some(info) => info.parent,
            None => None,
        }
    }

    /// What a function does with a name.
    pub fn holding(&self, function: u32, name: &'a str) -> Holding
        requires { Knows self.now }
        ensures { result ≡ holding_of self.now.mentions.now function name.now }
    {
        holding_by(self.locals.facts(function, name))
    }

    /// Whether, from this function outwards, the first that does not pass the name on has it as its own.
    pub fn is_kept(&self, from: Option<u32>, name: &'a str) -> bool
        requires { Knows self.now }
        ensures { result ≡ is_kept self.now.mentions.now (around self.now.functions.now from) name.now }
    {
        let mut here = from;
        for _step in 0..self.functions.len() {
            let Some(function) = here else {
                return false;
            };
            match self.holding(function, name) {
                Holding::Own => return true,
                Holding::Global => return false,
                Holding::Passes => here = self.parent(function),
            }
        }
        false
    }
}
