ghost use Rattle.std.specs.Prelude.{◌≡◌, ℕ, ◌==◌, ◌&&◌, ◌||◌, List, [], IfOk, OnOk, option_map, slice_get};
ghost use Rattle.py_mentions.specs.Members.{Knows, has_member};
ghost use Rattle.py_mentions.specs.Rules.{any_binds, bound_name, function_name, is_it, suite_binds, target_name};

use indexmap::IndexSet;
use py_ast::{Node, Program, Statement, Target};
use rp_base::NoMemory;
use std::alloc::Global;

/// The names that the suites of a script bind, each with the number of its suite.
#[derive(Drop)]
pub struct Members<'a> {
    pub set: IndexSet<(usize, &'a str)>,
}

impl<'a> Members<'a> {
    pub fn of(alloc: Global, program: &'a Program) -> Result<Members<'a>, NoMemory>
        ensures { IfOk result (λ m. Knows program.now m.set) }
    {
        let mut members = Members {
            set: IndexSet::new(alloc),
        };
        for suite in 0..program.nodes.len() {
            members.add_node(program, suite)?;
        }
        Ok(members)
    }

    /// Whether a suite binds the name.
    pub fn has(&self, suite: u32, name: &'a str) -> bool
        ensures { result ≡ has_member self.now.set suite name.now }
    {
        self.set.contains(&(suite as usize, name))
    }

    /// Adds what the node of this number binds, if it is a suite.
    fn add_node(&mut self, program: &'a Program, suite: usize) -> Result<(), NoMemory>
        ensures { OnOk result ((c : ℕ) → (t : List ℕ) → has_member self.new.set c t ≡ has_member self.old.set c t || ((suite == c) && suite_binds program.now t (slice_get program.now.nodes suite))) }
    {
        match program.nodes.get(suite) {
            Some(Node::Statement(Statement::Suite(statements))) => self.add_suite(
                program,
                suite,
                statements.as_slice(),
            ),
            _ => Ok(()),
        }
    }

    fn add_suite(
        &mut self,
        program: &'a Program,
        suite: usize,
        statements: &'a [u32],
    ) -> Result<(), NoMemory>
        ensures { OnOk result ((c : ℕ) → (t : List ℕ) → has_member self.new.set c t ≡ has_member self.old.set c t || ((suite == c) && any_binds program.now t statements.now)) }
    {
        for statement in statements {
            self.add(program, suite, *statement)?;
        }
        Ok(())
    }

    fn add(&mut self, program: &'a Program, suite: usize, statement: u32) -> Result<(), NoMemory>
        ensures { OnOk result ((c : ℕ) → (t : List ℕ) → has_member self.new.set c t ≡ has_member self.old.set c t || ((suite == c) && is_it t (bound_name program.now (slice_get program.now.nodes statement)))) }
    {
        if let Some(name) = bound_name(program, statement) {
            self.set.insert((suite, name))?;
        }
        Ok(())
    }
}

/// The name that a statement binds.
fn bound_name<'a>(program: &'a Program, statement: u32) -> Option<&'a str>
    ensures { option_map (λ n. n.now) result ≡ bound_name program.now (slice_get program.now.nodes statement) }
{
    match program.nodes.get(statement as usize) {
        Some(Node::Statement(Statement::Assign { target, .. })) => target_name(program, *target),
        Some(Node::Statement(Statement::Def(function))) => function_name(program, *function),
        _ => None,
    }
}

fn target_name<'a>(program: &'a Program, target: u32) -> Option<&'a str>
    ensures { option_map (λ n. n.now) result ≡ target_name (slice_get program.now.nodes target) }
{
    match program.nodes.get(target as usize) {
        Some(Node::Target(Target::Name(name))) => Some(name.as_str()),
        _ => None,
    }
}

fn function_name<'a>(program: &'a Program, function: u32) -> Option<&'a str>
    ensures { option_map (λ n. n.now) result ≡ function_name (slice_get program.now.functions function) }
{
    match program.functions.get(function as usize) {
        Some(info) => Some(info.name.as_str()),
        None => None,
    }
}
