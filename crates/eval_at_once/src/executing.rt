ghost use Rattle.std.specs.Prelude.{◌≡◌, option_copied, option_map, slice_get};
ghost use Rattle.side_trees.specs.Trees.{Return};
ghost use Rattle.language_rules.specs.Answers.{evaluated};
ghost use Rattle.language_rules.specs.Going.{done};
ghost use Rattle.language_rules.specs.Names.{binds_name};
ghost use Rattle.language_rules.specs.Texts.{node_of};
ghost use Rattle.eval_at_once.specs.Executed.{IsBound, IsExecuted, name_of, statement_of};

use crate::applying::{augment, named};
use crate::evaluating::{Evaluated, evaluate};
use eval_frames::node_at;
use eval_names::bind_name;
use object_operations::Env;
use py_ast::{Node, Program, Statement, Target};
use py_store::Store;
use rp_base::Text;
use std::alloc::Global;

/// The most levels of an expression that is evaluated at once.
pub const DEPTH: u32 = 8;

/// The statement is carried out, and so many units are left of those given. None where that is not to be had at once; then
/// nothing is changed.
pub fn execute(
    alloc: Global,
    store: &mut Store,
    texts: &[Program],
    env: Env,
    number: u32,
    units: u64,
) -> Option<u64>
    ensures { IsExecuted store.old store.new texts.now (evaluated env number) units result }
{
    let left = units.checked_sub(1)?;
    match statement_at(texts, env, number)? {
        &Statement::Assign { target, value } => {
            let name = name_at(texts, env, target)?;
            let right = evaluate(alloc, store, texts, env, value, left, DEPTH)?;
            bind(alloc, store, texts, env, name, right)
        }
        &Statement::Augmented { target, op, value } => {
            let name = name_at(texts, env, target)?;
            let old = named(alloc, store, texts, env, name, left)?;
            let right = evaluate(alloc, store, texts, env, value, left, DEPTH)?;
            let made = augment(alloc, op, old, right)?;
            bind(alloc, store, texts, env, name, made)
        }
        _ => None,
    }
}

/// The name stands for the value from now on.
fn bind(
    alloc: Global,
    store: &mut Store,
    texts: &[Program],
    env: Env,
    name: &str,
    evaluated: Evaluated,
) -> Option<u64>
    ensures { IsBound store.old store.new texts.now (binds_name env name.now evaluated.value (Return done)) evaluated.left result }
{
    let Evaluated { value, left } = evaluated;
    let Ok(name) = Text::from_str(alloc, name) else {
        return None;
    };
    match bind_name(alloc, store, texts, env, name, value) {
        Ok(()) => Some(left),
        Err(_) => None,
    }
}

/// The statement of this number.
fn statement_at(texts: &[Program], env: Env, number: u32) -> Option<&Statement>
    ensures { option_copied result ≡ statement_of (node_of (slice_get texts.now env.text) number) }
{
    match node_at(texts, env, number) {
        Some(Node::Statement(statement)) => Some(statement),
        _ => None,
    }
}

/// The name that the target of this number is.
fn name_at(texts: &[Program], env: Env, number: u32) -> Option<&str>
    ensures { option_map (λ name. name.now) result ≡ name_of (node_of (slice_get texts.now env.text) number) }
{
    match node_at(texts, env, number) {
        Some(Node::Target(Target::Name(name))) => Some(name.as_str()),
        _ => None,
    }
}
