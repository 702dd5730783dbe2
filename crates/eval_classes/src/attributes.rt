ghost use Rattle.std.specs.Prelude.{◌≡◌, IfOk, List, option_map, slice_get};
ghost use Rattle.py_store.specs.Bindings.{with_binding};
ghost use Rattle.py_store.specs.declared.cell.Cell.{Cell};
ghost use Rattle.language_rules.specs.AtOnce.{stated};
ghost use Rattle.language_rules.specs.Classes.{with_member};
ghost use Rattle.language_rules.specs.States.{State};
ghost use Rattle.language_rules.specs.Texts.{function_of, node_of, on_statement};
ghost use Rattle.eval_classes.specs.Bodies.{FindsAttributes, named_target};

use eval_frames::node_at;
use eval_names::function_at;
use object_operations::Env;
use py_ast::{Node, Program, Statement, Target};
use py_store::{Binding, bind};
use rp_base::{NoMemory, Text, Value};
use sqlite_items::Items;
use std::alloc::Global;

/// The attributes with that of the statement of this number, which gave this value. None where the text has no such
/// statement.
pub(crate) fn add_member(
    alloc: Global,
    texts: &[Program],
    env: Env,
    number: u32,
    attributes: Items<Binding>,
    value: Value,
) -> Result<Option<Items<Binding>>, NoMemory>
    ensures { IfOk result (λ found. (fixed : State) (cells : List Cell) → FindsAttributes (stated fixed cells texts.now) (λ f. on_statement env number (with_member env attributes value f)) found) }
{
    match node_at(texts, env, number) {
        Some(Node::Statement(statement)) => {
            add_statement(alloc, texts, env, statement, attributes, value)
        }
        _ => Ok(None),
    }
}

/// The same, for this statement.
fn add_statement(
    alloc: Global,
    texts: &[Program],
    env: Env,
    statement: &Statement,
    attributes: Items<Binding>,
    value: Value,
) -> Result<Option<Items<Binding>>, NoMemory>
    ensures { IfOk result (λ found. (fixed : State) (cells : List Cell) → FindsAttributes (stated fixed cells texts.now) (λ f. with_member env attributes value f statement.now) found) }
{
    match *statement {
        Statement::Def(function) => {
            let name = method_name(alloc, texts, env, function)?;
            add(name, attributes, value)
        }
        Statement::Assign { target, .. } => {
            let name = target_name(alloc, texts, env, target)?;
            add(name, attributes, value)
        }
        _ => Ok(Some(attributes)),
    }
}

/// The name of the function of this number.
fn method_name(
    alloc: Global,
    texts: &[Program],
    env: Env,
    function: u32,
) -> Result<Option<Text>, NoMemory>
    ensures { IfOk result (λ name. name ≡ option_map (λ info. info.name) (function_of (slice_get texts.now env.text) function)) }
{
    match function_at(texts, env.text, function) {
        Some(info) => Ok(Some(info.name.copy(alloc)?)),
        None => Ok(None),
    }
}

/// The name that the target of this number is.
fn target_name(
    alloc: Global,
    texts: &[Program],
    env: Env,
    target: u32,
) -> Result<Option<Text>, NoMemory>
    ensures { IfOk result (λ name. name ≡ named_target (node_of (slice_get texts.now env.text) target)) }
{
    match node_at(texts, env, target) {
        Some(Node::Target(Target::Name(name))) => Ok(Some(name.copy(alloc)?)),
        _ => Ok(None),
    }
}

/// The attributes with this one, where it has a name.
fn add(
    name: Option<Text>,
    attributes: Items<Binding>,
    value: Value,
) -> Result<Option<Items<Binding>>, NoMemory>
    ensures { IfOk result (λ found. found ≡ option_map (λ n. with_binding n value attributes) name) }
{
    let mut attributes = attributes;
    match name {
        Some(name) => {
            bind(&mut attributes, name, value)?;
            Ok(Some(attributes))
        }
        None => Ok(None),
    }
}
