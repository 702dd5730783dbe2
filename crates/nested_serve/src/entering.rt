ghost use Rattle.std.specs.Prelude.{IfOk};
ghost use Rattle.eval_frames.specs.Meaning.{IsLight, MeansOver, situated};
ghost use Rattle.language_rules.specs.Nodes.{node_rule};
ghost use Rattle.language_rules.specs.States.{State};
ghost use Rattle.language_rules.specs.Statements.{statement_rule};

use eval_calls::begin_def;
use eval_exprs::begin_expression;
use eval_frames::{Frame, Next, node_at};
use eval_handlers::{begin_raise_call, begin_try, raise_again, raise_name};
use eval_loops::begin_for;
use eval_stmts::begin_statement;
use object_operations::{Env, Handling};
use py_ast::{Node, Program, Statement};
use py_store::Store;
use rp_base::{Beyond, NoMemory};
use std::alloc::Global;

/// A node begins, behind its unit.
pub fn enter(
    alloc: Global,
    stack: &mut Vec<Frame>,
    store: &mut Store,
    texts: &[Program],
    handled: &[Handling],
    env: Env,
    number: u32,
) -> Result<Next, NoMemory>
    ensures means { IfOk result (λ next. (fixed : State) → MeansOver (situated fixed store.old.cells texts.now handled.now) (situated fixed store.new.cells texts.now handled.now) stack.new.items next (node_rule env number) stack.old.items) }
    ensures light { IfOk result (λ next. IsLight stack.new.items next stack.old.items) }
{
    match node_at(texts, env, number) {
        Some(Node::Expression(expression)) => {
            begin_expression(alloc, stack, store, texts, env, expression)
        }
        Some(Node::Statement(statement)) => {
            enter_statement(alloc, stack, store, texts, handled, env, statement)
        }
        _ => Ok(Next::Leave(Beyond::NotYet)),
    }
}

/// A statement begins. Those of functions, and of exceptions and their handlers, stand in crates of their own.
fn enter_statement(
    alloc: Global,
    stack: &mut Vec<Frame>,
    store: &mut Store,
    texts: &[Program],
    handled: &[Handling],
    env: Env,
    statement: &Statement,
) -> Result<Next, NoMemory>
    ensures means { IfOk result (λ next. (fixed : State) → MeansOver (situated fixed store.old.cells texts.now handled.now) (situated fixed store.new.cells texts.now handled.now) stack.new.items next (statement_rule env statement.now) stack.old.items) }
    ensures light { IfOk result (λ next. IsLight stack.new.items next stack.old.items) }
{
    match statement {
        Statement::Def(function) => begin_def(alloc, store, texts, env, *function),
        Statement::Try {
            body,
            handlers,
            finally,
        } => begin_try(
            alloc,
            stack,
            texts,
            env,
            *body,
            handlers.as_slice(),
            *finally,
        ),
        &Statement::For {
            target,
            source,
            body,
        } => begin_for(stack, env, target, source, body),
        Statement::RaiseAgain => raise_again(alloc, handled, env),
        Statement::RaiseName(name) => raise_name(alloc, handled, env, name.text.as_str()),
        Statement::RaiseCall { name, arguments } => {
            begin_raise_call(alloc, stack, env, name.text.as_str(), arguments.as_slice())
        }
        _ => begin_statement(alloc, stack, store, texts, env, statement),
    }
}
