ghost use Rattle.std.specs.Prelude.{◌-◌, ◌≤◌, IfOk};
ghost use Rattle.py_ast.specs.declared.statement.Statement.TheVariants as statement;
ghost use Rattle.language_rules.specs.Statements.{otherwise_rule, statement_rule};
ghost use Rattle.eval_suites.specs.Within.{IsWithin, MeansWithin, chosen};

use crate::suites::{execute_suite, execute_waiting};
use crate::testing::test_at_once;
use eval_frames::{Frame, Next, node_at, waiting_numbers};
use eval_stmts::{begin_if, execute_otherwise};
use object_operations::Env;
use py_ast::{Node, Program, Statement};
use py_store::Store;
use rp_base::NoMemory;
use std::alloc::Global;

/// An `if`: its test, and then one of its suites (Python Language Reference, "The if statement").
pub fn branch(
    alloc: Global,
    stack: &mut Vec<Frame>,
    store: &mut Store,
    texts: &[Program],
    env: Env,
    test: u32,
    then: u32,
    otherwise: Option<u32>,
    fuel: &mut u64,
) -> Result<Next, NoMemory>
    ensures means { IfOk result (λ next. MeansWithin texts.now store.old (statement_rule env (statement.If test then otherwise)) stack.old.items (fuel.old - fuel.new) store.new next stack.new.items) }
    ensures light { IfOk result (λ next. IsWithin 12 stack.old.items fuel.old stack.new.items next fuel.new) }
    ensures spent { fuel.new ≤ fuel.old }
{
    match test_at_once(alloc, store, texts, env, test, *fuel) {
        Some(tested) => {
            *fuel = tested.left;
            take_branch(
                alloc,
                stack,
                store,
                texts,
                env,
                then,
                otherwise,
                tested.holds,
                fuel,
            )
        }
        None => begin_if(stack, env, test, then, otherwise),
    }
}

/// The suite that the truth of the test has chosen.
fn take_branch(
    alloc: Global,
    stack: &mut Vec<Frame>,
    store: &mut Store,
    texts: &[Program],
    env: Env,
    then: u32,
    otherwise: Option<u32>,
    holds: bool,
    fuel: &mut u64,
) -> Result<Next, NoMemory>
    ensures means { IfOk result (λ next. MeansWithin texts.now store.old (chosen env then otherwise holds) stack.old.items (fuel.old - fuel.new) store.new next stack.new.items) }
    ensures light { IfOk result (λ next. IsWithin 12 stack.old.items fuel.old stack.new.items next fuel.new) }
    ensures spent { fuel.new ≤ fuel.old }
{
    if holds {
        execute_suite(alloc, stack, store, texts, env, then, fuel)
    } else {
        execute_behind(alloc, stack, store, texts, env, otherwise, fuel)
    }
}

/// What stands behind `else`: a suite, or the `if` of an `elif`, which goes on by frames.
fn execute_behind(
    alloc: Global,
    stack: &mut Vec<Frame>,
    store: &mut Store,
    texts: &[Program],
    env: Env,
    otherwise: Option<u32>,
    fuel: &mut u64,
) -> Result<Next, NoMemory>
    ensures means { IfOk result (λ next. MeansWithin texts.now store.old (otherwise_rule env otherwise) stack.old.items (fuel.old - fuel.new) store.new next stack.new.items) }
    ensures light { IfOk result (λ next. IsWithin 12 stack.old.items fuel.old stack.new.items next fuel.new) }
    ensures spent { fuel.new ≤ fuel.old }
{
    let Some(number) = otherwise else {
        return execute_otherwise(alloc, stack, texts, env, otherwise);
    };
    match node_at(texts, env, number) {
        Some(Node::Statement(Statement::Suite(statements))) => {
            let waiting = waiting_numbers(alloc, statements.as_slice())?;
            execute_waiting(alloc, stack, store, texts, env, waiting, fuel)
        }
        _ => execute_otherwise(alloc, stack, texts, env, otherwise),
    }
}
