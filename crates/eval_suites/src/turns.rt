ghost use Rattle.std.specs.Prelude.{◌-◌, ◌≤◌, IfOk};
ghost use Rattle.language_rules.specs.Beginnings.{while_begins};
ghost use Rattle.eval_suites.specs.Within.{IsWithin, MeansWithin, goes_round};

use crate::suites::execute_suite;
use crate::testing::test_at_once;
use eval_frames::{Frame, Next};
use eval_stmts::begin_while;
use object_operations::{Completion, Env};
use py_ast::Program;
use py_store::Store;
use rp_base::{NoMemory, Plain, Value};
use std::alloc::Global;

/// A turn of a `while` begins with its test, and its suite follows (Python Language Reference, "The while statement").
pub fn begin_turn(
    alloc: Global,
    stack: &mut Vec<Frame>,
    store: &mut Store,
    texts: &[Program],
    env: Env,
    test: u32,
    body: u32,
    fuel: &mut u64,
) -> Result<Next, NoMemory>
    ensures means { IfOk result (λ next. MeansWithin texts.now store.old (while_begins env test body) stack.old.items (fuel.old - fuel.new) store.new next stack.new.items) }
    ensures light { IfOk result (λ next. IsWithin 12 stack.old.items fuel.old stack.new.items next fuel.new) }
    ensures spent { fuel.new ≤ fuel.old }
{
    match test_at_once(alloc, store, texts, env, test, *fuel) {
        Some(tested) => {
            *fuel = tested.left;
            go_round(
                alloc,
                stack,
                store,
                texts,
                env,
                test,
                body,
                tested.holds,
                fuel,
            )
        }
        None => begin_while(stack, env, test, body),
    }
}

/// What follows the test: the suite and the next turn, or the end of the loop.
fn go_round(
    alloc: Global,
    stack: &mut Vec<Frame>,
    store: &mut Store,
    texts: &[Program],
    env: Env,
    test: u32,
    body: u32,
    holds: bool,
    fuel: &mut u64,
) -> Result<Next, NoMemory>
    ensures means { IfOk result (λ next. MeansWithin texts.now store.old (goes_round env test body holds) stack.old.items (fuel.old - fuel.new) store.new next stack.new.items) }
    ensures light { IfOk result (λ next. IsWithin 13 stack.old.items fuel.old stack.new.items next fuel.new) }
    ensures spent { fuel.new ≤ fuel.old }
{
    if !holds {
        return Ok(Next::Give(Completion::Gives(Value::Plain(Plain::None))));
    }
    stack.push(Frame::While { env, test, body })?;
    execute_suite(alloc, stack, store, texts, env, body, fuel)
}
