ghost use Rattle.std.specs.Prelude.{◌≡◌, ◌+◌, ◌*◌, ◌-◌, ◌≤◌, ◌∷◌, IfOk, length, reverse};
ghost use Rattle.eval_frames.specs.Meaning.{Means, load};
ghost use Rattle.language_rules.specs.Going.{executes_all};
ghost use Rattle.language_rules.specs.Texts.{executes_suite};
ghost use Rattle.eval_suites.specs.Within.{IsWithin, MeansWithin};

use eval_at_once::execute;
use eval_frames::{Frame, Next, StatementFrame, node_at, waiting_numbers};
use object_operations::{Completion, Env};
use py_ast::{Node, Program, Statement};
use py_store::Store;
use rp_base::{Beyond, NoMemory, Plain, Value};
use sqlite_items::Items;
use std::alloc::Global;

/// The statements that wait, the next one at the end, in turn: from the first that is not carried out at once on they go on
/// by frames.
pub fn execute_waiting(
    alloc: Global,
    stack: &mut Vec<Frame>,
    store: &mut Store,
    texts: &[Program],
    env: Env,
    waiting: Items<u32>,
    fuel: &mut u64,
) -> Result<Next, NoMemory>
    ensures means { IfOk result (λ next. MeansWithin texts.now store.old (executes_all env (reverse waiting)) stack.old.items (fuel.old - fuel.new) store.new next stack.new.items) }
    ensures light { IfOk result (λ next. IsWithin 10 stack.old.items fuel.old stack.new.items next fuel.new) }
    ensures spent { fuel.new ≤ fuel.old }
{
    let mut waiting = waiting;
    'statements: loop {
        match waiting.pop() {
            Some(number) => match execute(alloc, store, texts, env, number, *fuel) {
                Some(left) => *fuel = left,
                None => return enter_suite(stack, env, number, waiting),
            },
            None => return Ok(Next::Give(Completion::Gives(Value::Plain(Plain::None)))),
        }
    }
}

/// This statement and those that wait, by frames.
fn enter_suite(
    stack: &mut Vec<Frame>,
    env: Env,
    number: u32,
    waiting: Items<u32>,
) -> Result<Next, NoMemory>
    ensures means { IfOk result (λ next. Means stack.new.items next (executes_all env (number ∷ reverse waiting)) stack.old.items) }
    ensures load { IfOk result (λ next. load stack.new.items next ≡ 3 * length stack.old.items + 3) }
{
    stack.push(Frame::Statement(StatementFrame::Suite { env, waiting }))?;
    Ok(Next::Enter(env, number))
}

/// The statements of the suite of this number in turn.
pub(crate) fn execute_suite(
    alloc: Global,
    stack: &mut Vec<Frame>,
    store: &mut Store,
    texts: &[Program],
    env: Env,
    number: u32,
    fuel: &mut u64,
) -> Result<Next, NoMemory>
    ensures means { IfOk result (λ next. MeansWithin texts.now store.old (executes_suite env number) stack.old.items (fuel.old - fuel.new) store.new next stack.new.items) }
    ensures light { IfOk result (λ next. IsWithin 10 stack.old.items fuel.old stack.new.items next fuel.new) }
    ensures spent { fuel.new ≤ fuel.old }
{
    let Some(Node::Statement(Statement::Suite(statements))) = node_at(texts, env, number) else {
        return Ok(Next::Leave(Beyond::NotYet));
    };
    let waiting = waiting_numbers(alloc, statements.as_slice())?;
    execute_waiting(alloc, stack, store, texts, env, waiting, fuel)
}
