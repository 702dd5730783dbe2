ghost use Rattle.std.specs.Prelude.{IfOk, List, ◌∷◌, reverse};
ghost use Rattle.rp_base.specs.declared.value.Value.{Value};
ghost use Rattle.py_store.specs.declared.cell.Cell.{Cell};
ghost use Rattle.eval_frames.specs.declared.frame.Decision.TheVariants as decision;
ghost use Rattle.side_trees.specs.Trees.{bind};
ghost use Rattle.eval_frames.specs.Meaning.{IsLight, Means, MeansIn, decides};
ghost use Rattle.language_rules.specs.AtOnce.{stated};
ghost use Rattle.language_rules.specs.Beginnings.{while_begins};
ghost use Rattle.language_rules.specs.Going.{executes_all};
ghost use Rattle.language_rules.specs.Loops.{next_turn};
ghost use Rattle.language_rules.specs.States.{State};

use eval_frames::{Decision, Frame, Next, StatementFrame, enter_over, node_at, waiting_numbers};
use object_operations::{Completion, Env};
use py_ast::{Node, Program, Statement};
use rp_base::{Beyond, NoMemory, Plain, Value};
use sqlite_items::Items;
use std::alloc::Global;

/// A turn of a `while` begins with its test.
pub fn begin_while(stack: &mut Vec<Frame>, env: Env, test: u32, body: u32) -> Result<Next, NoMemory>
    ensures means { IfOk result (λ next. (s : State) → MeansIn s stack.new.items next (while_begins env test body) stack.old.items) }
    ensures light { IfOk result (λ next. IsLight stack.new.items next stack.old.items) }
{
    enter_over(
        stack,
        Frame::Test(Decision::While { env, test, body }),
        env,
        test,
    )
}

/// A turn of a `while` goes on by the truth of its test. With no statement in its suite the next turn begins.
pub fn decide_while(
    alloc: Global,
    stack: &mut Vec<Frame>,
    texts: &[Program],
    env: Env,
    test: u32,
    body: u32,
    holds: bool,
) -> Result<Next, NoMemory>
    ensures means { IfOk result (λ next. (fixed : State) (cells : List Cell) (v : Value) → MeansIn (stated fixed cells texts.now) stack.new.items next (decides (decision.While env test body) v holds) stack.old.items) }
    ensures light { IfOk result (λ next. IsLight stack.new.items next stack.old.items) }
{
    if !holds {
        return Ok(Next::Give(Completion::Gives(Value::Plain(Plain::None))));
    }
    let Some(Node::Statement(Statement::Suite(statements))) = node_at(texts, env, body) else {
        return Ok(Next::Leave(Beyond::NotYet));
    };
    let mut waiting = waiting_numbers(alloc, statements.as_slice())?;
    match waiting.pop() {
        None => begin_while(stack, env, test, body),
        Some(number) => enter_turn(stack, env, test, body, number, waiting),
    }
}

/// The statements of the suite of a `while`: this one, and those that wait.
fn enter_turn(
    stack: &mut Vec<Frame>,
    env: Env,
    test: u32,
    body: u32,
    number: u32,
    waiting: Items<u32>,
) -> Result<Next, NoMemory>
    ensures means { IfOk result (λ next. Means stack.new.items next (bind (executes_all env (number ∷ reverse waiting)) (next_turn (while_begins env test body))) stack.old.items) }
    ensures light { IfOk result (λ next. IsLight stack.new.items next stack.old.items) }
{
    stack.push(Frame::While { env, test, body })?;
    stack.push(Frame::Statement(StatementFrame::Suite { env, waiting }))?;
    Ok(Next::Enter(env, number))
}

/// The end of a suite of a `while`: the next turn begins behind a value and behind `continue`, `break` ends the loop, and
/// any other end leaves it.
pub fn end_turn(
    stack: &mut Vec<Frame>,
    env: Env,
    test: u32,
    body: u32,
    completion: Completion,
) -> Result<Next, NoMemory>
    ensures means { IfOk result (λ next. (s : State) → MeansIn s stack.new.items next (next_turn (while_begins env test body) completion) stack.old.items) }
    ensures light { IfOk result (λ next. IsLight stack.new.items next stack.old.items) }
{
    match completion {
        Completion::Gives(_) => begin_while(stack, env, test, body),
        Completion::Continues => begin_while(stack, env, test, body),
        Completion::Breaks => Ok(Next::Give(Completion::Gives(Value::Plain(Plain::None)))),
        ending => Ok(Next::Give(ending)),
    }
}
