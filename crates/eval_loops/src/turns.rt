ghost use Rattle.std.specs.Prelude.{◌∷◌, IfOk, List, reverse};
ghost use Rattle.py_store.specs.declared.cell.Cell.{Cell};
ghost use Rattle.side_trees.specs.Trees.{bind};
ghost use Rattle.eval_frames.specs.LoopFrames.{through_for};
ghost use Rattle.eval_frames.specs.declared.loop_frames.ForFrame.TheVariants as for_frame;
ghost use Rattle.eval_frames.specs.Meaning.{IsLight, Means, MeansIn};
ghost use Rattle.language_rules.specs.AtOnce.{stated};
ghost use Rattle.language_rules.specs.Beginnings.{asks_next};
ghost use Rattle.language_rules.specs.Going.{executes_all};
ghost use Rattle.language_rules.specs.Loops.{next_turn};
ghost use Rattle.language_rules.specs.States.{State};
ghost use Rattle.language_rules.specs.Texts.{executes_suite};

use eval_frames::{
    ForFrame, Frame, Next, StatementFrame, node_at, operate_over, special, waiting_numbers,
};
use object_operations::{Completion, Env, Special};
use py_ast::{Node, Program, Statement};
use rp_base::{Beyond, NoMemory, Plain, Value};
use sqlite_items::Items;
use std::alloc::Global;

/// The iterator is asked for the next item, with which a turn begins.
pub(crate) fn ask_next(
    alloc: Global,
    stack: &mut Vec<Frame>,
    env: Env,
    target: u32,
    body: u32,
    iterator: Value,
) -> Result<Next, NoMemory>
    ensures means { IfOk result (λ next. (s : State) → MeansIn s stack.new.items next (asks_next env target body iterator) stack.old.items) }
    ensures light { IfOk result (λ next. IsLight stack.new.items next stack.old.items) }
{
    let operation = special(alloc, iterator.copy(alloc)?, Special::Next);
    let frame = ForFrame::Item {
        env,
        target,
        body,
        iterator,
    };
    operate_over(stack, Frame::For(frame), operation)
}

/// The suite begins behind the assignment of the item. What the assignment raises leaves the loop.
pub(crate) fn end_target(
    alloc: Global,
    stack: &mut Vec<Frame>,
    texts: &[Program],
    env: Env,
    target: u32,
    body: u32,
    iterator: Value,
    completion: Completion,
) -> Result<Next, NoMemory>
    ensures means { IfOk result (λ next. (fixed : State) (cells : List Cell) → MeansIn (stated fixed cells texts.now) stack.new.items next (through_for (for_frame.Target env target body iterator) completion) stack.old.items) }
    ensures light { IfOk result (λ next. IsLight stack.new.items next stack.old.items) }
{
    match completion {
        Completion::Gives(_) => begin_suite(alloc, stack, texts, env, target, body, iterator),
        Completion::Raises(raised) => Ok(Next::Give(Completion::Raises(raised))),
        Completion::Returns(value) => Ok(Next::Give(Completion::Returns(value))),
        Completion::Breaks => Ok(Next::Give(Completion::Breaks)),
        Completion::Continues => Ok(Next::Give(Completion::Continues)),
        Completion::Drained(values) => Ok(Next::Give(Completion::Drained(values))),
    }
}

/// The suite of a turn. With no statement in it the next turn begins.
fn begin_suite(
    alloc: Global,
    stack: &mut Vec<Frame>,
    texts: &[Program],
    env: Env,
    target: u32,
    body: u32,
    iterator: Value,
) -> Result<Next, NoMemory>
    ensures means { IfOk result (λ next. (fixed : State) (cells : List Cell) → MeansIn (stated fixed cells texts.now) stack.new.items next (bind (executes_suite env body) (next_turn (asks_next env target body iterator))) stack.old.items) }
    ensures light { IfOk result (λ next. IsLight stack.new.items next stack.old.items) }
{
    let Some(Node::Statement(Statement::Suite(statements))) = node_at(texts, env, body) else {
        return Ok(Next::Leave(Beyond::NotYet));
    };
    let waiting = waiting_numbers(alloc, statements.as_slice())?;
    execute_turn(alloc, stack, env, target, body, iterator, waiting)
}

/// The statements of the suite of a turn, the next one at the end.
fn execute_turn(
    alloc: Global,
    stack: &mut Vec<Frame>,
    env: Env,
    target: u32,
    body: u32,
    iterator: Value,
    mut waiting: Items<u32>,
) -> Result<Next, NoMemory>
    ensures means { IfOk result (λ next. (s : State) → MeansIn s stack.new.items next (bind (executes_all env (reverse waiting)) (next_turn (asks_next env target body iterator))) stack.old.items) }
    ensures light { IfOk result (λ next. IsLight stack.new.items next stack.old.items) }
{
    let Some(number) = waiting.pop() else {
        return ask_next(alloc, stack, env, target, body, iterator);
    };
    let frame = ForFrame::Body {
        env,
        target,
        body,
        iterator,
    };
    enter_turn(stack, frame, env, number, waiting)
}

/// This statement, and then those that wait, over a frame of the loop.
fn enter_turn(
    stack: &mut Vec<Frame>,
    frame: ForFrame,
    env: Env,
    number: u32,
    waiting: Items<u32>,
) -> Result<Next, NoMemory>
    ensures means { IfOk result (λ next. Means stack.new.items next (bind (executes_all env (number ∷ reverse waiting)) (through_for frame)) stack.old.items) }
    ensures light { IfOk result (λ next. IsLight stack.new.items next stack.old.items) }
{
    stack.push(Frame::For(frame))?;
    stack.push(Frame::Statement(StatementFrame::Suite { env, waiting }))?;
    Ok(Next::Enter(env, number))
}

/// The end of a suite: the next turn begins behind a value and behind `continue`, `break` ends the loop, and any other end
/// leaves it.
pub(crate) fn end_turn(
    alloc: Global,
    stack: &mut Vec<Frame>,
    env: Env,
    target: u32,
    body: u32,
    iterator: Value,
    completion: Completion,
) -> Result<Next, NoMemory>
    ensures means { IfOk result (λ next. (s : State) → MeansIn s stack.new.items next (next_turn (asks_next env target body iterator) completion) stack.old.items) }
    ensures light { IfOk result (λ next. IsLight stack.new.items next stack.old.items) }
{
    match completion {
        Completion::Gives(_) => ask_next(alloc, stack, env, target, body, iterator),
        Completion::Continues => ask_next(alloc, stack, env, target, body, iterator),
        Completion::Breaks => Ok(Next::Give(Completion::Gives(Value::Plain(Plain::None)))),
        ending => Ok(Next::Give(ending)),
    }
}
