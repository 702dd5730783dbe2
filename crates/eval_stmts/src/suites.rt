ghost use Rattle.std.specs.Prelude.{IfOk, List, reverse};
ghost use Rattle.py_store.specs.declared.cell.Cell.{Cell};
ghost use Rattle.eval_frames.specs.Meaning.{IsLight, Means, MeansIn};
ghost use Rattle.language_rules.specs.AtOnce.{stated};
ghost use Rattle.language_rules.specs.Going.{executes_all};
ghost use Rattle.language_rules.specs.States.{State};
ghost use Rattle.language_rules.specs.Texts.{executes_suite};

use eval_frames::{Frame, Next, StatementFrame, enter_over, node_at, waiting_numbers};
use object_operations::{Completion, Env};
use py_ast::{Node, Program, Statement};
use rp_base::{Beyond, NoMemory, Plain, Value};
use sqlite_items::Items;
use std::alloc::Global;

/// The statements that wait, the next one at the end, in turn.
pub fn execute_further(
    stack: &mut Vec<Frame>,
    env: Env,
    mut waiting: Items<u32>,
) -> Result<Next, NoMemory>
    ensures means { IfOk result (λ next. Means stack.new.items next (executes_all env (reverse waiting)) stack.old.items) }
    ensures light { IfOk result (λ next. IsLight stack.new.items next stack.old.items) }
{
    let Some(number) = waiting.pop() else {
        return Ok(Next::Give(Completion::Gives(Value::Plain(Plain::None))));
    };
    enter_over(
        stack,
        Frame::Statement(StatementFrame::Suite { env, waiting }),
        env,
        number,
    )
}

/// The statements of the suite of this number in turn.
pub fn execute_suite(
    alloc: Global,
    stack: &mut Vec<Frame>,
    texts: &[Program],
    env: Env,
    number: u32,
) -> Result<Next, NoMemory>
    ensures means { IfOk result (λ next. (fixed : State) (cells : List Cell) → MeansIn (stated fixed cells texts.now) stack.new.items next (executes_suite env number) stack.old.items) }
    ensures light { IfOk result (λ next. IsLight stack.new.items next stack.old.items) }
{
    let Some(Node::Statement(Statement::Suite(statements))) = node_at(texts, env, number) else {
        return Ok(Next::Leave(Beyond::NotYet));
    };
    let waiting = waiting_numbers(alloc, statements.as_slice())?;
    execute_further(stack, env, waiting)
}
