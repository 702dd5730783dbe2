ghost use Rattle.std.specs.Prelude.{IfOk, List};
ghost use Rattle.rp_base.specs.declared.value.Value.{Value};
ghost use Rattle.py_ast.specs.declared.statement.Statement.TheVariants as statement;
ghost use Rattle.py_store.specs.declared.cell.Cell.{Cell};
ghost use Rattle.eval_frames.specs.declared.frame.Decision.TheVariants as decision;
ghost use Rattle.eval_frames.specs.Meaning.{IsLight, Means, MeansIn, decides};
ghost use Rattle.language_rules.specs.AtOnce.{stated};
ghost use Rattle.language_rules.specs.States.{State};
ghost use Rattle.language_rules.specs.Statements.{otherwise_rule, statement_rule};

use crate::suites::{execute_further, execute_suite};
use eval_frames::{Decision, Frame, Next, StatementFrame, enter_over, node_at, waiting_numbers};
use object_operations::{Completion, Env};
use py_ast::{Node, Program, Statement};
use rp_base::{Beyond, NoMemory, Plain, Value};
use sqlite_items::Items;
use std::alloc::Global;

/// An `if` begins with its test.
pub fn begin_if(
    stack: &mut Vec<Frame>,
    env: Env,
    test: u32,
    then: u32,
    otherwise: Option<u32>,
) -> Result<Next, NoMemory>
    ensures means { IfOk result (λ next. Means stack.new.items next (statement_rule env (statement.If test then otherwise)) stack.old.items) }
    ensures light { IfOk result (λ next. IsLight stack.new.items next stack.old.items) }
{
    enter_over(
        stack,
        Frame::Test(Decision::If {
            env,
            then,
            otherwise,
        }),
        env,
        test,
    )
}

/// What stands behind `else`, where there is an `else`: a suite, or the `if` of an `elif`, a statement of its own.
pub fn execute_otherwise(
    alloc: Global,
    stack: &mut Vec<Frame>,
    texts: &[Program],
    env: Env,
    otherwise: Option<u32>,
) -> Result<Next, NoMemory>
    ensures means { IfOk result (λ next. (fixed : State) (cells : List Cell) → MeansIn (stated fixed cells texts.now) stack.new.items next (otherwise_rule env otherwise) stack.old.items) }
    ensures light { IfOk result (λ next. IsLight stack.new.items next stack.old.items) }
{
    let Some(number) = otherwise else {
        return Ok(Next::Give(Completion::Gives(Value::Plain(Plain::None))));
    };
    match node_at(texts, env, number) {
        Some(Node::Statement(Statement::Suite(statements))) => {
            let waiting = waiting_numbers(alloc, statements.as_slice())?;
            execute_further(stack, env, waiting)
        }
        Some(Node::Statement(Statement::If { .. })) => enter_over(
            stack,
            Frame::Statement(StatementFrame::Suite {
                env,
                waiting: Items::new(alloc),
            }),
            env,
            number,
        ),
        _ => Ok(Next::Leave(Beyond::NotYet)),
    }
}

/// An `if` goes on by the truth of its test.
pub fn decide_if(
    alloc: Global,
    stack: &mut Vec<Frame>,
    texts: &[Program],
    env: Env,
    then: u32,
    otherwise: Option<u32>,
    holds: bool,
) -> Result<Next, NoMemory>
    ensures means { IfOk result (λ next. (fixed : State) (cells : List Cell) (v : Value) → MeansIn (stated fixed cells texts.now) stack.new.items next (decides (decision.If env then otherwise) v holds) stack.old.items) }
    ensures light { IfOk result (λ next. IsLight stack.new.items next stack.old.items) }
{
    if holds {
        execute_suite(alloc, stack, texts, env, then)
    } else {
        execute_otherwise(alloc, stack, texts, env, otherwise)
    }
}
