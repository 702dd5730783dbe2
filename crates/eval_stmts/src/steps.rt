ghost use Rattle.std.specs.Prelude.{IfOk};
ghost use Rattle.eval_frames.specs.Meaning.{IsLight, MeansIn, MeansOver, through_statement};
ghost use Rattle.language_rules.specs.AtOnce.{stated};
ghost use Rattle.language_rules.specs.States.{State};
ghost use Rattle.language_rules.specs.Statements.{statement_rule};

use crate::branches::begin_if;
use crate::loops::begin_while;
use crate::suites::execute_further;
use eval_frames::{Frame, Next, StatementFrame, enter_over};
use eval_targets::{assign, begin_augmented, begin_delete, bind_augmented, bind_value};
use object_operations::{Completion, Env};
use py_ast::{Program, Statement};
use py_store::Store;
use rp_base::{Beyond, NoMemory, Plain, Value};
use std::alloc::Global;

/// A statement begins, behind its unit. `def`, `try`, `raise` and `for` begin in crates of their own. `class` is not
/// built yet.
pub fn begin_statement(
    alloc: Global,
    stack: &mut Vec<Frame>,
    store: &Store,
    texts: &[Program],
    env: Env,
    statement: &Statement,
) -> Result<Next, NoMemory>
    ensures means { IfOk result (λ next. (fixed : State) → MeansIn (stated fixed store.now.cells texts.now) stack.new.items next (statement_rule env statement.now) stack.old.items) }
    ensures light { IfOk result (λ next. IsLight stack.new.items next stack.old.items) }
{
    match *statement {
        Statement::Alone(number) => enter_over(
            stack,
            Frame::Statement(StatementFrame::Alone),
            env,
            number,
        ),
        Statement::Assign { target, value } => {
            enter_over(
                stack,
                Frame::Statement(StatementFrame::Assign { env, target }),
                env,
                value,
            )
        }
        Statement::Augmented { target, op, value } => {
            begin_augmented(alloc, stack, store, texts, env, target, op, value)
        }
        Statement::Delete(target) => begin_delete(alloc, stack, texts, env, target),
        Statement::Pass => Ok(Next::Give(Completion::Gives(Value::Plain(Plain::None)))),
        Statement::Break => Ok(Next::Give(Completion::Breaks)),
        Statement::Continue => Ok(Next::Give(Completion::Continues)),
        Statement::Return(None) => Ok(Next::Give(Completion::Returns(Value::Plain(Plain::None)))),
        Statement::Return(Some(number)) => enter_over(
            stack,
            Frame::Statement(StatementFrame::Return),
            env,
            number,
        ),
        Statement::Global(_) => Ok(Next::Give(Completion::Gives(Value::Plain(Plain::None)))),
        Statement::Nonlocal(_) => Ok(Next::Give(Completion::Gives(Value::Plain(Plain::None)))),
        Statement::If {
            test,
            then,
            otherwise,
        } => begin_if(stack, env, test, then, otherwise),
        Statement::While { test, body } => begin_while(stack, env, test, body),
        Statement::Except { .. } => Ok(Next::Leave(Beyond::NotYet)),
        Statement::Suite(_) => Ok(Next::Leave(Beyond::NotYet)),
        _ => Err(NoMemory),
    }
}

/// A statement goes on with the value that it waited for.
pub fn give_statement(
    alloc: Global,
    stack: &mut Vec<Frame>,
    store: &mut Store,
    texts: &[Program],
    frame: StatementFrame,
    value: Value,
) -> Result<Next, NoMemory>
    ensures means { IfOk result (λ next. (fixed : State) → MeansOver (stated fixed store.old.cells texts.now) (stated fixed store.new.cells texts.now) stack.new.items next (through_statement frame value) stack.old.items) }
    ensures light { IfOk result (λ next. IsLight stack.new.items next stack.old.items) }
{
    match frame {
        StatementFrame::Alone => Ok(Next::Give(Completion::Gives(Value::Plain(Plain::None)))),
        StatementFrame::Suite { env, waiting } => execute_further(stack, env, waiting),
        StatementFrame::Assign { env, target } => {
            assign(alloc, stack, store, texts, env, target, value)
        }
        StatementFrame::AugmentName { env, op, name, old } => {
            bind_augmented(alloc, stack, store, texts, env, op, name, old, value)
        }
        StatementFrame::BindName { env, name } => bind_value(alloc, store, texts, env, name, value),
        StatementFrame::Return => Ok(Next::Give(Completion::Returns(value))),
    }
}
