ghost use Rattle.std.specs.Prelude.{◌≡◌, ◌∷◌, IfOk, List, reverse};
ghost use Rattle.py_ast.specs.declared.program.Program.{Program};
ghost use Rattle.side_trees.specs.Trees.{Return, bind};
ghost use Rattle.eval_frames.specs.Meaning.{IsLight, Means, MeansOver};
ghost use Rattle.language_rules.specs.AtOnce.{stated};
ghost use Rattle.language_rules.specs.Codes.{Gives};
ghost use Rattle.language_rules.specs.Functions.{ends_call, runs_body};
ghost use Rattle.language_rules.specs.Going.{evaluates, executes_all};
ghost use Rattle.language_rules.specs.States.{State};
ghost use Rattle.eval_calls.specs.Waiting.{waits_for_end};

use crate::endings::end_body;
use eval_frames::{Frame, Next, StatementFrame, enter_over, node_at, waiting_numbers};
use object_operations::{Completion, Env};
use py_ast::{FunctionInfo, Node, Program, Statement};
use py_store::Store;
use rp_base::{Beyond, NoMemory, Plain, Value};
use sqlite_items::Items;
use std::alloc::Global;

/// The body of a function begins in its scope: a suite, or the expression of a `lambda`. `Leave(NotYet)` for any other
/// node.
pub(crate) fn begin_body(
    alloc: Global,
    stack: &mut Vec<Frame>,
    store: &mut Store,
    texts: &[Program],
    env: Env,
    info: &FunctionInfo,
    parent: u32,
) -> Result<Next, NoMemory>
    ensures means { IfOk result (λ next. (fixed : State) → MeansOver (stated fixed store.old.cells texts.now) (stated fixed store.new.cells texts.now) stack.new.items next (bind (runs_body env info.now.body) (ends_call info.now env.scope parent)) stack.old.items) }
    ensures light { IfOk result (λ next. IsLight stack.new.items next stack.old.items) }
{
    match node_at(texts, env, info.body) {
        Some(Node::Statement(Statement::Suite(statements))) => {
            let waiting = waiting_numbers(alloc, statements.as_slice())?;
            begin_suite(alloc, stack, store, env, info, parent, waiting)
        }
        Some(Node::Expression(_)) => begin_expression(stack, env, info, parent),
        _ => Ok(Next::Leave(Beyond::NotYet)),
    }
}

/// The statements that wait, the next one at the end, are the body. Where there is none the call ends.
fn begin_suite(
    alloc: Global,
    stack: &mut Vec<Frame>,
    store: &mut Store,
    env: Env,
    info: &FunctionInfo,
    parent: u32,
    mut waiting: Items<u32>,
) -> Result<Next, NoMemory>
    ensures means { IfOk result (λ next. (fixed : State) (texts : List Program) → MeansOver (stated fixed store.old.cells texts) (stated fixed store.new.cells texts) stack.new.items next (bind (executes_all env (reverse waiting)) (ends_call info.now env.scope parent)) stack.old.items) }
    ensures light { IfOk result (λ next. IsLight stack.new.items next stack.old.items) }
{
    match waiting.pop() {
        None => {
            let done = Completion::Gives(Value::Plain(Plain::None));
            end_body(alloc, store, info, env.scope, parent, done)
        }
        Some(number) => enter_suite(stack, env, info, parent, number, waiting),
    }
}

/// The body is this statement, and those that wait.
fn enter_suite(
    stack: &mut Vec<Frame>,
    env: Env,
    info: &FunctionInfo,
    parent: u32,
    number: u32,
    waiting: Items<u32>,
) -> Result<Next, NoMemory>
    ensures means { IfOk result (λ next. Means stack.new.items next (bind (executes_all env (number ∷ reverse waiting)) (ends_call info.now env.scope parent)) stack.old.items) }
    ensures light { IfOk result (λ next. IsLight stack.new.items next stack.old.items) }
{
    stack.push(frame_of_call(info, env.scope, parent))?;
    stack.push(Frame::Statement(StatementFrame::Suite { env, waiting }))?;
    Ok(Next::Enter(env, number))
}

/// The body is an expression, whose value is that of the call.
fn begin_expression(
    stack: &mut Vec<Frame>,
    env: Env,
    info: &FunctionInfo,
    parent: u32,
) -> Result<Next, NoMemory>
    ensures means { IfOk result (λ next. Means stack.new.items next (bind (evaluates env info.now.body (λ v. Return (Gives v))) (ends_call info.now env.scope parent)) stack.old.items) }
    ensures light { IfOk result (λ next. IsLight stack.new.items next stack.old.items) }
{
    enter_over(
        stack,
        frame_of_call(info, env.scope, parent),
        env,
        info.body,
    )
}

/// What waits for the end of a function's body. Where no function stands inside, nothing can read the variables after
/// the call, and the scope is emptied.
fn frame_of_call(info: &FunctionInfo, scope: u32, parent: u32) -> Frame
    ensures { result ≡ waits_for_end info.now.has_inner scope parent }
{
    if info.has_inner {
        Frame::Call
    } else {
        Frame::EmptiedCall { scope, parent }
    }
}
