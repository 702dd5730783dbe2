ghost use Rattle.std.specs.Prelude.{◌∷◌, ◌+◌, ◌*◌, ◌≡◌, IfOk, List, length, reverse};
ghost use Rattle.py_store.specs.declared.cell.Cell.{Cell};
ghost use Rattle.side_trees.specs.Trees.{bind};
ghost use Rattle.eval_frames.specs.declared.frame.Frame.{Frame};
ghost use Rattle.eval_frames.specs.HandlerFrames.{reads_handler, through_handler};
ghost use Rattle.py_ast.specs.declared.program.Program.{Program};
ghost use Rattle.eval_frames.specs.Meaning.{IsLight, Means, MeansIn, MeansOver, handling_in, load};
ghost use Rattle.language_rules.specs.AtOnce.{stated};
ghost use Rattle.language_rules.specs.Going.{done, executes_all, on_value};
ghost use Rattle.language_rules.specs.Raising.{finally_rule, handles, on_raised, replaces, try_rule};
ghost use Rattle.language_rules.specs.States.{State};

use crate::handlers::{begin_finally, begin_pending, end_handling, handle};
use crate::naming::read_handler;
use crate::suites::enter_suite;
use eval_frames::{Frame, HandlerFrame, HandlerReading, Next, node_at, waiting_numbers};
use object_operations::{Completion, Env, Handling};
use py_ast::{Node, Program, Statement};
use rp_base::{Beyond, NoMemory, Plain, Value};
use sqlite_items::Items;
use std::alloc::Global;

/// A `try` begins with its suite (Python Language Reference, "The try statement").
pub fn begin_try(
    alloc: Global,
    stack: &mut Vec<Frame>,
    texts: &[Program],
    env: Env,
    body: u32,
    handlers: &[u32],
    last: Option<u32>,
) -> Result<Next, NoMemory>
    ensures means { IfOk result (λ next. (fixed : State) (cells : List Cell) → MeansIn (stated fixed cells texts.now) stack.new.items next (try_rule env body handlers.now last) stack.old.items) }
    ensures light { IfOk result (λ next. IsLight stack.new.items next stack.old.items) }
{
    let handlers = Items::from_slice(alloc, handlers)?;
    begin_suite(alloc, stack, texts, env, body, handlers, last)
}

/// The suite of a `try` begins.
fn begin_suite(
    alloc: Global,
    stack: &mut Vec<Frame>,
    texts: &[Program],
    env: Env,
    body: u32,
    handlers: Items<u32>,
    last: Option<u32>,
) -> Result<Next, NoMemory>
    ensures means { IfOk result (λ next. (fixed : State) (cells : List Cell) → MeansIn (stated fixed cells texts.now) stack.new.items next (try_rule env body handlers last) stack.old.items) }
    ensures light { IfOk result (λ next. IsLight stack.new.items next stack.old.items) }
{
    let Some(Node::Statement(Statement::Suite(statements))) = node_at(texts, env, body) else {
        return Ok(Next::Leave(Beyond::NotYet));
    };
    let mut waiting = waiting_numbers(alloc, statements.as_slice())?;
    match waiting.pop() {
        Some(number) => enter_try(stack, env, handlers, last, number, waiting),
        None => end_try(alloc, stack, texts, env, last),
    }
}

/// The statements of the suite of a `try`: this one, and those that wait.
fn enter_try(
    stack: &mut Vec<Frame>,
    env: Env,
    handlers: Items<u32>,
    last: Option<u32>,
    number: u32,
    waiting: Items<u32>,
) -> Result<Next, NoMemory>
    ensures means { IfOk result (λ next. Means stack.new.items next (bind (bind (executes_all env (number ∷ reverse waiting)) (on_raised (λ r. handles env r handlers))) (finally_rule env last)) stack.old.items) }
    ensures light { IfOk result (λ next. IsLight stack.new.items next stack.old.items) }
{
    match last {
        Some(suite) => {
            stack.push(Frame::Handler(HandlerFrame::Finally { env, suite }))?;
            enter_handled(stack, env, handlers, number, waiting)
        }
        None => enter_handled(stack, env, handlers, number, waiting),
    }
}

fn enter_handled(
    stack: &mut Vec<Frame>,
    env: Env,
    handlers: Items<u32>,
    number: u32,
    waiting: Items<u32>,
) -> Result<Next, NoMemory>
    ensures means { IfOk result (λ next. Means stack.new.items next (bind (executes_all env (number ∷ reverse waiting)) (on_raised (λ r. handles env r handlers))) stack.old.items) }
    ensures load { IfOk result (λ next. load stack.new.items next ≡ 3 * length stack.old.items + 6) }
{
    stack.push(Frame::Handler(HandlerFrame::Try { env, handlers }))?;
    enter_suite(stack, env, number, waiting)
}

/// A `try` whose suite has no statement.
fn end_try(
    alloc: Global,
    stack: &mut Vec<Frame>,
    texts: &[Program],
    env: Env,
    last: Option<u32>,
) -> Result<Next, NoMemory>
    ensures means { IfOk result (λ next. (fixed : State) (cells : List Cell) → MeansIn (stated fixed cells texts.now) stack.new.items next (finally_rule env last done) stack.old.items) }
    ensures light { IfOk result (λ next. IsLight stack.new.items next stack.old.items) }
{
    let done = Completion::Gives(Value::Plain(Plain::None));
    match last {
        Some(suite) => begin_pending(alloc, stack, texts, env, suite, done),
        None => Ok(Next::Give(done)),
    }
}

/// What waits within a `try` statement, or for the name of a handler, goes on with an end.
pub fn give_handler(
    alloc: Global,
    stack: &mut Vec<Frame>,
    texts: &[Program],
    handled: &mut Items<Handling>,
    frame: HandlerFrame,
    completion: Completion,
) -> Result<Next, NoMemory>
    ensures means { IfOk result (λ next. (fixed : State) → MeansOver (handling_in fixed texts.now handled.old) (handling_in fixed texts.now handled.new) stack.new.items next (through_handler frame completion) stack.old.items) }
    ensures light { IfOk result (λ next. IsLight stack.new.items next stack.old.items) }
{
    match frame {
        HandlerFrame::Try { env, handlers } => {
            give_try(alloc, stack, texts, handled, env, handlers, completion)
        }
        HandlerFrame::Finally { env, suite } => {
            begin_finally(alloc, stack, texts, handled, env, suite, completion)
        }
        HandlerFrame::Handling { env, name } => {
            end_handling(alloc, handled, env, &name, completion)
        }
        HandlerFrame::Pending(pending) => replace(pending, completion),
        HandlerFrame::Name { env, name, reading } => {
            give_name(
                alloc,
                handled.as_slice(),
                env,
                name.as_str(),
                reading,
                completion,
            )
        }
    }
}

/// The suite of a `try` ended: an exception goes to the handlers, and any other end goes on.
fn give_try(
    alloc: Global,
    stack: &mut Vec<Frame>,
    texts: &[Program],
    handled: &mut Items<Handling>,
    env: Env,
    handlers: Items<u32>,
    completion: Completion,
) -> Result<Next, NoMemory>
    ensures means { IfOk result (λ next. (fixed : State) → MeansOver (handling_in fixed texts.now handled.old) (handling_in fixed texts.now handled.new) stack.new.items next (on_raised (λ r. handles env r handlers) completion) stack.old.items) }
    ensures light { IfOk result (λ next. IsLight stack.new.items next stack.old.items) }
{
    match completion {
        Completion::Raises(raised) => handle(
            alloc,
            stack,
            texts,
            handled,
            env,
            handlers.as_slice(),
            raised,
        ),
        other => Ok(Next::Give(other)),
    }
}

/// The suite of `finally` ended: behind a value what was under way goes on, and any other end replaces it.
fn replace(pending: Completion, completion: Completion) -> Result<Next, NoMemory>
    ensures means { IfOk result (λ next. (stack : List Frame) → Means stack next (replaces pending completion) stack) }
    ensures light { IfOk result (λ next. (stack : List Frame) → IsLight stack next stack) }
{
    match completion {
        Completion::Gives(_) => Ok(Next::Give(pending)),
        other => Ok(Next::Give(other)),
    }
}

/// The unit of a handler's name is spent.
fn give_name(
    alloc: Global,
    handled: &[Handling],
    env: Env,
    name: &str,
    reading: HandlerReading,
    completion: Completion,
) -> Result<Next, NoMemory>
    ensures means { IfOk result (λ next. (fixed : State) (texts : List Program) (stack : List Frame) → MeansIn (handling_in fixed texts handled.now) stack next (on_value (λ v. reads_handler reading env name.now) completion) stack) }
    ensures light { IfOk result (λ next. (stack : List Frame) → IsLight stack next stack) }
{
    match completion {
        Completion::Gives(_) => read_handler(alloc, handled, env, name, reading),
        other => Ok(Next::Give(other)),
    }
}
