ghost use Rattle.std.specs.Prelude.{◌≡◌, ◌∷◌, ◌+◌, ◌*◌, IfOk, List, None, OnOk, length, reverse};
ghost use Rattle.py_ast.specs.declared.program.Program.{Program};
ghost use Rattle.side_trees.specs.Trees.{Return, bind};
ghost use Rattle.eval_frames.specs.declared.frame.Frame.{Frame};
ghost use Rattle.eval_frames.specs.Meaning.{IsLight, Means, MeansIn, MeansOver, handling_in, load};
ghost use Rattle.language_rules.specs.Codes.{Raises};
ghost use Rattle.language_rules.specs.Going.{changes, executes_all};
ghost use Rattle.language_rules.specs.Handlers.{handling, left};
ghost use Rattle.language_rules.specs.Raising.{finally_suite, handles, name_of, replaces};
ghost use Rattle.language_rules.specs.States.{State};
ghost use Rattle.language_rules.specs.Texts.{executes_suite};
ghost use Rattle.eval_handlers.specs.Choosing.{IsChosen, chosen};
ghost use Rattle.eval_handlers.specs.Entering.{IsEntered, reading};

use crate::classes::catches;
use crate::handled::{copy_name, leave};
use crate::suites::enter_suite;
use eval_frames::{Frame, HandlerFrame, Next, node_at, waiting_numbers};
use object_operations::{Completion, Env, Handling};
use py_ast::{Name, Node, Program, Statement};
use rp_base::{Beyond, NoMemory, Plain, Raised, Text, Value};
use sqlite_items::Items;
use std::alloc::Global;

/// What is done about an exception.
#[derive(Drop)]
pub(crate) enum Choice {
    /// The suite of this handler runs.
    Handler { name: Option<Text>, suite: u32 },
    /// No handler takes it.
    Passes,
    /// What should be a handler is none.
    Nowhere,
}

/// The first of these handlers that takes the exception runs; where none does, the exception goes on.
pub(crate) fn handle(
    alloc: Global,
    stack: &mut Vec<Frame>,
    texts: &[Program],
    handled: &mut Items<Handling>,
    env: Env,
    handlers: &[u32],
    raised: Raised,
) -> Result<Next, NoMemory>
    ensures means { IfOk result (λ next. (fixed : State) → MeansOver (handling_in fixed texts.now handled.old) (handling_in fixed texts.now handled.new) stack.new.items next (handles env raised handlers.now) stack.old.items) }
    ensures light { IfOk result (λ next. IsLight stack.new.items next stack.old.items) }
{
    let choice = choose(alloc, texts, env, handlers, &raised)?;
    match choice {
        Choice::Handler { name, suite } => {
            begin_handling(alloc, stack, texts, handled, env, name, raised, suite)
        }
        Choice::Passes => Ok(Next::Give(Completion::Raises(raised))),
        Choice::Nowhere => Ok(Next::Leave(Beyond::NotYet)),
    }
}

/// The first of these handlers that takes the exception.
fn choose(
    alloc: Global,
    texts: &[Program],
    env: Env,
    handlers: &[u32],
    raised: &Raised,
) -> Result<Choice, NoMemory>
    ensures { IfOk result (λ choice. IsChosen env texts.now raised.now handlers.now (chosen env raised.now choice)) }
{
    for number in handlers {
        let Some(Node::Statement(Statement::Except { kinds, name, body })) = node_at(
            texts, env, *number,
        ) else {
            return Ok(Choice::Nowhere);
        };
        if catches(kinds.as_slice(), raised.kind) {
            let name = text_of_name(alloc, name)?;
            return Ok(Choice::Handler { name, suite: *body });
        }
    }
    Ok(Choice::Passes)
}

fn text_of_name(alloc: Global, name: &Option<Name>) -> Result<Option<Text>, NoMemory>
    ensures { IfOk result (λ text. text ≡ name_of name.now) }
{
    match name {
        Some(name) => Ok(Some(name.text.copy(alloc)?)),
        None => Ok(None),
    }
}

/// The suite of a handler begins, and its exception is being handled.
fn begin_handling(
    alloc: Global,
    stack: &mut Vec<Frame>,
    texts: &[Program],
    handled: &mut Items<Handling>,
    env: Env,
    name: Option<Text>,
    raised: Raised,
    suite: u32,
) -> Result<Next, NoMemory>
    ensures means { IfOk result (λ next. (fixed : State) → MeansOver (handling_in fixed texts.now handled.old) (handling_in fixed texts.now handled.new) stack.new.items next (handling env name raised (executes_suite env suite)) stack.old.items) }
    ensures light { IfOk result (λ next. IsLight stack.new.items next stack.old.items) }
{
    let copy = copy_name(alloc, &name)?;
    enter_handling(handled, env, copy, raised)?;
    handle_suite(alloc, stack, texts, handled, env, name, suite)
}

/// The exception is being handled, innermost.
fn enter_handling(
    handled: &mut Items<Handling>,
    env: Env,
    name: Option<Text>,
    raised: Raised,
) -> Result<(), NoMemory>
    ensures { OnOk result (IsEntered env name raised handled.old handled.new) }
{
    handled.push(Handling {
        text: env.text,
        scope: env.scope,
        name,
        raised,
        bound: true,
    })?;
    Ok(())
}

/// A suite that runs while an exception is being handled. With no statement in it that ends at once.
fn handle_suite(
    alloc: Global,
    stack: &mut Vec<Frame>,
    texts: &[Program],
    handled: &mut Items<Handling>,
    env: Env,
    name: Option<Text>,
    suite: u32,
) -> Result<Next, NoMemory>
    ensures means { IfOk result (λ next. (fixed : State) → MeansOver (handling_in fixed texts.now handled.old) (handling_in fixed texts.now handled.new) stack.new.items next (bind (executes_suite env suite) (λ a. changes (left env name) (Return a))) stack.old.items) }
    ensures light { IfOk result (λ next. IsLight stack.new.items next stack.old.items) }
{
    let Some(Node::Statement(Statement::Suite(statements))) = node_at(texts, env, suite) else {
        return Ok(Next::Leave(Beyond::NotYet));
    };
    let mut waiting = waiting_numbers(alloc, statements.as_slice())?;
    match waiting.pop() {
        Some(number) => enter_handler(stack, env, name, number, waiting),
        None => end_handling(
            alloc,
            handled,
            env,
            &name,
            Completion::Gives(Value::Plain(Plain::None)),
        ),
    }
}

/// The statements of a suite that runs while an exception is being handled.
fn enter_handler(
    stack: &mut Vec<Frame>,
    env: Env,
    name: Option<Text>,
    number: u32,
    waiting: Items<u32>,
) -> Result<Next, NoMemory>
    ensures means { IfOk result (λ next. Means stack.new.items next (bind (executes_all env (number ∷ reverse waiting)) (λ a. changes (left env name) (Return a))) stack.old.items) }
    ensures load { IfOk result (λ next. load stack.new.items next ≡ 3 * length stack.old.items + 6) }
{
    stack.push(Frame::Handler(HandlerFrame::Handling { env, name }))?;
    enter_suite(stack, env, number, waiting)
}

/// An exception is no longer being handled, and the end of its suite goes on.
pub(crate) fn end_handling(
    alloc: Global,
    handled: &mut Items<Handling>,
    env: Env,
    name: &Option<Text>,
    completion: Completion,
) -> Result<Next, NoMemory>
    ensures means { IfOk result (λ next. (fixed : State) (texts : List Program) (stack : List Frame) → MeansOver (handling_in fixed texts handled.old) (handling_in fixed texts handled.new) stack next (changes (left env name.now) (Return completion)) stack) }
    ensures light { IfOk result (λ next. (stack : List Frame) → IsLight stack next stack) }
{
    leave(alloc, handled, env, name)?;
    Ok(Next::Give(completion))
}

/// The suite of `finally` begins, with the end that came to it; an exception that is under way is being handled there.
pub(crate) fn begin_finally(
    alloc: Global,
    stack: &mut Vec<Frame>,
    texts: &[Program],
    handled: &mut Items<Handling>,
    env: Env,
    suite: u32,
    completion: Completion,
) -> Result<Next, NoMemory>
    ensures means { IfOk result (λ next. (fixed : State) → MeansOver (handling_in fixed texts.now handled.old) (handling_in fixed texts.now handled.new) stack.new.items next (finally_suite env suite completion) stack.old.items) }
    ensures light { IfOk result (λ next. IsLight stack.new.items next stack.old.items) }
{
    match completion {
        Completion::Raises(raised) => {
            begin_raising_finally(alloc, stack, texts, handled, env, suite, raised)
        }
        other => begin_pending(alloc, stack, texts, env, suite, other),
    }
}

/// The suite of `finally`, with an exception under way.
fn begin_raising_finally(
    alloc: Global,
    stack: &mut Vec<Frame>,
    texts: &[Program],
    handled: &mut Items<Handling>,
    env: Env,
    suite: u32,
    raised: Raised,
) -> Result<Next, NoMemory>
    ensures means { IfOk result (λ next. (fixed : State) → MeansOver (handling_in fixed texts.now handled.old) (handling_in fixed texts.now handled.new) stack.new.items next (bind (handling env None raised (executes_suite env suite)) (replaces (Raises raised))) stack.old.items) }
    ensures light { IfOk result (λ next. IsLight stack.new.items next stack.old.items) }
{
    let pending = raised.copy(alloc)?;
    enter_handling(handled, env, None, raised)?;
    raise_through(alloc, stack, texts, handled, env, suite, pending)
}

/// The suite of `finally`, with an exception under way that is being handled. With no statement in it that ends at once.
fn raise_through(
    alloc: Global,
    stack: &mut Vec<Frame>,
    texts: &[Program],
    handled: &mut Items<Handling>,
    env: Env,
    suite: u32,
    raised: Raised,
) -> Result<Next, NoMemory>
    ensures means { IfOk result (λ next. (fixed : State) → MeansOver (handling_in fixed texts.now handled.old) (handling_in fixed texts.now handled.new) stack.new.items next (bind (bind (executes_suite env suite) (λ a. changes (left env None) (Return a))) (replaces (Raises raised))) stack.old.items) }
    ensures light { IfOk result (λ next. IsLight stack.new.items next stack.old.items) }
{
    let Some(Node::Statement(Statement::Suite(statements))) = node_at(texts, env, suite) else {
        return Ok(Next::Leave(Beyond::NotYet));
    };
    let mut waiting = waiting_numbers(alloc, statements.as_slice())?;
    match waiting.pop() {
        Some(number) => enter_raising_finally(stack, env, raised, number, waiting),
        None => end_raising_finally(alloc, handled, env, raised),
    }
}

fn enter_raising_finally(
    stack: &mut Vec<Frame>,
    env: Env,
    raised: Raised,
    number: u32,
    waiting: Items<u32>,
) -> Result<Next, NoMemory>
    ensures means { IfOk result (λ next. Means stack.new.items next (bind (bind (executes_all env (number ∷ reverse waiting)) (λ a. changes (left env None) (Return a))) (replaces (Raises raised))) stack.old.items) }
    ensures light { IfOk result (λ next. IsLight stack.new.items next stack.old.items) }
{
    stack.push(Frame::Handler(HandlerFrame::Pending(Completion::Raises(raised))))?;
    enter_handler(stack, env, None, number, waiting)
}

fn end_raising_finally(
    alloc: Global,
    handled: &mut Items<Handling>,
    env: Env,
    raised: Raised,
) -> Result<Next, NoMemory>
    ensures means { IfOk result (λ next. (fixed : State) (texts : List Program) (stack : List Frame) → MeansOver (handling_in fixed texts handled.old) (handling_in fixed texts handled.new) stack next (changes (left env None) (Return (Raises raised))) stack) }
    ensures light { IfOk result (λ next. (stack : List Frame) → IsLight stack next stack) }
{
    end_handling(alloc, handled, env, &None, Completion::Raises(raised))
}

/// The suite of `finally`, with an end that is no exception. With no statement in it that end goes on at once.
pub(crate) fn begin_pending(
    alloc: Global,
    stack: &mut Vec<Frame>,
    texts: &[Program],
    env: Env,
    suite: u32,
    pending: Completion,
) -> Result<Next, NoMemory>
    ensures means { IfOk result (λ next. (s : State) → MeansIn (reading s texts.now) stack.new.items next (bind (executes_suite env suite) (replaces pending)) stack.old.items) }
    ensures light { IfOk result (λ next. IsLight stack.new.items next stack.old.items) }
{
    let Some(Node::Statement(Statement::Suite(statements))) = node_at(texts, env, suite) else {
        return Ok(Next::Leave(Beyond::NotYet));
    };
    let mut waiting = waiting_numbers(alloc, statements.as_slice())?;
    match waiting.pop() {
        Some(number) => enter_pending(stack, env, pending, number, waiting),
        None => Ok(Next::Give(pending)),
    }
}

fn enter_pending(
    stack: &mut Vec<Frame>,
    env: Env,
    pending: Completion,
    number: u32,
    waiting: Items<u32>,
) -> Result<Next, NoMemory>
    ensures means { IfOk result (λ next. Means stack.new.items next (bind (executes_all env (number ∷ reverse waiting)) (replaces pending)) stack.old.items) }
    ensures light { IfOk result (λ next. IsLight stack.new.items next stack.old.items) }
{
    stack.push(Frame::Handler(HandlerFrame::Pending(pending)))?;
    enter_suite(stack, env, number, waiting)
}
