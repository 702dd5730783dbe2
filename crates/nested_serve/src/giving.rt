ghost use Rattle.std.specs.Prelude.{IfOk, List};
ghost use Rattle.py_store.specs.declared.cell.Cell.{Cell};
ghost use Rattle.eval_frames.specs.Meaning.{IsLight, MeansIn, MeansOver, decides, resume, through_expression, through_statement};
ghost use Rattle.eval_frames.specs.MethodFrames.{through_method};
ghost use Rattle.eval_frames.specs.TargetFrames.{through_target};
ghost use Rattle.language_rules.specs.AtOnce.{stated};
ghost use Rattle.language_rules.specs.States.{State};
ghost use Rattle.language_rules.specs.Truth.{on_bool, on_truth};
ghost use Rattle.language_rules.specs.Going.{on_value};
ghost use Rattle.nested_serve.specs.Machines.{IsValueOf};

use eval_calls::{empty_call, end_call};
use eval_comparing::{decide_levels, give_comparison};
use eval_draining::give_drain;
use eval_exprs::{
    ask_truth, decide_and, decide_bool, decide_conditional, decide_link, decide_not, decide_or,
    give_expression, give_operation, told_truth,
};
use eval_frames::{
    Decision, ExpressionFrame, Frame, MethodFrame, Next, StatementFrame, TargetFrame,
};
use eval_instances::give_method;
use eval_loops::give_for;
use eval_searching::{give_addition, give_equality, give_search};
use eval_stmts::{decide_if, decide_while, end_turn, give_statement};
use eval_targets::give_target;
use object_operations::Completion;
use py_ast::Program;
use py_store::Store;
use rp_base::{NoMemory, OpEnd, Value};
use std::alloc::Global;
use value_operators::truth;

/// What waits goes on with the end that it waits for, but for handlers, for what is printed and for texts of lists and
/// dicts.
pub fn give(
    alloc: Global,
    stack: &mut Vec<Frame>,
    store: &mut Store,
    texts: &[Program],
    frame: Frame,
    completion: Completion,
) -> Result<Next, NoMemory>
    ensures means { IfOk result (λ next. (fixed : State) → MeansOver (stated fixed store.old.cells texts.now) (stated fixed store.new.cells texts.now) stack.new.items next (resume frame completion) stack.old.items) }
    ensures light { IfOk result (λ next. IsLight stack.new.items next stack.old.items) }
{
    match frame {
        Frame::While { env, test, body } => end_turn(stack, env, test, body, completion),
        Frame::Truth { decision, value } => {
            give_to_truth(alloc, stack, texts, decision, value, completion)
        }
        Frame::Call => Ok(end_call(completion)),
        Frame::EmptiedCall { scope, parent } => {
            empty_call(alloc, store, scope, parent, completion)
        }
        Frame::Operation(frame) => give_operation(alloc, frame, completion),
        Frame::Comparison(frame) => give_comparison(alloc, stack, frame, completion),
        Frame::Handler(_) | Frame::Printing(_) | Frame::Text(_) | Frame::Class(_) => {
            Err(NoMemory)
        }
        Frame::Method(frame) => give_to_method(alloc, stack, store, frame, completion),
        Frame::Target(frame) => give_to_target(alloc, stack, store, texts, frame, completion),
        Frame::For(frame) => give_for(alloc, stack, store, texts, frame, completion),
        Frame::Drain(frame) => give_drain(alloc, stack, store, texts, frame, completion),
        Frame::Search(frame) => give_search(alloc, stack, store, frame, completion),
        Frame::Equality(frame) => give_equality(alloc, stack, store, frame, completion),
        Frame::Addition(frame) => give_addition(alloc, stack, store, frame, completion),
        Frame::Expression(frame) => give_to_expression(alloc, stack, store, frame, completion),
        Frame::Statement(frame) => {
            give_to_statement(alloc, stack, store, texts, frame, completion)
        }
        Frame::Test(decision) => give_to_test(alloc, stack, texts, decision, completion),
    }
}

#[inline(never)]
fn give_to_expression(
    alloc: Global,
    stack: &mut Vec<Frame>,
    store: &Store,
    frame: ExpressionFrame,
    completion: Completion,
) -> Result<Next, NoMemory>
    ensures means { IfOk result (λ next. (fixed : State) (texts : List Program) → MeansIn (stated fixed store.now.cells texts) stack.new.items next (on_value (through_expression frame) completion) stack.old.items) }
    ensures light { IfOk result (λ next. IsLight stack.new.items next stack.old.items) }
{
    match value_of(completion) {
        Ok(value) => give_expression(alloc, stack, store, frame, value),
        Err(end) => Ok(Next::Give(end)),
    }
}

#[inline(never)]
fn give_to_method(
    alloc: Global,
    stack: &mut Vec<Frame>,
    store: &Store,
    frame: MethodFrame,
    completion: Completion,
) -> Result<Next, NoMemory>
    ensures means { IfOk result (λ next. (fixed : State) (texts : List Program) → MeansIn (stated fixed store.now.cells texts) stack.new.items next (on_value (through_method frame) completion) stack.old.items) }
    ensures light { IfOk result (λ next. IsLight stack.new.items next stack.old.items) }
{
    match value_of(completion) {
        Ok(value) => give_method(alloc, stack, store, frame, value),
        Err(end) => Ok(Next::Give(end)),
    }
}

#[inline(never)]
fn give_to_statement(
    alloc: Global,
    stack: &mut Vec<Frame>,
    store: &mut Store,
    texts: &[Program],
    frame: StatementFrame,
    completion: Completion,
) -> Result<Next, NoMemory>
    ensures means { IfOk result (λ next. (fixed : State) → MeansOver (stated fixed store.old.cells texts.now) (stated fixed store.new.cells texts.now) stack.new.items next (on_value (through_statement frame) completion) stack.old.items) }
    ensures light { IfOk result (λ next. IsLight stack.new.items next stack.old.items) }
{
    match value_of(completion) {
        Ok(value) => give_statement(alloc, stack, store, texts, frame, value),
        Err(end) => Ok(Next::Give(end)),
    }
}

#[inline(never)]
fn give_to_target(
    alloc: Global,
    stack: &mut Vec<Frame>,
    store: &mut Store,
    texts: &[Program],
    frame: TargetFrame,
    completion: Completion,
) -> Result<Next, NoMemory>
    ensures means { IfOk result (λ next. (fixed : State) → MeansOver (stated fixed store.old.cells texts.now) (stated fixed store.new.cells texts.now) stack.new.items next (on_value (through_target frame) completion) stack.old.items) }
    ensures light { IfOk result (λ next. IsLight stack.new.items next stack.old.items) }
{
    match value_of(completion) {
        Ok(value) => give_target(alloc, stack, store, texts, frame, value),
        Err(end) => Ok(Next::Give(end)),
    }
}

fn give_to_test(
    alloc: Global,
    stack: &mut Vec<Frame>,
    texts: &[Program],
    decision: Decision,
    completion: Completion,
) -> Result<Next, NoMemory>
    ensures means { IfOk result (λ next. (fixed : State) (cells : List Cell) → MeansIn (stated fixed cells texts.now) stack.new.items next (on_value (λ v. on_truth v (decides decision v)) completion) stack.old.items) }
    ensures light { IfOk result (λ next. IsLight stack.new.items next stack.old.items) }
{
    match value_of(completion) {
        Ok(value) => test(alloc, stack, texts, decision, value),
        Err(end) => Ok(Next::Give(end)),
    }
}

/// The answer to a question for a truth decides.
#[inline(never)]
fn give_to_truth(
    alloc: Global,
    stack: &mut Vec<Frame>,
    texts: &[Program],
    decision: Decision,
    value: Value,
    completion: Completion,
) -> Result<Next, NoMemory>
    ensures means { IfOk result (λ next. (fixed : State) (cells : List Cell) → MeansIn (stated fixed cells texts.now) stack.new.items next (on_bool (decides decision value) completion) stack.old.items) }
    ensures light { IfOk result (λ next. IsLight stack.new.items next stack.old.items) }
{
    match told_truth(completion) {
        Ok(holds) => decide(alloc, stack, texts, decision, value, holds),
        Err(next) => Ok(next),
    }
}

/// The value, or an end that passes what waits for a value.
pub(crate) fn value_of(completion: Completion) -> Result<Value, Completion>
    ensures { IsValueOf completion result }
{
    match completion {
        Completion::Gives(value) => Ok(value),
        Completion::Raises(raised) => Err(Completion::Raises(raised)),
        Completion::Returns(value) => Err(Completion::Returns(value)),
        Completion::Breaks => Err(Completion::Breaks),
        Completion::Continues => Err(Completion::Continues),
        Completion::Drained(values) => Err(Completion::Drained(values)),
    }
}

/// The truth of a value decides.
fn test(
    alloc: Global,
    stack: &mut Vec<Frame>,
    texts: &[Program],
    decision: Decision,
    value: Value,
) -> Result<Next, NoMemory>
    ensures means { IfOk result (λ next. (fixed : State) (cells : List Cell) → MeansIn (stated fixed cells texts.now) stack.new.items next (on_truth value (decides decision value)) stack.old.items) }
    ensures light { IfOk result (λ next. IsLight stack.new.items next stack.old.items) }
{
    match truth(&value) {
        Ok(Some(holds)) => decide(alloc, stack, texts, decision, value, holds),
        Ok(None) => ask_truth(alloc, stack, decision, value),
        Err(OpEnd::Raise(raised)) => Ok(Next::Give(Completion::Raises(raised))),
        Err(OpEnd::Beyond(beyond)) => Ok(Next::Leave(beyond)),
        Err(OpEnd::NoMemory) => Err(NoMemory),
    }
}

/// What is done by the truth of a value.
fn decide(
    alloc: Global,
    stack: &mut Vec<Frame>,
    texts: &[Program],
    decision: Decision,
    value: Value,
    holds: bool,
) -> Result<Next, NoMemory>
    ensures means { IfOk result (λ next. (fixed : State) (cells : List Cell) → MeansIn (stated fixed cells texts.now) stack.new.items next (decides decision value holds) stack.old.items) }
    ensures light { IfOk result (λ next. IsLight stack.new.items next stack.old.items) }
{
    match decision {
        Decision::Or { env, next, waiting } => decide_or(stack, env, next, waiting, value, holds),
        Decision::And { env, next, waiting } => decide_and(stack, env, next, waiting, value, holds),
        Decision::Not => Ok(decide_not(holds)),
        Decision::Levels { levels } => decide_levels(alloc, stack, levels, holds),
        Decision::Bool => Ok(decide_bool(holds)),
        Decision::Conditional {
            env,
            then,
            otherwise,
        } => Ok(decide_conditional(env, then, otherwise, holds)),
        Decision::Link {
            env,
            left,
            next,
            waiting,
        } => decide_link(stack, env, left, next, waiting, value, holds),
        Decision::If {
            env,
            then,
            otherwise,
        } => decide_if(alloc, stack, texts, env, then, otherwise, holds),
        Decision::While { env, test, body } => {
            decide_while(alloc, stack, texts, env, test, body, holds)
        }
    }
}
