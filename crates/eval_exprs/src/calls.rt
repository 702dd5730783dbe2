ghost use Rattle.std.specs.Prelude.{◌≡◌, IfOk, List, None, Some, reverse, slice_get};
ghost use Rattle.eval_frames.specs.Meaning.{IsLight, Means, MeansIn, calls};
ghost use Rattle.language_rules.specs.AtOnce.{stated};
ghost use Rattle.language_rules.specs.Expressions.{builtin_call, call_rule};
ghost use Rattle.language_rules.specs.Going.{evaluates_behind, looks};
ghost use Rattle.language_rules.specs.States.{State};
ghost use Rattle.language_rules.specs.Texts.{node_at, node_of};
ghost use Rattle.eval_exprs.specs.Callees.{builtin_named, callee_rule, reading_for};
ghost use Rattle.eval_exprs.specs.Steps.{MeansAt};

use crate::gather::gather;
use crate::handler_names::{begin_handler_name, handler_argument};
use eval_frames::{
    ExpressionFrame, Frame, Gathering, HandlerReading, Next, enter_over, node_at, operate,
    waiting_numbers,
};
use object_operations::{Env, Operation};
use py_ast::{Builtin, Expression, Node, Program};
use py_store::Store;
use rp_base::{NoMemory, Text, Value};
use sqlite_items::Items;
use std::alloc::Global;

/// A call (Python Language Reference, "Calls"). The name of a builtin function is no node of its own; any other callee
/// comes before the arguments.
pub fn begin_call(
    alloc: Global,
    stack: &mut Vec<Frame>,
    store: &Store,
    texts: &[Program],
    env: Env,
    callee: u32,
    arguments: &[u32],
) -> Result<Next, NoMemory>
    ensures means { IfOk result (λ next. (fixed : State) → MeansIn (stated fixed store.now.cells texts.now) stack.new.items next (looks (λ s. call_rule s env callee arguments.now (node_at s env callee))) stack.old.items) }
    ensures light { IfOk result (λ next. IsLight stack.new.items next stack.old.items) }
{
    match builtin_at(texts, env, callee) {
        Some(function) => {
            let name = handler_argument(alloc, texts, env, arguments)?;
            call_builtin(alloc, stack, store, env, function, arguments, name)
        }
        None => begin_callee(alloc, stack, env, callee, arguments),
    }
}

/// The builtin function that a callee names.
fn builtin_at(texts: &[Program], env: Env, callee: u32) -> Option<Builtin>
    ensures { result ≡ builtin_named (node_of (slice_get texts.now env.text) callee) }
{
    match node_at(texts, env, callee) {
        Some(Node::Expression(Expression::Builtin(function))) => Some(*function),
        _ => None,
    }
}

/// The arguments of a builtin function, of which the only one may be the name of a handler.
fn call_builtin(
    alloc: Global,
    stack: &mut Vec<Frame>,
    store: &Store,
    env: Env,
    function: Builtin,
    arguments: &[u32],
    name: Option<Text>,
) -> Result<Next, NoMemory>
    ensures means { IfOk result (λ next. MeansAt store.now.cells stack.new.items next (builtin_call env function arguments.now name) stack.old.items) }
    ensures light { IfOk result (λ next. IsLight stack.new.items next stack.old.items) }
{
    match name {
        Some(name) => call_with_handler(alloc, stack, store, env, function, arguments, name),
        None => gather(
            alloc,
            stack,
            store,
            env,
            Gathering::Builtin(function),
            arguments,
        ),
    }
}

fn call_with_handler(
    alloc: Global,
    stack: &mut Vec<Frame>,
    store: &Store,
    env: Env,
    function: Builtin,
    arguments: &[u32],
    name: Text,
) -> Result<Next, NoMemory>
    ensures means { IfOk result (λ next. MeansAt store.now.cells stack.new.items next (builtin_call env function arguments.now (Some name)) stack.old.items) }
    ensures light { IfOk result (λ next. IsLight stack.new.items next stack.old.items) }
{
    match reading_for(function) {
        Some(reading) => begin_handler_name(stack, env, name, reading),
        None => gather(
            alloc,
            stack,
            store,
            env,
            Gathering::Builtin(function),
            arguments,
        ),
    }
}

/// What `str` and `repr` ask of an exception.
fn reading_for(function: Builtin) -> Option<HandlerReading>
    ensures { result ≡ reading_for function }
{
    match function {
        Builtin::Str => Some(HandlerReading::Str),
        Builtin::Repr => Some(HandlerReading::Repr),
        _ => None,
    }
}

/// Any other callee, in front of its arguments.
fn begin_callee(
    alloc: Global,
    stack: &mut Vec<Frame>,
    env: Env,
    callee: u32,
    arguments: &[u32],
) -> Result<Next, NoMemory>
    ensures means { IfOk result (λ next. Means stack.new.items next (callee_rule env callee arguments.now) stack.old.items) }
    ensures light { IfOk result (λ next. IsLight stack.new.items next stack.old.items) }
{
    let waiting = waiting_numbers(alloc, arguments)?;
    enter_callee(stack, env, callee, waiting)
}

fn enter_callee(
    stack: &mut Vec<Frame>,
    env: Env,
    callee: u32,
    waiting: Items<u32>,
) -> Result<Next, NoMemory>
    ensures means { IfOk result (λ next. Means stack.new.items next (callee_rule env callee (reverse waiting)) stack.old.items) }
    ensures light { IfOk result (λ next. IsLight stack.new.items next stack.old.items) }
{
    let frame = ExpressionFrame::Callee { env, waiting };
    enter_over(stack, Frame::Expression(frame), env, callee)
}

/// The arguments of a call that wait, behind these values; then the call itself.
pub fn gather_arguments(
    stack: &mut Vec<Frame>,
    env: Env,
    callee: Value,
    values: Items<Value>,
    mut waiting: Items<u32>,
) -> Result<Next, NoMemory>
    ensures means { IfOk result (λ next. Means stack.new.items next (evaluates_behind env values (reverse waiting) (calls callee)) stack.old.items) }
    ensures light { IfOk result (λ next. IsLight stack.new.items next stack.old.items) }
{
    match waiting.pop() {
        Some(argument) => {
            let frame = ExpressionFrame::Arguments {
                env,
                callee,
                values,
                waiting,
            };
            enter_over(stack, Frame::Expression(frame), env, argument)
        }
        None => Ok(operate(Operation::Call {
            callee,
            arguments: values,
        })),
    }
}
