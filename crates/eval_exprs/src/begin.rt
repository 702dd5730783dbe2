ghost use Rattle.std.specs.Prelude.{IfOk, List, None};
ghost use Rattle.rp_base.specs.declared.value.Value.TheVariants as value;
ghost use Rattle.py_ast.specs.declared.expression.Expression.TheVariants as expression;
ghost use Rattle.eval_frames.specs.declared.frame.Frame.{Frame};
ghost use Rattle.language_rules.specs.Answers.{gives};
ghost use Rattle.eval_frames.specs.Meaning.{IsLight, Means, MeansIn};
ghost use Rattle.language_rules.specs.AtOnce.{stated};
ghost use Rattle.language_rules.specs.Expressions.{attribute_rule, expression_rule};
ghost use Rattle.language_rules.specs.States.{State};
ghost use Rattle.py_store.specs.declared.cell.Cell.{Cell};
ghost use Rattle.eval_exprs.specs.Steps.{MeansAt};

use crate::calls::begin_call;
use crate::chains::{begin_all, begin_any, begin_chain};
use crate::gather::gather;
use crate::handler_names::{begin_handler_name, handler_at};
use eval_frames::{
    Decision, ExpressionFrame, Frame, Gathering, HandlerReading, Next, answered, enter_over,
};
use eval_names::read_name;
use object_operations::{Completion, Env};
use py_ast::{Expression, Program};
use py_store::{Cell, Store};
use rp_base::{Beyond, BinaryOp, NoMemory, Plain, Text, UnaryOp, Value};
use std::alloc::Global;

/// An expression begins, behind its unit.
pub fn begin_expression(
    alloc: Global,
    stack: &mut Vec<Frame>,
    store: &Store,
    texts: &[Program],
    env: Env,
    expression: &Expression,
) -> Result<Next, NoMemory>
    ensures means { IfOk result (λ next. (fixed : State) → MeansIn (stated fixed store.now.cells texts.now) stack.new.items next (expression_rule env expression.now) stack.old.items) }
    ensures light { IfOk result (λ next. IsLight stack.new.items next stack.old.items) }
{
    match expression {
        Expression::Name(name) => answered(read_name(alloc, store, texts, env, name.as_str())),
        Expression::Builtin(_) => Ok(Next::Leave(Beyond::NotYet)),
        Expression::Constant(value) => begin_constant(alloc, value),
        Expression::Tuple(items) => begin_tuple(alloc, stack, store, env, items.as_slice()),
        &Expression::Conditional {
            then,
            test,
            otherwise,
        } => begin_conditional(stack, env, then, test, otherwise),
        Expression::Or(operands) => begin_any(alloc, stack, env, operands.as_slice()),
        Expression::And(operands) => begin_all(alloc, stack, env, operands.as_slice()),
        Expression::Compare { first, links } => { begin_chain(alloc, stack, env, *first, links) }
        &Expression::Not(operand) => begin_not(stack, env, operand),
        &Expression::Unary { op, operand } => begin_unary(stack, env, op, operand),
        &Expression::Binary { op, left, right } => begin_binary(stack, env, op, left, right),
        &Expression::Item { receiver, key } => begin_item(stack, env, receiver, key),
        Expression::Call { callee, arguments } => {
            begin_call(
                alloc,
                stack,
                store,
                texts,
                env,
                *callee,
                arguments.as_slice(),
            )
        }
        &Expression::Lambda(function) => Ok(begin_lambda(env, function)),
        Expression::Attribute { receiver, name } => {
            begin_attribute(alloc, stack, texts, env, *receiver, name)
        }
        Expression::List(items) => begin_list(alloc, stack, store, env, items.as_slice()),
        Expression::Dict(items) => begin_dict(alloc, stack, store, env, items.as_slice()),
    }
}

fn begin_constant(alloc: Global, constant: &Plain) -> Result<Next, NoMemory>
    ensures means { IfOk result (λ next. (stack : List Frame) → Means stack next (gives (value.Plain constant.now)) stack) }
    ensures light { IfOk result (λ next. (stack : List Frame) → IsLight stack next stack) }
{
    Ok(Next::Give(Completion::Gives(Value::Plain(constant.copy(alloc)?))))
}

fn begin_tuple(
    alloc: Global,
    stack: &mut Vec<Frame>,
    store: &Store,
    env: Env,
    items: &[u32],
) -> Result<Next, NoMemory>
    ensures means { IfOk result (λ next. MeansAt store.now.cells stack.new.items next (expression_rule env (expression.Tuple items.now)) stack.old.items) }
    ensures light { IfOk result (λ next. IsLight stack.new.items next stack.old.items) }
{
    gather(alloc, stack, store, env, Gathering::Tuple, items)
}

fn begin_list(
    alloc: Global,
    stack: &mut Vec<Frame>,
    store: &Store,
    env: Env,
    items: &[u32],
) -> Result<Next, NoMemory>
    ensures means { IfOk result (λ next. MeansAt store.now.cells stack.new.items next (expression_rule env (expression.List items.now)) stack.old.items) }
    ensures light { IfOk result (λ next. IsLight stack.new.items next stack.old.items) }
{
    gather(alloc, stack, store, env, Gathering::List, items)
}

fn begin_dict(
    alloc: Global,
    stack: &mut Vec<Frame>,
    store: &Store,
    env: Env,
    items: &[u32],
) -> Result<Next, NoMemory>
    ensures means { IfOk result (λ next. MeansAt store.now.cells stack.new.items next (expression_rule env (expression.Dict items.now)) stack.old.items) }
    ensures light { IfOk result (λ next. IsLight stack.new.items next stack.old.items) }
{
    gather(alloc, stack, store, env, Gathering::Dict, items)
}

/// A function without a name.
fn begin_lambda(env: Env, function: u32) -> Next
    ensures means { (stack : List Frame) → Means stack result (expression_rule env (expression.Lambda function)) stack }
    ensures light { (stack : List Frame) → IsLight stack result stack }
{
    Next::Make(Cell::Function {
        text: env.text,
        function,
        scope: env.scope,
    })
}

/// `e.args` of a handler's name; else the receiver, which is then asked.
fn begin_attribute(
    alloc: Global,
    stack: &mut Vec<Frame>,
    texts: &[Program],
    env: Env,
    receiver: u32,
    name: &Text,
) -> Result<Next, NoMemory>
    ensures means { IfOk result (λ next. (fixed : State) (cells : List Cell) → MeansIn (stated fixed cells texts.now) stack.new.items next (expression_rule env (expression.Attribute receiver name.now)) stack.old.items) }
    ensures light { IfOk result (λ next. IsLight stack.new.items next stack.old.items) }
{
    match handler_at(alloc, texts, env, receiver)? {
        Some(handler) => begin_handler_name(stack, env, handler, HandlerReading::Args),
        None => enter_receiver(alloc, stack, env, receiver, name),
    }
}

fn enter_receiver(
    alloc: Global,
    stack: &mut Vec<Frame>,
    env: Env,
    object: u32,
    name: &Text,
) -> Result<Next, NoMemory>
    ensures means { IfOk result (λ next. Means stack.new.items next (attribute_rule env object name.now None) stack.old.items) }
    ensures light { IfOk result (λ next. IsLight stack.new.items next stack.old.items) }
{
    let frame = ExpressionFrame::Attribute {
        name: name.copy(alloc)?,
    };
    enter_over(stack, Frame::Expression(frame), env, object)
}

fn begin_conditional(
    stack: &mut Vec<Frame>,
    env: Env,
    then: u32,
    test: u32,
    otherwise: u32,
) -> Result<Next, NoMemory>
    ensures means { IfOk result (λ next. Means stack.new.items next (expression_rule env (expression.Conditional then test otherwise)) stack.old.items) }
    ensures light { IfOk result (λ next. IsLight stack.new.items next stack.old.items) }
{
    let decision = Decision::Conditional {
        env,
        then,
        otherwise,
    };
    enter_over(stack, Frame::Test(decision), env, test)
}

fn begin_not(stack: &mut Vec<Frame>, env: Env, operand: u32) -> Result<Next, NoMemory>
    ensures means { IfOk result (λ next. Means stack.new.items next (expression_rule env (expression.Not operand)) stack.old.items) }
    ensures light { IfOk result (λ next. IsLight stack.new.items next stack.old.items) }
{
    enter_over(stack, Frame::Test(Decision::Not), env, operand)
}

fn begin_unary(
    stack: &mut Vec<Frame>,
    env: Env,
    op: UnaryOp,
    operand: u32,
) -> Result<Next, NoMemory>
    ensures means { IfOk result (λ next. Means stack.new.items next (expression_rule env (expression.Unary op operand)) stack.old.items) }
    ensures light { IfOk result (λ next. IsLight stack.new.items next stack.old.items) }
{
    enter_over(
        stack,
        Frame::Expression(ExpressionFrame::Unary(op)),
        env,
        operand,
    )
}

fn begin_binary(
    stack: &mut Vec<Frame>,
    env: Env,
    op: BinaryOp,
    left: u32,
    right: u32,
) -> Result<Next, NoMemory>
    ensures means { IfOk result (λ next. Means stack.new.items next (expression_rule env (expression.Binary op left right)) stack.old.items) }
    ensures light { IfOk result (λ next. IsLight stack.new.items next stack.old.items) }
{
    let frame = ExpressionFrame::BinaryLeft { env, op, right };
    enter_over(stack, Frame::Expression(frame), env, left)
}

fn begin_item(stack: &mut Vec<Frame>, env: Env, receiver: u32, key: u32) -> Result<Next, NoMemory>
    ensures means { IfOk result (λ next. Means stack.new.items next (expression_rule env (expression.Item receiver key)) stack.old.items) }
    ensures light { IfOk result (λ next. IsLight stack.new.items next stack.old.items) }
{
    let frame = ExpressionFrame::ItemReceiver { env, key };
    enter_over(stack, Frame::Expression(frame), env, receiver)
}
