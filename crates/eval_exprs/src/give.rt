ghost use Rattle.std.specs.Prelude.{IfOk, List};
ghost use Rattle.py_ast.specs.declared.program.Program.{Program};
ghost use Rattle.eval_frames.specs.declared.frame.Frame.{Frame};
ghost use Rattle.eval_frames.specs.declared.frame.ExpressionFrame.TheVariants as expression_frame;
ghost use Rattle.eval_frames.specs.Meaning.{IsLight, Means, MeansIn, through_expression};
ghost use Rattle.language_rules.specs.AtOnce.{stated};
ghost use Rattle.language_rules.specs.States.{State};
ghost use Rattle.eval_exprs.specs.Steps.{MeansAt};

use crate::calls::gather_arguments;
use crate::gather::gather_further;
use crate::links::{give_first, give_right};
use crate::operating::{give_binary, give_key, give_unary};
use eval_frames::{ExpressionFrame, Frame, Gathering, Next, enter_over, operate};
use object_operations::{Env, Operation};
use py_store::Store;
use rp_base::{BinaryOp, NoMemory, Text, Value};
use sqlite_items::Items;
use std::alloc::Global;

/// An expression goes on with the value of a part.
pub fn give_expression(
    alloc: Global,
    stack: &mut Vec<Frame>,
    store: &Store,
    frame: ExpressionFrame,
    value: Value,
) -> Result<Next, NoMemory>
    ensures means { IfOk result (λ next. (fixed : State) (texts : List Program) → MeansIn (stated fixed store.now.cells texts) stack.new.items next (through_expression frame value) stack.old.items) }
    ensures light { IfOk result (λ next. IsLight stack.new.items next stack.old.items) }
{
    match frame {
        ExpressionFrame::Operands {
            env,
            gathering,
            values,
            waiting,
        } => give_operand(alloc, stack, store, env, gathering, values, waiting, value),
        ExpressionFrame::Unary(op) => give_unary(alloc, op, value),
        ExpressionFrame::BinaryLeft { env, op, right } => give_left(stack, env, op, right, value),
        ExpressionFrame::BinaryRight { op, left } => give_binary(alloc, store, op, left, value),
        ExpressionFrame::ItemReceiver { env, key } => give_receiver(stack, env, key, value),
        ExpressionFrame::ItemKey { receiver } => give_key(alloc, receiver, value),
        ExpressionFrame::ChainFirst { env, waiting } => give_first(stack, env, waiting, value),
        ExpressionFrame::ChainRight {
            env,
            left,
            comparison,
            waiting,
        } => give_right(alloc, stack, env, left, comparison, waiting, value),
        ExpressionFrame::Callee { env, waiting } => give_callee(alloc, stack, env, waiting, value),
        ExpressionFrame::Arguments {
            env,
            callee,
            values,
            waiting,
        } => give_argument(stack, env, callee, values, waiting, value),
        ExpressionFrame::Attribute { name } => Ok(give_attribute(name, value)),
    }
}

fn give_operand(
    alloc: Global,
    stack: &mut Vec<Frame>,
    store: &Store,
    env: Env,
    gathering: Gathering,
    mut values: Items<Value>,
    waiting: Items<u32>,
    value: Value,
) -> Result<Next, NoMemory>
    ensures means { IfOk result (λ next. MeansAt store.now.cells stack.new.items next (through_expression (expression_frame.Operands env gathering values waiting) value) stack.old.items) }
    ensures light { IfOk result (λ next. IsLight stack.new.items next stack.old.items) }
{
    values.push(value)?;
    gather_further(alloc, stack, store, env, gathering, values, waiting)
}

fn give_left(
    stack: &mut Vec<Frame>,
    env: Env,
    op: BinaryOp,
    right: u32,
    left: Value,
) -> Result<Next, NoMemory>
    ensures means { IfOk result (λ next. Means stack.new.items next (through_expression (expression_frame.BinaryLeft env op right) left) stack.old.items) }
    ensures light { IfOk result (λ next. IsLight stack.new.items next stack.old.items) }
{
    let frame = ExpressionFrame::BinaryRight { op, left };
    enter_over(stack, Frame::Expression(frame), env, right)
}

fn give_receiver(
    stack: &mut Vec<Frame>,
    env: Env,
    key: u32,
    receiver: Value,
) -> Result<Next, NoMemory>
    ensures means { IfOk result (λ next. Means stack.new.items next (through_expression (expression_frame.ItemReceiver env key) receiver) stack.old.items) }
    ensures light { IfOk result (λ next. IsLight stack.new.items next stack.old.items) }
{
    let frame = ExpressionFrame::ItemKey { receiver };
    enter_over(stack, Frame::Expression(frame), env, key)
}

/// The callee of a call is there, and its arguments follow.
fn give_callee(
    alloc: Global,
    stack: &mut Vec<Frame>,
    env: Env,
    waiting: Items<u32>,
    callee: Value,
) -> Result<Next, NoMemory>
    ensures means { IfOk result (λ next. Means stack.new.items next (through_expression (expression_frame.Callee env waiting) callee) stack.old.items) }
    ensures light { IfOk result (λ next. IsLight stack.new.items next stack.old.items) }
{
    gather_arguments(stack, env, callee, Items::new(alloc), waiting)
}

fn give_argument(
    stack: &mut Vec<Frame>,
    env: Env,
    callee: Value,
    mut values: Items<Value>,
    waiting: Items<u32>,
    argument: Value,
) -> Result<Next, NoMemory>
    ensures means { IfOk result (λ next. Means stack.new.items next (through_expression (expression_frame.Arguments env callee values waiting) argument) stack.old.items) }
    ensures light { IfOk result (λ next. IsLight stack.new.items next stack.old.items) }
{
    values.push(argument)?;
    gather_arguments(stack, env, callee, values, waiting)
}

/// An attribute is asked of its receiver.
fn give_attribute(name: Text, receiver: Value) -> Next
    ensures means { (stack : List Frame) → Means stack result (through_expression (expression_frame.Attribute name) receiver) stack }
    ensures light { (stack : List Frame) → IsLight stack result stack }
{
    operate(Operation::GetAttr { receiver, name })
}
