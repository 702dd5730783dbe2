ghost use Rattle.std.specs.Prelude.{IfOk, List};
ghost use Rattle.rp_base.specs.declared.value.Value.{Value};
ghost use Rattle.eval_frames.specs.declared.frame.Decision.TheVariants as decision;
ghost use Rattle.eval_frames.specs.declared.frame.Frame.{Frame};
ghost use Rattle.eval_frames.specs.Meaning.{IsLight, Means, decides};

use crate::chains::{begin_and, begin_or};
use eval_frames::{ExpressionFrame, Frame, Next, enter_over};
use object_operations::{Completion, Env};
use py_ast::Link;
use rp_base::{NoMemory, Plain, Value};
use sqlite_items::Items;

/// An operand of an `or` that is true is the value, else the next one counts.
pub fn decide_or(
    stack: &mut Vec<Frame>,
    env: Env,
    next: u32,
    waiting: Items<u32>,
    value: Value,
    holds: bool,
) -> Result<Next, NoMemory>
    ensures means { IfOk result (λ n. Means stack.new.items n (decides (decision.Or env next waiting) value holds) stack.old.items) }
    ensures light { IfOk result (λ n. IsLight stack.new.items n stack.old.items) }
{
    if holds {
        Ok(Next::Give(Completion::Gives(value)))
    } else {
        begin_or(stack, env, next, waiting)
    }
}

/// An operand of an `and` that is false is the value, else the next one counts.
pub fn decide_and(
    stack: &mut Vec<Frame>,
    env: Env,
    next: u32,
    waiting: Items<u32>,
    value: Value,
    holds: bool,
) -> Result<Next, NoMemory>
    ensures means { IfOk result (λ n. Means stack.new.items n (decides (decision.And env next waiting) value holds) stack.old.items) }
    ensures light { IfOk result (λ n. IsLight stack.new.items n stack.old.items) }
{
    if holds {
        begin_and(stack, env, next, waiting)
    } else {
        Ok(Next::Give(Completion::Gives(value)))
    }
}

/// `not`.
pub fn decide_not(holds: bool) -> Next
    ensures means { (stack : List Frame) (v : Value) → Means stack result (decides decision.Not v holds) stack }
    ensures light { (stack : List Frame) → IsLight stack result stack }
{
    Next::Give(Completion::Gives(Value::Plain(Plain::Bool(!holds))))
}

/// The truth itself.
pub fn decide_bool(holds: bool) -> Next
    ensures means { (stack : List Frame) (v : Value) → Means stack result (decides decision.Bool v holds) stack }
    ensures light { (stack : List Frame) → IsLight stack result stack }
{
    Next::Give(Completion::Gives(Value::Plain(Plain::Bool(holds))))
}

/// One of the two values of a conditional.
pub fn decide_conditional(env: Env, then: u32, otherwise: u32, holds: bool) -> Next
    ensures means { (stack : List Frame) (v : Value) → Means stack result (decides (decision.Conditional env then otherwise) v holds) stack }
    ensures light { (stack : List Frame) → IsLight stack result stack }
{
    if holds {
        Next::Enter(env, then)
    } else {
        Next::Enter(env, otherwise)
    }
}

/// A link of a chain that is true is followed by the next one, and a false one is the value of the chain.
pub fn decide_link(
    stack: &mut Vec<Frame>,
    env: Env,
    left: Value,
    next: Link,
    waiting: Items<Link>,
    value: Value,
    holds: bool,
) -> Result<Next, NoMemory>
    ensures means { IfOk result (λ n. Means stack.new.items n (decides (decision.Link env left next waiting) value holds) stack.old.items) }
    ensures light { IfOk result (λ n. IsLight stack.new.items n stack.old.items) }
{
    if holds {
        let frame = ExpressionFrame::ChainRight {
            env,
            left,
            comparison: next.comparison,
            waiting,
        };
        enter_over(stack, Frame::Expression(frame), env, next.right)
    } else {
        Ok(Next::Give(Completion::Gives(value)))
    }
}
