ghost use Rattle.std.specs.Prelude.{◌≡◌, IfOk, reverse};
ghost use Rattle.py_ast.specs.declared.expression.Expression.TheVariants as expression;
ghost use Rattle.eval_frames.specs.Meaning.{IsLight, Means};
ghost use Rattle.language_rules.specs.Chains.{and_from, and_rule, chain_rule, or_from, or_rule};

use eval_frames::{Decision, ExpressionFrame, Frame, Next, enter_over, waiting_numbers};
use object_operations::Env;
use py_ast::Link;
use rp_base::{Beyond, NoMemory};
use sqlite_items::Items;
use std::alloc::Global;

/// A chain of `or`.
pub fn begin_any(
    alloc: Global,
    stack: &mut Vec<Frame>,
    env: Env,
    operands: &[u32],
) -> Result<Next, NoMemory>
    ensures means { IfOk result (λ next. Means stack.new.items next (or_rule env operands.now) stack.old.items) }
    ensures light { IfOk result (λ next. IsLight stack.new.items next stack.old.items) }
{
    let mut waiting = waiting_numbers(alloc, operands)?;
    match waiting.pop() {
        Some(operand) => begin_or(stack, env, operand, waiting),
        None => Ok(Next::Leave(Beyond::NotYet)),
    }
}

/// A chain of `and`.
pub fn begin_all(
    alloc: Global,
    stack: &mut Vec<Frame>,
    env: Env,
    operands: &[u32],
) -> Result<Next, NoMemory>
    ensures means { IfOk result (λ next. Means stack.new.items next (and_rule env operands.now) stack.old.items) }
    ensures light { IfOk result (λ next. IsLight stack.new.items next stack.old.items) }
{
    let mut waiting = waiting_numbers(alloc, operands)?;
    match waiting.pop() {
        Some(operand) => begin_and(stack, env, operand, waiting),
        None => Ok(Next::Leave(Beyond::NotYet)),
    }
}

/// The operands of an `or` from this one on.
pub fn begin_or(
    stack: &mut Vec<Frame>,
    env: Env,
    operand: u32,
    mut waiting: Items<u32>,
) -> Result<Next, NoMemory>
    ensures means { IfOk result (λ next. Means stack.new.items next (or_from env operand (reverse waiting)) stack.old.items) }
    ensures light { IfOk result (λ next. IsLight stack.new.items next stack.old.items) }
{
    match waiting.pop() {
        Some(next) => {
            let decision = Decision::Or { env, next, waiting };
            enter_over(stack, Frame::Test(decision), env, operand)
        }
        None => Ok(Next::Enter(env, operand)),
    }
}

/// The operands of an `and` from this one on.
pub fn begin_and(
    stack: &mut Vec<Frame>,
    env: Env,
    operand: u32,
    mut waiting: Items<u32>,
) -> Result<Next, NoMemory>
    ensures means { IfOk result (λ next. Means stack.new.items next (and_from env operand (reverse waiting)) stack.old.items) }
    ensures light { IfOk result (λ next. IsLight stack.new.items next stack.old.items) }
{
    match waiting.pop() {
        Some(next) => {
            let decision = Decision::And { env, next, waiting };
            enter_over(stack, Frame::Test(decision), env, operand)
        }
        None => Ok(Next::Enter(env, operand)),
    }
}

/// A chain of comparisons.
pub fn begin_chain(
    alloc: Global,
    stack: &mut Vec<Frame>,
    env: Env,
    first: u32,
    links: &Items<Link>,
) -> Result<Next, NoMemory>
    ensures means { IfOk result (λ next. Means stack.new.items next (chain_rule env first links.now) stack.old.items) }
    ensures light { IfOk result (λ next. IsLight stack.new.items next stack.old.items) }
{
    let waiting = waiting_links(alloc, links.as_slice())?;
    begin_first(stack, env, first, waiting)
}

/// The first operand of a chain, in front of these links.
fn begin_first(
    stack: &mut Vec<Frame>,
    env: Env,
    first: u32,
    waiting: Items<Link>,
) -> Result<Next, NoMemory>
    ensures means { IfOk result (λ next. Means stack.new.items next (chain_rule env first (reverse waiting)) stack.old.items) }
    ensures light { IfOk result (λ next. IsLight stack.new.items next stack.old.items) }
{
    let frame = ExpressionFrame::ChainFirst { env, waiting };
    enter_over(stack, Frame::Expression(frame), env, first)
}

/// These links, the last first.
fn waiting_links(alloc: Global, links: &[Link]) -> Result<Items<Link>, NoMemory>
    ensures { IfOk result (λ waiting. reverse waiting ≡ links.now) }
{
    let mut waiting = Vec::from_slice(alloc, links)?;
    waiting.reverse();
    Ok(Items::from_vec(waiting))
}
