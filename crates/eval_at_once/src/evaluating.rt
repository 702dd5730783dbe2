ghost use Rattle.std.specs.Prelude.{◌≡◌, ◌∷◌, [], IfSome, option_copied, slice_get};
ghost use Rattle.language_rules.specs.Answers.{evaluated};
ghost use Rattle.language_rules.specs.Texts.{node_of};
ghost use Rattle.language_rules.specs.Expressions.{expression_rule};
ghost use Rattle.eval_at_once.specs.Evaluated.{AreEvaluated, IsEvaluated, expression_of};

use crate::applying::{compare, constant, index, invert, named, operate, operate_on};
use eval_frames::node_at;
use object_operations::Env;
use py_ast::{Expression, Link, Node, Program};
use py_store::Store;
use rp_base::Value;
use std::alloc::Global;

/// The value of an expression, and the units that are left behind it.
#[derive(Drop)]
pub struct Evaluated {
    pub value: Value,
    pub left: u64,
}

/// The values of two expressions, of which the second one follows the first.
#[derive(Drop)]
pub(crate) struct Operands {
    pub(crate) first: Evaluated,
    pub(crate) second: Evaluated,
}

/// The value of the expression of this number, with the units that are left of those given. None where it is not to be had
/// at once: operands stand in more than `depth` levels, it has another form, an operand that is an object, too few units,
/// or any end but a value.
#[cycle(evaluates)]
pub fn evaluate(
    alloc: Global,
    store: &Store,
    texts: &[Program],
    env: Env,
    number: u32,
    units: u64,
    depth: u32,
) -> Option<Evaluated>
    ensures { IsEvaluated store.now.cells texts.now (evaluated env number) units result }
{
    let left = units.checked_sub(1)?;
    match expression_at(texts, env, number)? {
        Expression::Name(name) => named(alloc, store, texts, env, name.as_str(), left),
        Expression::Constant(plain) => constant(alloc, plain, left),
        expression => evaluate_parts(alloc, store, texts, env, expression, left, depth),
    }
}

/// An expression that has operands, behind its own unit.
#[cycle(evaluates)]
#[inline(never)]
fn evaluate_parts(
    alloc: Global,
    store: &Store,
    texts: &[Program],
    env: Env,
    expression: &Expression,
    units: u64,
    depth: u32,
) -> Option<Evaluated>
    ensures { IsEvaluated store.now.cells texts.now (expression_rule env expression.now) units result }
{
    let within = depth.checked_sub(1)?;
    match expression {
        &Expression::Binary { op, left, right } => {
            let of = evaluate_two(alloc, store, texts, env, left, right, units, within)?;
            operate(alloc, op, of.first, of.second)
        }
        Expression::Compare { first, links } => {
            let link = only_link(links.as_slice())?;
            let of = evaluate_two(alloc, store, texts, env, *first, link.right, units, within)?;
            compare(alloc, link.comparison, of.first, of.second)
        }
        &Expression::Item { receiver, key } => {
            let of = evaluate_two(alloc, store, texts, env, receiver, key, units, within)?;
            index(alloc, of.first, of.second)
        }
        &Expression::Unary { op, operand } => {
            let of = evaluate(alloc, store, texts, env, operand, units, within)?;
            operate_on(alloc, op, of)
        }
        &Expression::Not(operand) => {
            let of = evaluate(alloc, store, texts, env, operand, units, within)?;
            invert(of)
        }
        _ => None,
    }
}

/// Two operands, one after the other.
#[cycle(evaluates)]
fn evaluate_two(
    alloc: Global,
    store: &Store,
    texts: &[Program],
    env: Env,
    first: u32,
    second: u32,
    units: u64,
    depth: u32,
) -> Option<Operands>
    ensures { AreEvaluated store.now.cells texts.now (evaluated env first) (evaluated env second) units result }
{
    let a = evaluate(alloc, store, texts, env, first, units, depth)?;
    let b = evaluate(alloc, store, texts, env, second, a.left, depth)?;
    Some(Operands {
        first: a,
        second: b,
    })
}

/// The link of a chain that has no other.
fn only_link(links: &[Link]) -> Option<Link>
    ensures { IfSome result (λ link. links.now ≡ link ∷ []) }
{
    match links {
        [link] => Some(*link),
        _ => None,
    }
}

/// The expression of this number.
fn expression_at(texts: &[Program], env: Env, number: u32) -> Option<&Expression>
    ensures { option_copied result ≡ expression_of (node_of (slice_get texts.now env.text) number) }
{
    match node_at(texts, env, number) {
        Some(Node::Expression(expression)) => Some(expression),
        _ => None,
    }
}
