ghost use Rattle.rp_base.specs.declared.value.Value.TheVariants as value;
ghost use Rattle.language_rules.specs.Answers.{gives};
ghost use Rattle.language_rules.specs.AtOnce.{ComputesUnlessAsked};
ghost use Rattle.language_rules.specs.Chains.{link_rule};
ghost use Rattle.language_rules.specs.Going.{RuleTree};
ghost use Rattle.language_rules.specs.Names.{reads_name};
ghost use Rattle.language_rules.specs.Operators.{augmented_rule, binary_rule, unary_rule};
ghost use Rattle.language_rules.specs.PlainItems.{item_of};
ghost use Rattle.eval_at_once.specs.Evaluated.{IsComputed, IsRead, inverted};

use crate::evaluating::Evaluated;
use eval_frames::is_reference;
use eval_names::read_name;
use object_operations::Env;
use py_ast::{Comparison, Program};
use py_store::Store;
use rp_base::{BinaryOp, OpEnd, Plain, UnaryOp, Value};
use std::alloc::Global;
use value_operators::{binary, item, link, truth, unary};

/// The value of a name.
pub(crate) fn named(
    alloc: Global,
    store: &Store,
    texts: &[Program],
    env: Env,
    name: &str,
    left: u64,
) -> Option<Evaluated>
    ensures { IsRead store.now.cells texts.now (reads_name env name.now gives) left result }
{
    match read_name(alloc, store, texts, env, name) {
        Ok(value) => Some(Evaluated { value, left }),
        Err(_) => None,
    }
}

pub(crate) fn constant(alloc: Global, plain: &Plain, left: u64) -> Option<Evaluated>
    ensures { IsComputed (gives (value.Plain plain.now)) left result }
{
    match plain.copy(alloc) {
        Ok(plain) => Some(Evaluated {
            value: Value::Plain(plain),
            left,
        }),
        Err(_) => None,
    }
}

/// A unary operator of an operand at hand.
pub(crate) fn operate_on(alloc: Global, op: UnaryOp, of: Evaluated) -> Option<Evaluated>
    ensures { IsComputed (unary_rule op of.value) of.left result }
{
    told(unary(alloc, op, &of.value), of.left)
}

/// A binary operator of operands at hand.
pub(crate) fn operate(alloc: Global, op: BinaryOp, a: Evaluated, b: Evaluated) -> Option<Evaluated>
    ensures { IsComputed (binary_rule op a.value b.value) b.left result }
{
    told(binary(alloc, op, &a.value, &b.value), b.left)
}

/// An item of a text, a byte string or a tuple at hand.
pub(crate) fn index(alloc: Global, a: Evaluated, b: Evaluated) -> Option<Evaluated>
    ensures { IsComputed (item_of a.value b.value) b.left result }
{
    told(item(alloc, &a.value, &b.value), b.left)
}

/// A comparison of operands at hand.
pub(crate) fn compare(
    alloc: Global,
    comparison: Comparison,
    a: Evaluated,
    b: Evaluated,
) -> Option<Evaluated>
    ensures { IsComputed (link_rule comparison a.value b.value) b.left result }
{
    told(link(alloc, comparison, &a.value, &b.value), b.left)
}

/// The opposite of the truth of an operand at hand.
pub(crate) fn invert(of: Evaluated) -> Option<Evaluated>
    ensures { IsComputed (inverted of.value) of.left result }
{
    match truth(&of.value) {
        Ok(Some(holds)) => Some(Evaluated {
            value: Value::Plain(Plain::Bool(!holds)),
            left: of.left,
        }),
        _ => None,
    }
}

/// What an augmented assignment makes of the old value and the right side. That of an object is none that is at hand.
pub(crate) fn augment(
    alloc: Global,
    op: BinaryOp,
    old: Evaluated,
    right: Evaluated,
) -> Option<Evaluated>
    ensures { IsComputed (augmented_rule op old.value right.value) right.left result }
{
    if is_reference(&old.value) {
        None
    } else {
        operate(alloc, op, old, right)
    }
}

/// What was computed without asking an object.
fn told(answer: Result<Option<Value>, OpEnd>, left: u64) -> Option<Evaluated>
    ensures { (t : RuleTree) → ComputesUnlessAsked t answer → IsComputed t left result }
{
    match answer {
        Ok(Some(value)) => Some(Evaluated { value, left }),
        _ => None,
    }
}
