ghost use Rattle.std.specs.Prelude.{◌≡◌, ◌&&◌, IfOk, List, false, reverse, true};
ghost use Rattle.eval_frames.specs.declared.frame.Frame.{Frame};
ghost use Rattle.eval_frames.specs.declared.frame.Decision.TheVariants as decision;
ghost use Rattle.eval_frames.specs.Meaning.{IsLight, Means, decides};
ghost use Rattle.py_ast.specs.declared.expression.Comparison.{Comparison};
ghost use Rattle.rp_base.specs.declared.value.Value.{Value};
ghost use Rattle.value_operators.specs.Answering.{is_plain};
ghost use Rattle.eval_comparing.specs.Answers.{question_step, refers};
ghost use Rattle.eval_comparing.specs.Compared.{RunsLike, turned_by};
ghost use Rattle.side_trees.specs.Trees.{bind};
ghost use Rattle.language_rules.specs.AtOnce.{Computes};
ghost use Rattle.language_rules.specs.Chains.{link_rule, links_from, links_rule, opposite};
ghost use Rattle.language_rules.specs.Going.{RuleTree, carry, on_value};
ghost use Rattle.language_rules.specs.Kinds.{is_reference};
ghost use Rattle.language_rules.specs.PlainItems.{contains_in};
ghost use Rattle.language_rules.specs.Truth.{on_truth};
ghost use Rattle.eval_exprs.specs.Steps.{IsSlight, MeansAnywhere, asks_link};

use crate::decide::decide_link;
use crate::testing::ask_truth;
use eval_comparing::{Compared, Question, ask_comparison, ask_over, ask_question, link_values};
use eval_frames::{
    Decision, ExpressionFrame, Frame, Next, OperationFrame, enter_over, is_reference, operate,
    special_with,
};
use object_operations::{Completion, Env, Special};
use py_ast::{Comparison, Link};
use rp_base::{Beyond, NoMemory, OpEnd, Value};
use sqlite_items::Items;
use std::alloc::Global;
use value_operators::{link, truth};

/// The first link of a chain, behind its first operand.
pub(crate) fn give_first(
    stack: &mut Vec<Frame>,
    env: Env,
    mut waiting: Items<Link>,
    left: Value,
) -> Result<Next, NoMemory>
    ensures means { IfOk result (λ next. Means stack.new.items next (links_rule env left (reverse waiting)) stack.old.items) }
    ensures light { IfOk result (λ next. IsLight stack.new.items next stack.old.items) }
{
    match waiting.pop() {
        Some(link) => {
            let frame = ExpressionFrame::ChainRight {
                env,
                left,
                comparison: link.comparison,
                waiting,
            };
            enter_over(stack, Frame::Expression(frame), env, link.right)
        }
        None => Ok(Next::Leave(Beyond::NotYet)),
    }
}

/// A link of a chain whose operands are there, with the links behind it.
pub(crate) fn give_right(
    alloc: Global,
    stack: &mut Vec<Frame>,
    env: Env,
    left: Value,
    comparison: Comparison,
    waiting: Items<Link>,
    right: Value,
) -> Result<Next, NoMemory>
    ensures means { IfOk result (λ next. MeansAnywhere stack.new.items next (links_from env (reverse waiting) comparison left right) stack.old.items) }
    ensures light { IfOk result (λ next. IsLight stack.new.items next stack.old.items) }
{
    if asks_link(comparison, &left, &right) {
        ask_in_chain(alloc, stack, env, left, comparison, waiting, right)
    } else {
        tell_in_chain(alloc, stack, env, left, comparison, waiting, right)
    }
}

fn asks_link(comparison: Comparison, left: &Value, right: &Value) -> bool
    ensures { result ≡ asks_link comparison left.now right.now }
{
    match comparison {
        Comparison::Order(_) => is_reference(left) || is_reference(right),
        Comparison::In => is_reference(right),
        Comparison::NotIn => is_reference(right),
        Comparison::Is => false,
        Comparison::IsNot => false,
    }
}

// ---- links that ask an object

fn ask_in_chain(
    alloc: Global,
    stack: &mut Vec<Frame>,
    env: Env,
    left: Value,
    comparison: Comparison,
    mut waiting: Items<Link>,
    right: Value,
) -> Result<Next, NoMemory>
    requires { asks_link comparison left right ≡ true }
    ensures means { IfOk result (λ next. MeansAnywhere stack.new.items next (links_from env (reverse waiting) comparison left right) stack.old.items) }
    ensures light { IfOk result (λ next. IsLight stack.new.items next stack.old.items) }
{
    match waiting.pop() {
        Some(next) => ask_before(alloc, stack, env, left, comparison, right, next, waiting),
        None => ask_link(alloc, stack, comparison, left, right),
    }
}

/// A link that asks, whose answer decides whether the chain goes on.
fn ask_before(
    alloc: Global,
    stack: &mut Vec<Frame>,
    env: Env,
    left: Value,
    comparison: Comparison,
    right: Value,
    next: Link,
    waiting: Items<Link>,
) -> Result<Next, NoMemory>
    requires { asks_link comparison left right ≡ true }
    ensures means { IfOk result (λ n. MeansAnywhere stack.new.items n (bind (link_rule comparison left right) (on_value (λ v. on_truth v (decides (decision.Link env right next waiting) v)))) stack.old.items) }
    ensures light { IfOk result (λ n. IsLight stack.new.items n stack.old.items) }
{
    let decision = Decision::Link {
        env,
        left: right.copy(alloc)?,
        next,
        waiting,
    };
    stack.push(Frame::Test(decision))?;
    ask_link(alloc, stack, comparison, left, right)
}

fn ask_link(
    alloc: Global,
    stack: &mut Vec<Frame>,
    comparison: Comparison,
    left: Value,
    right: Value,
) -> Result<Next, NoMemory>
    requires { asks_link comparison left right ≡ true }
    ensures means { IfOk result (λ n. MeansAnywhere stack.new.items n (link_rule comparison left right) stack.old.items) }
    ensures slight { IfOk result (λ n. IsSlight stack.new.items n stack.old.items) }
{
    match comparison {
        Comparison::Order(op) => ask_comparison(alloc, stack, op, left, right),
        Comparison::In => ask_container(alloc, left, right),
        Comparison::NotIn => ask_other_container(alloc, stack, left, right),
        Comparison::Is => unreachable!(),
        Comparison::IsNot => unreachable!(),
    }
}

/// `in` of an object.
fn ask_container(alloc: Global, part: Value, container: Value) -> Result<Next, NoMemory>
    requires { is_reference container ≡ true }
    ensures means { IfOk result (λ n. (stack : List Frame) → Means stack n (contains_in container part) stack) }
    ensures slight { IfOk result (λ n. (stack : List Frame) → IsSlight stack n stack) }
{
    Ok(operate(special_with(alloc, container, Special::Contains, part)?))
}

/// `not in` of an object.
fn ask_other_container(
    alloc: Global,
    stack: &mut Vec<Frame>,
    part: Value,
    container: Value,
) -> Result<Next, NoMemory>
    requires { is_reference container ≡ true }
    ensures means { IfOk result (λ n. Means stack.new.items n (bind (contains_in container part) (on_value opposite)) stack.old.items) }
    ensures slight { IfOk result (λ n. IsSlight stack.new.items n stack.old.items) }
{
    let operation = special_with(alloc, container, Special::Contains, part)?;
    ask_over(stack, Frame::Operation(OperationFrame::Opposite), operation)
}

// ---- links that ask neither operand

fn tell_in_chain(
    alloc: Global,
    stack: &mut Vec<Frame>,
    env: Env,
    left: Value,
    comparison: Comparison,
    waiting: Items<Link>,
    right: Value,
) -> Result<Next, NoMemory>
    requires { asks_link comparison left right ≡ false }
    ensures means { IfOk result (λ next. MeansAnywhere stack.new.items next (links_from env (reverse waiting) comparison left right) stack.old.items) }
    ensures light { IfOk result (λ next. IsLight stack.new.items next stack.old.items) }
{
    match link(alloc, comparison, &left, &right) {
        Ok(Some(value)) => tell(alloc, stack, env, waiting, right, Ok(value)),
        Ok(None) => tell_of_tuples(alloc, stack, env, left, comparison, waiting, right),
        Err(end) => tell(alloc, stack, env, waiting, right, Err(end)),
    }
}

/// What a link came to, with the links behind it.
fn tell(
    alloc: Global,
    stack: &mut Vec<Frame>,
    env: Env,
    mut waiting: Items<Link>,
    right: Value,
    answer: Result<Value, OpEnd>,
) -> Result<Next, NoMemory>
    ensures means { IfOk result (λ next. (c : Comparison) (a : Value) → Computes (link_rule c a right) answer → Means stack.new.items next (links_from env (reverse waiting) c a right) stack.old.items) }
    ensures light { IfOk result (λ next. IsLight stack.new.items next stack.old.items) }
{
    match waiting.pop() {
        Some(next) => go_on_behind(alloc, stack, env, right, next, waiting, answer),
        None => end_chain(answer),
    }
}

/// What the last link came to.
fn end_chain(answer: Result<Value, OpEnd>) -> Result<Next, NoMemory>
    ensures means { IfOk result (λ n. (t : RuleTree) (stack : List Frame) → Computes t answer → Means stack n t stack) }
    ensures light { IfOk result (λ n. (stack : List Frame) → IsLight stack n stack) }
{
    match answer {
        Ok(value) => Ok(Next::Give(Completion::Gives(value))),
        Err(OpEnd::Raise(raised)) => Ok(Next::Give(Completion::Raises(raised))),
        Err(OpEnd::Beyond(beyond)) => Ok(Next::Leave(beyond)),
        Err(OpEnd::NoMemory) => Err(NoMemory),
    }
}

/// What a link came to decides whether the chain goes on.
fn go_on_behind(
    alloc: Global,
    stack: &mut Vec<Frame>,
    env: Env,
    right: Value,
    next: Link,
    waiting: Items<Link>,
    answer: Result<Value, OpEnd>,
) -> Result<Next, NoMemory>
    ensures means { IfOk result (λ n. (t : RuleTree) → Computes t answer → Means stack.new.items n (bind t (on_value (λ v. on_truth v (decides (decision.Link env right next waiting) v)))) stack.old.items) }
    ensures light { IfOk result (λ n. IsLight stack.new.items n stack.old.items) }
{
    match answer {
        Ok(value) => test_link(alloc, stack, env, right, next, waiting, value),
        Err(OpEnd::Raise(raised)) => Ok(Next::Give(Completion::Raises(raised))),
        Err(OpEnd::Beyond(beyond)) => Ok(Next::Leave(beyond)),
        Err(OpEnd::NoMemory) => Err(NoMemory),
    }
}

fn test_link(
    alloc: Global,
    stack: &mut Vec<Frame>,
    env: Env,
    right: Value,
    next: Link,
    waiting: Items<Link>,
    value: Value,
) -> Result<Next, NoMemory>
    ensures means { IfOk result (λ n. Means stack.new.items n (on_truth value (decides (decision.Link env right next waiting) value)) stack.old.items) }
    ensures light { IfOk result (λ n. IsLight stack.new.items n stack.old.items) }
{
    match truth(&value) {
        Ok(Some(holds)) => decide_link(stack, env, right, next, waiting, value, holds),
        Ok(None) => {
            let decision = Decision::Link {
                env,
                left: right,
                next,
                waiting,
            };
            ask_truth(alloc, stack, decision, value)
        }
        Err(OpEnd::Raise(raised)) => Ok(Next::Give(Completion::Raises(raised))),
        Err(OpEnd::Beyond(beyond)) => Ok(Next::Leave(beyond)),
        Err(OpEnd::NoMemory) => Err(NoMemory),
    }
}

// ---- links of tuples that hold objects

fn tell_of_tuples(
    alloc: Global,
    stack: &mut Vec<Frame>,
    env: Env,
    left: Value,
    comparison: Comparison,
    waiting: Items<Link>,
    right: Value,
) -> Result<Next, NoMemory>
    requires apart { asks_link comparison left right ≡ false }
    requires other { (is_plain left && is_plain right) ≡ false }
    ensures means { IfOk result (λ next. MeansAnywhere stack.new.items next (links_from env (reverse waiting) comparison left right) stack.old.items) }
    ensures light { IfOk result (λ next. IsLight stack.new.items next stack.old.items) }
{
    match link_values(alloc, comparison, &left, &right)? {
        Compared::Ended(answer) => tell(alloc, stack, env, waiting, right, answer),
        Compared::Asked(question) => {
            ask_within_chain(alloc, stack, env, waiting, right, question, false)
        }
        Compared::Opposite(question) => {
            ask_within_chain(alloc, stack, env, waiting, right, question, true)
        }
    }
}

/// A comparison within tuples asks an object.
fn ask_within_chain(
    alloc: Global,
    stack: &mut Vec<Frame>,
    env: Env,
    mut waiting: Items<Link>,
    right: Value,
    question: Question,
    turned: bool,
) -> Result<Next, NoMemory>
    requires { refers question.left question.right }
    ensures means { IfOk result (λ next. (c : Comparison) (a : Value) → RunsLike (link_rule c a right) (turned_by turned (carry (question_step question))) → MeansAnywhere stack.new.items next (links_from env (reverse waiting) c a right) stack.old.items) }
    ensures light { IfOk result (λ next. IsLight stack.new.items next stack.old.items) }
{
    match waiting.pop() {
        Some(next) => ask_before_link(alloc, stack, env, waiting, right, next, question, turned),
        None => ask_question(alloc, stack, question, turned),
    }
}

/// Its answer decides whether the chain goes on.
fn ask_before_link(
    alloc: Global,
    stack: &mut Vec<Frame>,
    env: Env,
    waiting: Items<Link>,
    right: Value,
    next: Link,
    question: Question,
    turned: bool,
) -> Result<Next, NoMemory>
    requires { refers question.left question.right }
    ensures means { IfOk result (λ n. MeansAnywhere stack.new.items n (bind (turned_by turned (carry (question_step question))) (on_value (λ v. on_truth v (decides (decision.Link env right next waiting) v)))) stack.old.items) }
    ensures light { IfOk result (λ n. IsLight stack.new.items n stack.old.items) }
{
    let decision = Decision::Link {
        env,
        left: right,
        next,
        waiting,
    };
    stack.push(Frame::Test(decision))?;
    ask_question(alloc, stack, question, turned)
}
