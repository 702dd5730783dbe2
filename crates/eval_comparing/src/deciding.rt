ghost use Rattle.std.specs.Prelude.{◌≡◌, ◌+◌, ◌*◌, ◌≤◌, ◌||◌, IfOk, length, reverse, true};
ghost use Rattle.rp_base.specs.declared.operators.CmpOp.TheVariants as cmp;
ghost use Rattle.rp_base.specs.declared.value.Value.{Value};
ghost use Rattle.eval_frames.specs.declared.frame.Decision.TheVariants as decision;
ghost use Rattle.eval_frames.specs.Meaning.{IsLight, MeansIn, decides, load};
ghost use Rattle.side_trees.specs.Trees.{bind};
ghost use Rattle.language_rules.specs.Chains.{opposite};
ghost use Rattle.language_rules.specs.Codes.{Step};
ghost use Rattle.language_rules.specs.Comparing.{compare_step};
ghost use Rattle.language_rules.specs.Going.{and_value, carry, on_value};
ghost use Rattle.language_rules.specs.Kinds.{is_reference};
ghost use Rattle.language_rules.specs.States.{State};
ghost use Rattle.language_rules.specs.Truth.{and_bool, truth_step};
ghost use Rattle.eval_comparing.specs.Answers.{Answers, MayAsk, question_step, refers, steps_around, told_step};
ghost use Rattle.eval_comparing.specs.Compared.{turned_by};
ghost use Rattle.eval_comparing.specs.Steps.{AddsFrame, IsSlight, MeansAnywhere};

use crate::answer::{Answer, Question};
use crate::asking::{ask_comparison, give_bool};
use crate::levels::advance;
use eval_frames::{Decision, Frame, Next, OperationFrame, TestLevel};
use rp_base::{Beyond, CmpOp, NoMemory, Value};
use sqlite_items::Items;
use std::alloc::Global;

/// Goes on level by level behind a truth.
pub fn decide_levels(
    alloc: Global,
    stack: &mut Vec<Frame>,
    levels: Items<TestLevel>,
    holds: bool,
) -> Result<Next, NoMemory>
    ensures means { IfOk result (λ next. (s : State) (v : Value) → MeansIn s stack.new.items next (decides (decision.Levels levels) v holds) stack.old.items) }
    ensures light { IfOk result (λ next. IsLight stack.new.items next stack.old.items) }
{
    let answer = advance(alloc, levels, holds)?;
    give_answer(alloc, stack, answer)
}

/// What a comparison has come to: its bool, or an object is asked.
pub fn give_answer(alloc: Global, stack: &mut Vec<Frame>, answer: Answer) -> Result<Next, NoMemory>
    requires { MayAsk answer }
    ensures means { IfOk result (λ next. (t : Step) → Answers t answer → MeansAnywhere stack.new.items next (carry t) stack.old.items) }
    ensures light { IfOk result (λ next. IsLight stack.new.items next stack.old.items) }
{
    match answer {
        Answer::Told(holds) => Ok(give_bool(holds)),
        Answer::Uneven => Ok(Next::Leave(Beyond::Compare)),
        Answer::Asked(question) => {
            ask_within(alloc, stack, question.levels, question.left, question.right)
        }
    }
}

/// A comparison asks an object, and its answer goes to these levels.
pub fn ask_within(
    alloc: Global,
    stack: &mut Vec<Frame>,
    levels: Items<TestLevel>,
    left: Value,
    right: Value,
) -> Result<Next, NoMemory>
    requires { refers left right }
    ensures means { IfOk result (λ next. MeansAnywhere stack.new.items next (carry (steps_around (reverse levels) (compare_step cmp.Eq left right))) stack.old.items) }
    ensures frames { IfOk result (λ next. load stack.new.items next ≤ 3 * length stack.old.items + 6) }
{
    if levels.is_empty() {
        ask_comparison(alloc, stack, CmpOp::Eq, left, right)
    } else {
        stack.push(Frame::Test(Decision::Levels { levels }))?;
        ask_comparison(alloc, stack, CmpOp::Eq, left, right)
    }
}

/// A comparison asks an object; where it is turned, the opposite of what it tells is the value.
pub fn ask_question(
    alloc: Global,
    stack: &mut Vec<Frame>,
    question: Question,
    turned: bool,
) -> Result<Next, NoMemory>
    requires { refers question.left question.right }
    ensures means { IfOk result (λ next. MeansAnywhere stack.new.items next (turned_by turned (carry (question_step question))) stack.old.items) }
    ensures slight { IfOk result (λ next. IsSlight stack.new.items next stack.old.items) }
{
    if turned {
        ask_opposite(alloc, stack, question)
    } else {
        ask_within(alloc, stack, question.levels, question.left, question.right)
    }
}

fn ask_opposite(alloc: Global, stack: &mut Vec<Frame>, question: Question) -> Result<Next, NoMemory>
    requires { refers question.left question.right }
    ensures means { IfOk result (λ next. MeansAnywhere stack.new.items next (bind (carry (question_step question)) (on_value opposite)) stack.old.items) }
    ensures slight { IfOk result (λ next. IsSlight stack.new.items next stack.old.items) }
{
    stack.push(Frame::Operation(OperationFrame::Opposite))?;
    ask_within(alloc, stack, question.levels, question.left, question.right)
}

/// A comparison asks an object, and the truth of what it tells is the value.
pub fn ask_truth_of(
    alloc: Global,
    stack: &mut Vec<Frame>,
    question: Question,
) -> Result<Next, NoMemory>
    requires { refers question.left question.right }
    ensures means { IfOk result (λ next. MeansAnywhere stack.new.items next (carry (and_bool (and_value (question_step question) truth_step) told_step)) stack.old.items) }
    ensures frames { IfOk result (λ next. load stack.new.items next ≤ 3 * length stack.old.items + 6) }
{
    let mut levels = Items::new(alloc);
    levels.push(TestLevel::Pairs {
        waiting: Items::new(alloc),
    })?;
    levels.append(question.levels)?;
    ask_within(alloc, stack, levels, question.left, question.right)
}
