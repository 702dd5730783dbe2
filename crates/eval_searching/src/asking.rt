ghost use Rattle.std.specs.Prelude.{◌≡◌, ◌+◌, ◌*◌, ◌≤◌, ◌||◌, IfOk, Bool, length, true};
ghost use Rattle.eval_comparing.specs.Answers.{question_step, refers};
ghost use Rattle.eval_frames.specs.Meaning.{MeansIn, load};
ghost use Rattle.language_rules.specs.Codes.{Code, Completion};
ghost use Rattle.language_rules.specs.Going.{RuleTree, and_value, carry};
ghost use Rattle.language_rules.specs.Kinds.{is_reference};
ghost use Rattle.language_rules.specs.States.{State};
ghost use Rattle.language_rules.specs.Truth.{on_bool, truth_step};
ghost use Rattle.side_trees.specs.Trees.{bind};
ghost use Rattle.eval_searching.specs.Searched.{GoesOnAs, WaitsFor, by_step, equal_step};

use eval_comparing::{Question, ask_comparison, ask_truth_of};
use eval_frames::{Decision, Frame, Next, is_reference};
use rp_base::{CmpOp, NoMemory, Value};
use std::alloc::Global;

/// Whether one of two values refers to an object.
pub(crate) fn one_refers(left: &Value, right: &Value) -> bool
    ensures { result ≡ (is_reference left.now || is_reference right.now) }
{
    is_reference(left) || is_reference(right)
}

/// A value and an item that are not one object are compared, of which one refers to an object, and the truth of the
/// answer goes to a frame.
pub(crate) fn ask_found(
    alloc: Global,
    stack: &mut Vec<Frame>,
    frame: Frame,
    wanted: Value,
    item: &Value,
) -> Result<Next, NoMemory>
    requires { (is_reference wanted || is_reference item.now) ≡ true }
    ensures means { IfOk result (λ n. (f : Completion → Code) (next later : Bool → RuleTree) (s : State) → GoesOnAs frame f later → MeansIn s stack.new.items n (by_step (equal_step wanted item.now) f next) stack.old.items) }
    ensures pair { IfOk result (λ n. (later : Bool → RuleTree) (s : State) → WaitsFor frame later → MeansIn s stack.new.items n (bind (carry (equal_step wanted item.now)) (on_bool later)) stack.old.items) }
    ensures light { IfOk result (λ n. load stack.new.items n ≤ 3 * length stack.old.items + 9) }
{
    let item = item.copy(alloc)?;
    stack.push(frame)?;
    stack.push(Frame::Test(Decision::Bool))?;
    ask_comparison(alloc, stack, CmpOp::Eq, wanted, item)
}

/// The same of tuples, where an object within them is asked.
pub(crate) fn ask_within_tuples(
    alloc: Global,
    stack: &mut Vec<Frame>,
    frame: Frame,
    question: Question,
) -> Result<Next, NoMemory>
    requires { refers question.left question.right }
    ensures means { IfOk result (λ n. (f : Completion → Code) (next later : Bool → RuleTree) (s : State) → GoesOnAs frame f later → MeansIn s stack.new.items n (by_step (and_value (question_step question) truth_step) f next) stack.old.items) }
    ensures pair { IfOk result (λ n. (later : Bool → RuleTree) (s : State) → WaitsFor frame later → MeansIn s stack.new.items n (bind (carry (and_value (question_step question) truth_step)) (on_bool later)) stack.old.items) }
    ensures light { IfOk result (λ n. load stack.new.items n ≤ 3 * length stack.old.items + 9) }
{
    stack.push(frame)?;
    ask_truth_of(alloc, stack, question)
}
