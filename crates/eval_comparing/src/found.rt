ghost use Rattle.std.specs.Prelude.{◌≡◌, ◌||◌, [], IfOk, reverse, false};
ghost use Rattle.rp_base.specs.declared.operators.CmpOp.TheVariants as cmp;
ghost use Rattle.eval_frames.specs.Meaning.{equal_pairs_step};
ghost use Rattle.language_rules.specs.Comparing.{compare_step};
ghost use Rattle.language_rules.specs.Kinds.{is_reference};
ghost use Rattle.language_rules.specs.Searching.{search_tuple_step};
ghost use Rattle.eval_comparing.specs.Answers.{Answers, IsFound};

use crate::answer::{Answer, Meeting, Question};
use crate::levels::advance;
use crate::meeting::{meet, meet_item};
use eval_frames::{TestLevel, ValuePair};
use rp_base::{NoMemory, Value};
use sqlite_items::Items;
use std::alloc::Global;

/// `==` of two values that refer to no object (Python Language Reference, "Comparisons"): tuples may hold some.
pub fn equal_values(alloc: Global, left: &Value, right: &Value) -> Result<Answer, NoMemory>
    requires { (is_reference left.now || is_reference right.now) ≡ false }
    ensures { IfOk result (λ a. Answers (compare_step cmp.Eq left.now right.now) a) }
{
    match meet(alloc, left, right)? {
        Meeting::Told(holds) => Ok(Answer::Told(holds)),
        Meeting::Uneven => Ok(Answer::Uneven),
        Meeting::Asked => Ok(Answer::Uneven),
        Meeting::Deeper(pairs) => compare_pairs(alloc, pairs),
    }
}

/// Whether the values of each pair are one object or equal, in turn.
fn compare_pairs(alloc: Global, waiting: Items<ValuePair>) -> Result<Answer, NoMemory>
    ensures { IfOk result (λ a. Answers (equal_pairs_step (reverse waiting)) a) }
{
    let mut levels = Items::new(alloc);
    levels.push(TestLevel::Pairs { waiting })?;
    advance(alloc, levels, true)
}

/// Whether a value is found in an item: they are one object, or equal.
pub fn find_in_item(alloc: Global, wanted: &Value, item: &Value) -> Result<Answer, NoMemory>
    ensures { IfOk result (λ a. IsFound wanted.now item.now a) }
{
    match meet_item(alloc, wanted, item)? {
        Meeting::Told(holds) => Ok(Answer::Told(holds)),
        Meeting::Uneven => Ok(Answer::Uneven),
        Meeting::Asked => Ok(Answer::Asked(question(alloc, wanted, item)?)),
        Meeting::Deeper(pairs) => compare_pairs(alloc, pairs),
    }
}

/// The comparison of these two, whose answer goes to no level.
fn question(alloc: Global, left: &Value, right: &Value) -> Result<Question, NoMemory>
    ensures { IfOk result (λ q. (q.levels ≡ []) × (q.left ≡ left.now) × (q.right ≡ right.now)) }
{
    Ok(Question {
        levels: Items::new(alloc),
        left: left.copy(alloc)?,
        right: right.copy(alloc)?,
    })
}

/// Whether a value is found in one of these items, in turn (Python Language Reference, "Membership test operations").
pub fn search_items(alloc: Global, wanted: Value, items: Items<Value>) -> Result<Answer, NoMemory>
    ensures { IfOk result (λ a. Answers (search_tuple_step items wanted) a) }
{
    let waiting = reversed(alloc, items)?;
    let mut levels = Items::new(alloc);
    levels.push(TestLevel::Search { wanted, waiting })?;
    advance(alloc, levels, false)
}

/// The items, the last first.
fn reversed(alloc: Global, mut items: Items<Value>) -> Result<Items<Value>, NoMemory>
    ensures { IfOk result (λ waiting. reverse waiting ≡ items) }
{
    let mut waiting = Items::new(alloc);
    'items: while let Some(item) = items.pop() {
        waiting.push(item)?;
    }
    Ok(waiting)
}
