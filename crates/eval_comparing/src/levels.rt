ghost use Rattle.std.specs.Prelude.{◌≡◌, ◌∷◌, ◌++◌, [], IfOk, List, reverse};
ghost use Rattle.eval_frames.specs.declared.frame.TestLevel.{TestLevel};
ghost use Rattle.eval_frames.specs.declared.frame.TestLevel.TheVariants as test_level;
ghost use Rattle.eval_frames.specs.Meaning.{equal_pairs_step, level_step};
ghost use Rattle.language_rules.specs.Comparing.{found_step};
ghost use Rattle.language_rules.specs.Searching.{search_tuple_step};
ghost use Rattle.language_rules.specs.Truth.{and_bool, tells};
ghost use Rattle.eval_comparing.specs.Answers.{Answers, MeetsItem, Turns, steps_around};

use crate::answer::{Answer, Meeting, Question, Turn};
use crate::meeting::meet_item;
use eval_frames::{TestLevel, ValuePair};
use rp_base::{NoMemory, Value};
use sqlite_items::Items;
use std::alloc::Global;

/// Goes on behind an answer that is true or not, level by level, as far as no object has to be asked. No tuples are so
/// heavy that there are more turns.
pub(crate) fn advance(
    alloc: Global,
    levels: Items<TestLevel>,
    holds: bool,
) -> Result<Answer, NoMemory>
    ensures { IfOk result (λ a. Answers (steps_around (reverse levels) (tells holds)) a) }
{
    let mut levels = levels;
    let mut holds = holds;
    'levels: for _ in 0..u64::MAX {
        match levels.pop() {
            Some(level) => match turn(alloc, &mut levels, level, holds)? {
                Turn::Told(told) => holds = told,
                Turn::Uneven => return Ok(Answer::Uneven),
                Turn::Asked { left, right } => {
                    return Ok(Answer::Asked(Question {
                        levels,
                        left,
                        right,
                    }));
                }
            },
            None => return Ok(Answer::Told(holds)),
        }
    }
    Err(NoMemory)
}

/// What a level comes to behind an answer that is true or not, within the levels around it.
fn turn(
    alloc: Global,
    levels: &mut Items<TestLevel>,
    level: TestLevel,
    holds: bool,
) -> Result<Turn, NoMemory>
    ensures { IfOk result (λ t. Turns levels.old levels.new (level_step level holds) t) }
{
    match level {
        TestLevel::Pairs { waiting } => turn_to_pair(alloc, levels, waiting, holds),
        TestLevel::Search { wanted, waiting } => {
            turn_to_item(alloc, levels, wanted, waiting, holds)
        }
    }
}

fn turn_to_pair(
    alloc: Global,
    levels: &mut Items<TestLevel>,
    waiting: Items<ValuePair>,
    holds: bool,
) -> Result<Turn, NoMemory>
    ensures { IfOk result (λ t. Turns levels.old levels.new (level_step (test_level.Pairs waiting) holds) t) }
{
    if holds {
        next_pair(alloc, levels, waiting)
    } else {
        Ok(Turn::Told(false))
    }
}

fn next_pair(
    alloc: Global,
    levels: &mut Items<TestLevel>,
    mut waiting: Items<ValuePair>,
) -> Result<Turn, NoMemory>
    ensures { IfOk result (λ t. Turns levels.old levels.new (equal_pairs_step (reverse waiting)) t) }
{
    match waiting.pop() {
        Some(pair) => compare_pair(alloc, levels, waiting, pair),
        None => Ok(Turn::Told(true)),
    }
}

fn compare_pair(
    alloc: Global,
    levels: &mut Items<TestLevel>,
    waiting: Items<ValuePair>,
    pair: ValuePair,
) -> Result<Turn, NoMemory>
    ensures { IfOk result (λ t. Turns levels.old levels.new (equal_pairs_step (pair ∷ reverse waiting)) t) }
{
    let meeting = meet_item(alloc, &pair.left, &pair.right)?;
    levels.push(TestLevel::Pairs { waiting })?;
    go_on(levels, meeting, pair.left, pair.right)
}

fn turn_to_item(
    alloc: Global,
    levels: &mut Items<TestLevel>,
    wanted: Value,
    waiting: Items<Value>,
    holds: bool,
) -> Result<Turn, NoMemory>
    ensures { IfOk result (λ t. Turns levels.old levels.new (level_step (test_level.Search wanted waiting) holds) t) }
{
    if holds {
        Ok(Turn::Told(true))
    } else {
        next_item(alloc, levels, wanted, waiting)
    }
}

fn next_item(
    alloc: Global,
    levels: &mut Items<TestLevel>,
    wanted: Value,
    mut waiting: Items<Value>,
) -> Result<Turn, NoMemory>
    ensures { IfOk result (λ t. Turns levels.old levels.new (search_tuple_step (reverse waiting) wanted) t) }
{
    match waiting.pop() {
        Some(item) => compare_item(alloc, levels, wanted, waiting, item),
        None => Ok(Turn::Told(false)),
    }
}

fn compare_item(
    alloc: Global,
    levels: &mut Items<TestLevel>,
    wanted: Value,
    waiting: Items<Value>,
    item: Value,
) -> Result<Turn, NoMemory>
    ensures { IfOk result (λ t. Turns levels.old levels.new (search_tuple_step (item ∷ reverse waiting) wanted) t) }
{
    let meeting = meet_item(alloc, &wanted, &item)?;
    let left = wanted.copy(alloc)?;
    levels.push(TestLevel::Search { wanted, waiting })?;
    go_on(levels, meeting, left, item)
}

/// On by how a value is found in an item, within the innermost level: pairs of theirs are a level of their own.
fn go_on(
    levels: &mut Items<TestLevel>,
    meeting: Meeting,
    left: Value,
    right: Value,
) -> Result<Turn, NoMemory>
    ensures { IfOk result (λ t. (outer : List TestLevel) (level : TestLevel) → MeetsItem left right meeting → levels.old ≡ outer ++ level ∷ [] → Turns outer levels.new (and_bool (found_step left right) (level_step level)) t) }
{
    match meeting {
        Meeting::Told(holds) => Ok(Turn::Told(holds)),
        Meeting::Uneven => Ok(Turn::Uneven),
        Meeting::Asked => Ok(Turn::Asked { left, right }),
        Meeting::Deeper(waiting) => {
            levels.push(TestLevel::Pairs { waiting })?;
            Ok(Turn::Told(true))
        }
    }
}
