ghost use Rattle.std.specs.Prelude.{IfOk, reverse};
ghost use Rattle.language_rules.specs.Printing.{repr_step};
ghost use Rattle.eval_tuple_texts.specs.TextLevels.{AsksOne, Shows, texts_around, turn_step};

use crate::levels::{Turn, add_text, begin};
use eval_frames::TupleLevel;
use rp_base::{NoMemory, Text, Value};
use sqlite_items::Items;
use std::alloc::Global;

/// What the text of a value comes to.
#[derive(Drop)]
pub enum TupleText {
    Whole(Text),
    /// A text on the way is too long.
    TooLong,
    /// An object is asked for its text, which goes to these levels, the innermost last.
    Asked(Items<TupleLevel>, Value),
}

/// The text of a value, as far as no object has to be asked.
pub fn tuple_text(alloc: Global, value: Value) -> Result<TupleText, NoMemory>
    ensures { IfOk result (λ t. Shows (repr_step value) t) }
{
    go_on(alloc, Items::new(alloc), Turn::Begun(value))
}

/// Goes on with a text or a value within levels. No tuple is so heavy that there are more turns.
pub(crate) fn go_on(
    alloc: Global,
    levels: Items<TupleLevel>,
    turn: Turn,
) -> Result<TupleText, NoMemory>
    requires { AsksOne turn }
    ensures { IfOk result (λ t. Shows (texts_around (reverse levels) (turn_step turn)) t) }
{
    let mut levels = levels;
    let mut turn = turn;
    'turns: for _ in 0..u64::MAX {
        match turn {
            Turn::Made(text) => match levels.pop() {
                Some(level) => turn = add_text(alloc, &mut levels, level, &text)?,
                None => return Ok(TupleText::Whole(text)),
            },
            Turn::Begun(value) => turn = begin(alloc, &mut levels, value)?,
            Turn::Asked(object) => return Ok(TupleText::Asked(levels, object)),
            Turn::TooLong => return Ok(TupleText::TooLong),
        }
    }
    Err(NoMemory)
}
