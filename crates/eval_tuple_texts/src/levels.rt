ghost use Rattle.std.specs.Prelude.{◌≡◌, ◌+◌, ◌++◌, ◌∷◌, [], ℕ, Bool, IfOk, List, codes, length, map, nat_lt, reverse, string_bytes, true, false};
ghost use Rattle.rp_base.specs.declared.value.Value.TheVariants as value;
ghost use Rattle.language_rules.specs.Codes.{Step};
ghost use Rattle.language_rules.specs.Printing.{adds_step, further_items_step, repr_step, text_ends, tuple_text_step};
ghost use Rattle.eval_tuple_texts.specs.TextLevels.{AsksOne, TurnsTo, behind_item, turn_step};

use crate::parts::{put_part, put_repr, reopened};
use eval_frames::TupleLevel;
use rp_base::{NoMemory, Plain, Text, Value};
use sqlite_items::Items;
use std::alloc::Global;

/// What is next while the text of a tuple is made.
#[derive(Drop)]
pub(crate) enum Turn {
    /// This text was made.
    Made(Text),
    /// The text of this value is made.
    Begun(Value),
    /// This object is asked for its text.
    Asked(Value),
    /// A text is too long.
    TooLong,
}

// ---- a value whose text is made

/// A plain value tells its text at once, a tuple that holds an object is a level of its own, and an object is asked.
pub(crate) fn begin(
    alloc: Global,
    levels: &mut Items<TupleLevel>,
    value: Value,
) -> Result<Turn, NoMemory>
    ensures turns { IfOk result (λ t. TurnsTo levels.old levels.new (repr_step value) t) }
    ensures asks { IfOk result (λ t. AsksOne t) }
{
    match value {
        Value::Plain(plain) => show(alloc, &plain),
        Value::Tuple(items) => enter(alloc, levels, items),
        Value::Own(number) => Ok(Turn::Asked(Value::Own(number))),
        Value::Proxy(identity) => Ok(Turn::Asked(Value::Proxy(identity))),
    }
}

fn show(alloc: Global, plain: &Plain) -> Result<Turn, NoMemory>
    ensures turns { IfOk result (λ t. turn_step t ≡ repr_step (value.Plain plain.now)) }
    ensures asks { IfOk result (λ t. AsksOne t) }
{
    let mut made = String::new(alloc);
    if put_repr(plain, &mut made)? {
        Ok(Turn::Made(Text::from_string(made)))
    } else {
        Ok(Turn::TooLong)
    }
}

/// The first item of a tuple.
fn enter(
    alloc: Global,
    levels: &mut Items<TupleLevel>,
    items: Items<Value>,
) -> Result<Turn, NoMemory>
    ensures turns { IfOk result (λ t. TurnsTo levels.old levels.new (tuple_text_step (map repr_step items)) t) }
    ensures asks { IfOk result (λ t. AsksOne t) }
{
    let is_single = items.len() == 1;
    let mut waiting = reversed(alloc, items)?;
    match waiting.pop() {
        Some(first) => {
            let made = Text::from_str(alloc, "(")?;
            levels.push(TupleLevel {
                made,
                is_single,
                waiting,
            })?;
            Ok(Turn::Begun(first))
        }
        None => Ok(Turn::Made(Text::from_str(alloc, "()")?)),
    }
}

/// The items, the last first.
fn reversed(alloc: Global, mut items: Items<Value>) -> Result<Items<Value>, NoMemory>
    ensures { IfOk result (λ waiting. reverse waiting ≡ items) }
{
    let mut waiting = Items::new(alloc);
    'items: while let Some(item) = items.pop() {
        waiting.push(item)?;
    }
    Ok(waiting)
}

// ---- a text that goes to a level

/// The text of an item is added to its tuple, and then the next item is begun, or the tuple ends.
pub(crate) fn add_text(
    alloc: Global,
    levels: &mut Items<TupleLevel>,
    level: TupleLevel,
    text: &Text,
) -> Result<Turn, NoMemory>
    ensures turns { IfOk result (λ t. TurnsTo levels.old levels.new (adds_step level.made text.now (behind_item level.is_single (reverse level.waiting))) t) }
    ensures asks { IfOk result (λ t. AsksOne t) }
{
    let mut made = reopened(alloc, &level.made)?;
    if put_part(text.as_str(), &mut made)? {
        go_behind(levels, made, level.is_single, level.waiting)
    } else {
        Ok(Turn::TooLong)
    }
}

fn go_behind(
    levels: &mut Items<TupleLevel>,
    made: String,
    is_single: bool,
    waiting: Items<Value>,
) -> Result<Turn, NoMemory>
    ensures turns { IfOk result (λ t. TurnsTo levels.old levels.new (behind_item is_single (reverse waiting) (string_bytes made)) t) }
    ensures asks { IfOk result (λ t. AsksOne t) }
{
    if is_single {
        close(made, ",)")
    } else {
        next_item(levels, made, waiting)
    }
}

/// What closes a tuple.
fn close(made: String, end: &str) -> Result<Turn, NoMemory>
    ensures turns { IfOk result (λ t. turn_step t ≡ adds_step (string_bytes made) end.now text_ends) }
    ensures asks { IfOk result (λ t. AsksOne t) }
{
    let mut whole = made;
    if put_part(end, &mut whole)? {
        Ok(Turn::Made(Text::from_string(whole)))
    } else {
        Ok(Turn::TooLong)
    }
}

fn next_item(
    levels: &mut Items<TupleLevel>,
    made: String,
    mut waiting: Items<Value>,
) -> Result<Turn, NoMemory>
    ensures turns { IfOk result (λ t. TurnsTo levels.old levels.new (further_items_step (map repr_step (reverse waiting)) (string_bytes made)) t) }
    ensures asks { IfOk result (λ t. AsksOne t) }
{
    match waiting.pop() {
        Some(item) => separate(levels, made, waiting, item),
        None => close(made, ")"),
    }
}

/// The next item stands behind a comma.
fn separate(
    levels: &mut Items<TupleLevel>,
    made: String,
    waiting: Items<Value>,
    item: Value,
) -> Result<Turn, NoMemory>
    ensures turns { IfOk result (λ t. TurnsTo levels.old levels.new (further_items_step (map repr_step (item ∷ reverse waiting)) (string_bytes made)) t) }
    ensures asks { IfOk result (λ t. AsksOne t) }
{
    let mut whole = made;
    if put_part(", ", &mut whole)? {
        levels.push(TupleLevel {
            made: Text::from_string(whole),
            is_single: false,
            waiting,
        })?;
        Ok(Turn::Begun(item))
    } else {
        Ok(Turn::TooLong)
    }
}
