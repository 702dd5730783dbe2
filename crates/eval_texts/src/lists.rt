ghost use Rattle.std.specs.Prelude.{◌≡◌, ◌<◌, ℕ, suc, List, ◌∷◌, drop, length, string_bytes};
ghost use Rattle.rp_base.specs.declared.value.Value.{Value};
ghost use Rattle.language_rules.specs.Printing.{prints_items};
ghost use Rattle.eval_texts.specs.Texts.{Makes, behind_item, behind_position, left_of_list};

use crate::parts::{put_part, put_separator, put_text};
use rp_base::{OpEnd, Value};

/// The items from a position on, and the closing bracket; or up to an item that has to be asked, whose position is
/// given. `Beyond(Size)` where the text would be too long.
pub(crate) fn put_items(
    items: &[Value],
    start: usize,
    made: &mut String,
) -> Result<Option<usize>, OpEnd>
    ensures makes { (n : ℕ) → Makes (prints_items n start (string_bytes made.old) (drop start items.now)) (left_of_list n items.now) result (string_bytes made.new) }
{
    let mut at = start;
    'items: while at < items.len() {
        match put_item_at(items, at, made) {
            Ok(true) => at += 1,
            Ok(false) => return Ok(Some(at)),
            Err(end) => return Err(end),
        }
    }
    match put_part("]", made) {
        Ok(()) => Ok(None),
        Err(end) => Err(end),
    }
}

/// The items behind a position.
pub(crate) fn put_items_behind(
    items: &[Value],
    position: u64,
    made: &mut String,
) -> Result<Option<usize>, OpEnd>
    ensures makes { (n : ℕ) → Makes (prints_items n (suc position) (string_bytes made.old) (drop (suc position) items.now)) (left_of_list n items.now) result (string_bytes made.new) }
{
    if position < items.len() as u64 {
        put_items(items, position as usize + 1, made)
    } else {
        put_items(items, items.len(), made)
    }
}

/// The item at a position, which is one: whether its text was added, or has to be asked.
fn put_item_at(items: &[Value], at: usize, made: &mut String) -> Result<bool, OpEnd>
    requires { at < length items.now }
    ensures makes { (n : ℕ) → Makes (prints_items n at (string_bytes made.old) (drop at items.now)) (behind_position n at items.now) result (string_bytes made.new) }
{
    put_item(&items[at], at, made)
}

/// An item behind what separates it from others: whether its text was added, or has to be asked.
fn put_item(item: &Value, at: usize, made: &mut String) -> Result<bool, OpEnd>
    ensures makes { (n : ℕ) (others : List Value) → Makes (prints_items n at (string_bytes made.old) (item.now ∷ others)) (behind_item n at item.now others) result (string_bytes made.new) }
{
    match put_separator(at, made) {
        Ok(()) => put_text(item, made),
        Err(end) => Err(end),
    }
}
