ghost use Rattle.std.specs.Prelude.{◌≡◌, ◌<◌, ℕ, suc, List, ◌∷◌, drop, length, codes, string_bytes};
ghost use Rattle.py_plain.specs.Printing.{repr_of};
ghost use Rattle.py_plain.specs.Putting.{separator};
ghost use Rattle.py_store.specs.EntryLists.{EntryList};
ghost use Rattle.language_rules.specs.Printing.{adds_part, prints_entries};
ghost use Rattle.eval_texts.specs.Texts.{Adds, Makes, behind_entry, behind_value, left_of_dict};

use crate::parts::{put_part, put_repr, put_separator, put_text};
use py_store::Entries;
use rp_base::{OpEnd, Plain, Value};

/// The entries from a position on, and the closing bracket; or up to a value that has to be asked, whose position is
/// given. `Beyond(Size)` where the text would be too long.
pub(crate) fn put_entries(
    entries: &Entries,
    start: usize,
    made: &mut String,
) -> Result<Option<usize>, OpEnd>
    ensures makes { (n shape : ℕ) → Makes (prints_entries n shape start (string_bytes made.old) (drop start entries.now)) (left_of_dict n shape entries.now) result (string_bytes made.new) }
{
    let mut at = start;
    'entries: while at < entries.len() {
        match put_entry_at(entries, at, made) {
            Ok(true) => at += 1,
            Ok(false) => return Ok(Some(at)),
            Err(end) => return Err(end),
        }
    }
    match put_part("}", made) {
        Ok(()) => Ok(None),
        Err(end) => Err(end),
    }
}

/// The entries behind a position.
pub(crate) fn put_entries_behind(
    entries: &Entries,
    position: u64,
    made: &mut String,
) -> Result<Option<usize>, OpEnd>
    ensures makes { (n shape : ℕ) → Makes (prints_entries n shape (suc position) (string_bytes made.old) (drop (suc position) entries.now)) (left_of_dict n shape entries.now) result (string_bytes made.new) }
{
    let count = entries.len();
    if position < count as u64 {
        put_entries(entries, position as usize + 1, made)
    } else {
        put_entries(entries, count, made)
    }
}

/// The entry at a position, which is one: whether its value's text was added, or has to be asked.
fn put_entry_at(entries: &Entries, at: usize, made: &mut String) -> Result<bool, OpEnd>
    requires { at < length entries.now }
    ensures makes { (n shape : ℕ) → Makes (prints_entries n shape at (string_bytes made.old) (drop at entries.now)) (behind_entry n shape at entries.now) result (string_bytes made.new) }
{
    put_entry(entries.key_at(at), entries.value_at(at), at, made)
}

/// A key and its value, behind what separates them from others: whether the value's text was added, or has to be asked.
fn put_entry(key: &Plain, value: &Value, at: usize, made: &mut String) -> Result<bool, OpEnd>
    ensures makes { (n shape : ℕ) (others : EntryList) → Makes (prints_entries n shape at (string_bytes made.old) ((key.now, value.now) ∷ others)) (behind_value n shape at value.now others) result (string_bytes made.new) }
{
    match put_key(key, at, made) {
        Ok(()) => put_text(value, made),
        Err(end) => Err(end),
    }
}

/// A key and a colon, behind what separates them from others.
fn put_key(key: &Plain, at: usize, made: &mut String) -> Result<(), OpEnd>
    ensures adds { Adds (λ next. adds_part (string_bytes made.old) (separator at) (λ front. adds_part front (repr_of key.now) (λ shown. adds_part shown (codes ": ") next))) result (string_bytes made.new) }
{
    match put_separator(at, made) {
        Ok(()) => put_key_text(key, made),
        Err(end) => Err(end),
    }
}

fn put_key_text(key: &Plain, made: &mut String) -> Result<(), OpEnd>
    ensures adds { Adds (λ next. adds_part (string_bytes made.old) (repr_of key.now) (λ shown. adds_part shown (codes ": ") next)) result (string_bytes made.new) }
{
    match put_repr(key, made) {
        Ok(()) => put_part(": ", made),
        Err(end) => Err(end),
    }
}
