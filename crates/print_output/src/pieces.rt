ghost use Rattle.std.specs.Prelude.{◌≡◌, ◌∷◌, List, reverse, string_bytes};
ghost use Rattle.language_rules.specs.Going.{RuleTree, done};
ghost use Rattle.language_rules.specs.Output.{prints_further, writes, writes_line_end};
ghost use Rattle.language_rules.specs.Printing.{on_str};
ghost use Rattle.side_trees.specs.Trees.{Return};
ghost use Rattle.print_output.specs.Printed.{PrintsAs, PrintsTo, left_behind, left_to_print, prints_from};

use crate::waiting::is_plain;
use builtin_functions::text_of;
use rp_base::{Beyond, OpEnd, Value};
use sqlite_items::Items;
use std::alloc::Global;

/// The most bytes that a side may print.
const MOST_PRINTED: u64 = 16_777_216;

/// The values that wait, each behind a space, and the line end; or up to a value that has to be asked first, whose space
/// is written.
pub(crate) fn print_waiting(
    alloc: Global,
    printed: &mut String,
    waiting: &mut Items<Value>,
) -> Result<Option<Value>, OpEnd>
    ensures prints { PrintsTo (prints_further (reverse waiting.old)) (left_to_print (reverse waiting.new)) result (string_bytes printed.old) (string_bytes printed.new) }
{
    'values: while let Some(value) = waiting.pop() {
        match print_next(alloc, printed, value) {
            Ok(None) => {}
            Ok(Some(value)) => return Ok(Some(value)),
            Err(end) => return Err(end),
        }
    }
    match end_line(printed) {
        Ok(()) => Ok(None),
        Err(end) => Err(end),
    }
}

/// A space and the value, or the space alone where the value has to be asked first.
fn print_next(alloc: Global, printed: &mut String, value: Value) -> Result<Option<Value>, OpEnd>
    ensures prints { (others : List Value) → PrintsTo (prints_further (value ∷ others)) (left_behind others) result (string_bytes printed.old) (string_bytes printed.new) }
{
    match write_piece(printed, " ") {
        Ok(()) => print_or_leave(alloc, printed, value),
        Err(end) => Err(end),
    }
}

/// A value, or nothing where it has to be asked first.
fn print_or_leave(alloc: Global, printed: &mut String, value: Value) -> Result<Option<Value>, OpEnd>
    ensures prints { (others : List Value) → PrintsTo (prints_from value others) (left_behind others) result (string_bytes printed.old) (string_bytes printed.new) }
{
    if !is_plain(&value) {
        return Ok(Some(value));
    }
    match print_plain(alloc, printed, &value) {
        Ok(()) => Ok(None),
        Err(end) => Err(end),
    }
}

/// The text of a plain value.
pub(crate) fn print_plain(alloc: Global, printed: &mut String, value: &Value) -> Result<(), OpEnd>
    ensures prints { (next : RuleTree) → PrintsAs (on_str value.now (λ t. writes t next)) next result (string_bytes printed.old) (string_bytes printed.new) }
{
    match text_of(alloc, value) {
        Ok(Some(text)) => write_piece(printed, text.as_str()),
        Ok(None) => Err(OpEnd::NoMemory),
        Err(end) => Err(end),
    }
}

pub(crate) fn end_line(printed: &mut String) -> Result<(), OpEnd>
    ensures prints { PrintsAs writes_line_end (Return done) result (string_bytes printed.old) (string_bytes printed.new) }
{
    write_piece(printed, "\n")
}

/// The piece, as a whole or not at all.
pub(crate) fn write_piece(printed: &mut String, piece: &str) -> Result<(), OpEnd>
    ensures prints { (next : RuleTree) → PrintsAs (writes piece.now next) next result (string_bytes printed.old) (string_bytes printed.new) }
{
    let bytes = printed.len().saturating_add(piece.len());
    if bytes as u64 > MOST_PRINTED {
        return Err(OpEnd::Beyond(Beyond::Output));
    }
    match printed.push_str(piece) {
        Ok(()) => Ok(()),
        Err(_) => Err(OpEnd::NoMemory),
    }
}
