ghost use Rattle.std.specs.Prelude.{IfSome, ◌≡◌, ◌+◌, ◌*◌, ◌≤◌, ℕ, IfOk, List, length, reverse, string_bytes, true};
ghost use Rattle.rp_base.specs.declared.value.Value.TheVariants as value;
ghost use Rattle.eval_frames.specs.declared.frame.Frame.{Frame};
ghost use Rattle.eval_frames.specs.Meaning.{IsLight, MeansIn, load, meant, rest};
ghost use Rattle.eval_frames.specs.ObjectFrames.{through_printing};
ghost use Rattle.language_rules.specs.Going.{RuleTree, done};
ghost use Rattle.language_rules.specs.Kinds.{is_reference};
ghost use Rattle.language_rules.specs.Output.{prints, prints_further, writes};
ghost use Rattle.language_rules.specs.Printing.{on_str, on_text_value};
ghost use Rattle.language_rules.specs.Running.{runs};
ghost use Rattle.language_rules.specs.States.{State};
ghost use Rattle.side_trees.specs.Trees.{Return, bind};
ghost use Rattle.print_output.specs.Printed.{PrintsAs, PrintsOver, counted, prints_from};

use crate::pieces::{end_line, print_plain, print_waiting, write_piece};
use crate::waiting::{is_plain, is_reference, reversed};
use eval_frames::{Frame, Next, PrintingFrame, operate};
use eval_tuple_texts::{TupleText, ask_text as ask_tuple_text, tuple_text};
use object_operations::{Completion, Operation};
use rp_base::{Beyond, NoMemory, OpEnd, Plain, Value};
use sqlite_items::Items;
use std::alloc::Global;

/// Writes these values behind what is printed, as `print` does: their texts with a space between, and a line end. An
/// object is asked for its text. A piece is written whole, or not at all where more than 16,777,216 bytes would be
/// printed.
pub fn print(
    alloc: Global,
    stack: &mut Vec<Frame>,
    printed: &mut String,
    values: Items<Value>,
) -> Result<Next, NoMemory>
    ensures means { IfOk result (λ next. (fixed : State) (units : ℕ) → runs units (bind (prints values) (rest (reverse stack.old.items))) (counted fixed (string_bytes printed.old)) (string_bytes printed.old) ≡ runs units (meant stack.new.items next) (counted fixed (string_bytes printed.new)) (string_bytes printed.new)) }
    ensures light { IfOk result (λ next. load stack.new.items next ≤ 3 * length stack.old.items + 10) }
{
    print_reversed(alloc, stack, printed, reversed(alloc, values)?)
}

/// Goes on with the text that an object was asked for.
pub fn give_printing(
    alloc: Global,
    stack: &mut Vec<Frame>,
    printed: &mut String,
    frame: PrintingFrame,
    completion: Completion,
) -> Result<Next, NoMemory>
    ensures means { IfOk result (λ next. (fixed : State) (units : ℕ) → runs units (bind (through_printing frame completion) (rest (reverse stack.old.items))) (counted fixed (string_bytes printed.old)) (string_bytes printed.old) ≡ runs units (meant stack.new.items next) (counted fixed (string_bytes printed.new)) (string_bytes printed.new)) }
    ensures light { IfOk result (λ next. IsLight stack.new.items next stack.old.items) }
{
    let PrintingFrame::Print { waiting } = frame;
    match completion {
        Completion::Gives(value) => give_text(alloc, stack, printed, waiting, &value),
        ending => Ok(Next::Give(ending)),
    }
}

/// The values, the last first.
fn print_reversed(
    alloc: Global,
    stack: &mut Vec<Frame>,
    printed: &mut String,
    mut waiting: Items<Value>,
) -> Result<Next, NoMemory>
    ensures means { IfOk result (λ next. PrintsOver (prints (reverse waiting)) stack.old.items (string_bytes printed.old) stack.new.items next (string_bytes printed.new)) }
    ensures light { IfOk result (λ next. load stack.new.items next ≤ 3 * length stack.old.items + 10) }
{
    match waiting.pop() {
        Some(value) => print_first(alloc, stack, printed, value, waiting),
        None => finish(end_line(printed)),
    }
}

/// The text of the value, which was asked for, is written, and then what waits.
fn give_text(
    alloc: Global,
    stack: &mut Vec<Frame>,
    printed: &mut String,
    waiting: Items<Value>,
    value: &Value,
) -> Result<Next, NoMemory>
    ensures means { IfOk result (λ next. PrintsOver (on_text_value (λ t. writes t (prints_further (reverse waiting))) value.now) stack.old.items (string_bytes printed.old) stack.new.items next (string_bytes printed.new)) }
    ensures light { IfOk result (λ next. load stack.new.items next ≤ 3 * length stack.old.items + 10) }
{
    match value {
        Value::Plain(Plain::Text(text)) => {
            write_text(alloc, stack, printed, waiting, text.as_str())
        }
        _ => Ok(Next::Leave(Beyond::NotYet)),
    }
}

/// This text, and then what waits.
fn write_text(
    alloc: Global,
    stack: &mut Vec<Frame>,
    printed: &mut String,
    waiting: Items<Value>,
    text: &str,
) -> Result<Next, NoMemory>
    ensures means { IfOk result (λ next. PrintsOver (writes text.now (prints_further (reverse waiting))) stack.old.items (string_bytes printed.old) stack.new.items next (string_bytes printed.new)) }
    ensures light { IfOk result (λ next. load stack.new.items next ≤ 3 * length stack.old.items + 10) }
{
    match write_piece(printed, text) {
        Ok(()) => go_on(alloc, stack, printed, waiting),
        Err(end) => finish(Err(end)),
    }
}

/// The first value, and then what waits.
fn print_first(
    alloc: Global,
    stack: &mut Vec<Frame>,
    printed: &mut String,
    value: Value,
    waiting: Items<Value>,
) -> Result<Next, NoMemory>
    ensures means { IfOk result (λ next. PrintsOver (prints_from value (reverse waiting)) stack.old.items (string_bytes printed.old) stack.new.items next (string_bytes printed.new)) }
    ensures light { IfOk result (λ next. load stack.new.items next ≤ 3 * length stack.old.items + 10) }
{
    if !is_plain(&value) {
        return ask_text(alloc, stack, value, waiting);
    }
    match print_plain(alloc, printed, &value) {
        Ok(()) => go_on(alloc, stack, printed, waiting),
        Err(end) => finish(Err(end)),
    }
}

/// What waits behind a value that is printed.
fn go_on(
    alloc: Global,
    stack: &mut Vec<Frame>,
    printed: &mut String,
    mut waiting: Items<Value>,
) -> Result<Next, NoMemory>
    ensures means { IfOk result (λ next. PrintsOver (prints_further (reverse waiting)) stack.old.items (string_bytes printed.old) stack.new.items next (string_bytes printed.new)) }
    ensures light { IfOk result (λ next. load stack.new.items next ≤ 3 * length stack.old.items + 10) }
{
    match print_waiting(alloc, printed, &mut waiting) {
        Ok(None) => Ok(Next::Give(Completion::Gives(Value::Plain(Plain::None)))),
        Ok(Some(value)) => ask_text(alloc, stack, value, waiting),
        Err(OpEnd::Beyond(beyond)) => Ok(Next::Leave(beyond)),
        Err(_) => Err(NoMemory),
    }
}

/// An object, which may stand within tuples, is asked for its text, over what waits.
fn ask_text(
    alloc: Global,
    stack: &mut Vec<Frame>,
    value: Value,
    waiting: Items<Value>,
) -> Result<Next, NoMemory>
    ensures means { IfOk result (λ next. (s : State) → MeansIn s stack.new.items next (prints_from value (reverse waiting)) stack.old.items) }
    ensures light { IfOk result (λ next. load stack.new.items next ≤ 3 * length stack.old.items + 10) }
{
    if is_reference(&value) {
        return ask_object(stack, value, waiting);
    }
    match items_of(value) {
        Some(items) => ask_tuple(alloc, stack, items, waiting),
        None => Err(NoMemory),
    }
}

fn ask_object(stack: &mut Vec<Frame>, value: Value, waiting: Items<Value>) -> Result<Next, NoMemory>
    requires { is_reference value ≡ true }
    ensures means { IfOk result (λ next. (s : State) → MeansIn s stack.new.items next (prints_from value (reverse waiting)) stack.old.items) }
    ensures light { IfOk result (λ next. load stack.new.items next ≤ 3 * length stack.old.items + 10) }
{
    stack.push(Frame::Printing(PrintingFrame::Print { waiting }))?;
    Ok(operate(Operation::Str(value)))
}

/// The items of a tuple that is no plain value.
fn items_of(printed: Value) -> Option<Items<Value>>
    ensures { IfSome result (λ items. printed ≡ value.Tuple items) }
{
    match printed {
        Value::Tuple(items) => Some(items),
        Value::Plain(_) => None,
        Value::Own(_) => None,
        Value::Proxy(_) => None,
    }
}

/// A tuple that is no plain value holds an object, which is asked for its text.
fn ask_tuple(
    alloc: Global,
    stack: &mut Vec<Frame>,
    items: Items<Value>,
    waiting: Items<Value>,
) -> Result<Next, NoMemory>
    ensures means { IfOk result (λ next. (s : State) → MeansIn s stack.new.items next (prints_from (value.Tuple items) (reverse waiting)) stack.old.items) }
    ensures light { IfOk result (λ next. load stack.new.items next ≤ 3 * length stack.old.items + 10) }
{
    match tuple_text(alloc, Value::Tuple(items))? {
        TupleText::Whole(_) => Err(NoMemory),
        TupleText::TooLong => Ok(Next::Leave(Beyond::Size)),
        TupleText::Asked(levels, object) => {
            stack.push(Frame::Printing(PrintingFrame::Print { waiting }))?;
            ask_tuple_text(stack, levels, object)
        }
    }
}

/// What was printed is the whole of it, or printing came to an end.
fn finish(answer: Result<(), OpEnd>) -> Result<Next, NoMemory>
    ensures means { IfOk result (λ next. (t : RuleTree) (stack : List Frame) (before after : List ℕ) → PrintsAs t (Return done) answer before after → PrintsOver t stack before stack next after) }
    ensures light { IfOk result (λ next. (stack : List Frame) → load stack next ≤ 3 * length stack + 10) }
{
    match answer {
        Ok(()) => Ok(Next::Give(Completion::Gives(Value::Plain(Plain::None)))),
        Err(OpEnd::Beyond(beyond)) => Ok(Next::Leave(beyond)),
        Err(_) => Err(NoMemory),
    }
}
