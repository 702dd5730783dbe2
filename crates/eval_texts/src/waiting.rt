ghost use Rattle.std.specs.Prelude.{◌≡◌, ◌+◌, ◌*◌, ◌≤◌, ℕ, suc, IfOk, List, drop, length, string_bytes, true};
ghost use Rattle.py_ast.specs.declared.program.Program.{Program};
ghost use Rattle.py_store.specs.EntryLists.{EntryList};
ghost use Rattle.eval_frames.specs.declared.frame.Frame.{Frame};
ghost use Rattle.eval_frames.specs.ListFrames.{through_text};
ghost use Rattle.eval_frames.specs.Meaning.{IsLight, Means, MeansIn, MeansOver, load};
ghost use Rattle.language_rules.specs.AtOnce.{stated};
ghost use Rattle.language_rules.specs.Codes.{Code, Completion, Gives};
ghost use Rattle.language_rules.specs.Going.{RuleTree, text};
ghost use Rattle.language_rules.specs.Kinds.{is_reference};
ghost use Rattle.language_rules.specs.Printing.{adds_part, dict_text_rule, list_text_rule, prints_entries, prints_items};
ghost use Rattle.language_rules.specs.Searching.{reads_dict, reads_list};
ghost use Rattle.language_rules.specs.States.{State};
ghost use Rattle.eval_frames.specs.declared.next.Next.TheVariants as next;
ghost use Rattle.eval_texts.specs.Shown.{shown};
ghost use Rattle.eval_texts.specs.Texts.{GoesOnAs, IsLeft, IsLightUnlessTold, IsTextTold, TakesText, first_of_dict, first_of_list, item_text, left_of_list, on_same_keys};

use crate::dicts::put_entries_behind;
use crate::lists::put_items_behind;
use crate::parts::{put_part, reopened};
use eval_frames::{Frame, Next, TextFrame, is_reference, operate};
use eval_tuple_texts::{TupleText, ask_text as ask_levels, give_tuple_text, tuple_text};
use object_operations::{Completion, Operation};
use py_store::{Cell, Entries, Store};
use rp_base::{Beyond, NoMemory, OpEnd, Plain, Text, Value};
use sqlite_items::Items;
use std::alloc::Global;

// ---- what comes next

/// The whole text.
pub(crate) fn given(made: String) -> Next
    ensures { result ≡ next.Give (Gives (text (string_bytes made))) }
{
    Next::Give(Completion::Gives(Value::Plain(Plain::Text(Text::from_string(made)))))
}

/// The way out of the subset that an end is.
pub(crate) fn left(end: OpEnd) -> Result<Next, NoMemory>
    ensures left { IfOk result (λ next. IsLeft end next) }
    ensures light { IfOk result (λ next. (stack : List Frame) → load stack next ≤ 3 * length stack) }
{
    match end {
        OpEnd::Beyond(beyond) => Ok(Next::Leave(beyond)),
        OpEnd::Raise(_) => Err(NoMemory),
        OpEnd::NoMemory => Err(NoMemory),
    }
}

/// An item is asked for its text, which goes to a frame.
pub(crate) fn ask_text(
    alloc: Global,
    stack: &mut Vec<Frame>,
    frame: TextFrame,
    item: &Value,
) -> Result<Next, NoMemory>
    requires { TakesText frame }
    ensures means { IfOk result (λ n. (f : Completion → Code) (made : List ℕ) (next : List ℕ → RuleTree) (s : State) → GoesOnAs frame f → MeansIn s stack.new.items n (item_text f made item.now next) stack.old.items) }
    ensures light { IfOk result (λ n. load stack.new.items n ≤ 3 * length stack.old.items + 6) }
{
    if is_reference(item) {
        ask_object(alloc, stack, frame, item)
    } else {
        ask_tuple(alloc, stack, frame, item)
    }
}

/// An object within a tuple is asked for its text. The text of the tuple goes to a frame.
fn ask_tuple(
    alloc: Global,
    stack: &mut Vec<Frame>,
    frame: TextFrame,
    item: &Value,
) -> Result<Next, NoMemory>
    requires { TakesText frame }
    ensures means { IfOk result (λ n. (f : Completion → Code) (made : List ℕ) (next : List ℕ → RuleTree) (s : State) → GoesOnAs frame f → MeansIn s stack.new.items n (item_text f made item.now next) stack.old.items) }
    ensures light { IfOk result (λ n. load stack.new.items n ≤ 3 * length stack.old.items + 6) }
{
    let whole = item.copy(alloc)?;
    let shown = tuple_text(alloc, whole)?;
    match shown {
        TupleText::Whole(_) => Err(NoMemory),
        TupleText::TooLong => Ok(Next::Leave(Beyond::Size)),
        TupleText::Asked(levels, object) => {
            stack.push(Frame::Text(frame))?;
            ask_levels(stack, levels, object)
        }
    }
}

fn ask_object(
    alloc: Global,
    stack: &mut Vec<Frame>,
    frame: TextFrame,
    item: &Value,
) -> Result<Next, NoMemory>
    requires { is_reference item.now ≡ true }
    ensures means { IfOk result (λ n. (f : Completion → Code) (made : List ℕ) (next : List ℕ → RuleTree) (s : State) → GoesOnAs frame f → MeansIn s stack.new.items n (item_text f made item.now next) stack.old.items) }
    ensures light { IfOk result (λ n. load stack.new.items n ≤ 3 * length stack.old.items + 3) }
{
    let operation = Operation::Repr(item.copy(alloc)?);
    stack.push(Frame::Text(frame))?;
    Ok(operate(operation))
}

/// The item of a list at a position is asked, behind what is made.
pub(crate) fn ask_item(
    alloc: Global,
    stack: &mut Vec<Frame>,
    list: u32,
    items: &[Value],
    at: usize,
    made: String,
) -> Result<Next, NoMemory>
    ensures means { IfOk result (λ n. (s : State) → MeansIn s stack.new.items n (first_of_list list at (drop at items.now) (string_bytes made)) stack.old.items) }
    ensures light { IfOk result (λ n. load stack.new.items n ≤ 3 * length stack.old.items + 6) }
{
    match items.get(at) {
        Some(item) => {
            let frame = TextFrame::List {
                list,
                position: at as u64,
                made: Text::from_string(made),
            };
            ask_text(alloc, stack, frame, item)
        }
        None => Ok(Next::Leave(Beyond::NotYet)),
    }
}

/// The value of a dict at a position is asked, behind what is made.
pub(crate) fn ask_value(
    alloc: Global,
    stack: &mut Vec<Frame>,
    dict: u32,
    shape: u64,
    entries: &Entries,
    at: usize,
    made: String,
) -> Result<Next, NoMemory>
    ensures means { IfOk result (λ n. (s : State) → MeansIn s stack.new.items n (first_of_dict dict shape at (drop at entries.now) (string_bytes made)) stack.old.items) }
    ensures light { IfOk result (λ n. load stack.new.items n ≤ 3 * length stack.old.items + 6) }
{
    if at >= entries.len() {
        return Ok(Next::Leave(Beyond::NotYet));
    }
    let frame = TextFrame::Dict {
        dict,
        shape,
        position: at as u64,
        made: Text::from_string(made),
    };
    ask_text(alloc, stack, frame, entries.value_at(at))
}

// ---- what waits

/// Goes on with the text of an item, or ends a printing (Python Library Reference, "Built-in Functions", `repr`).
pub fn give_text(
    alloc: Global,
    stack: &mut Vec<Frame>,
    store: &Store,
    printing: &mut Items<u32>,
    frame: TextFrame,
    completion: Completion,
) -> Result<Next, NoMemory>
    ensures means { IfOk result (λ n. (fixed : State) (texts : List Program) → MeansOver (shown fixed store.now.cells texts printing.old) (shown fixed store.now.cells texts printing.new) stack.new.items n (through_text frame completion) stack.old.items) }
    ensures light { IfOk result (λ n. IsLight stack.new.items n stack.old.items) }
{
    match frame {
        TextFrame::List {
            list,
            position,
            made,
        } => give_list(alloc, stack, store, list, position, made, completion),
        TextFrame::Dict {
            dict,
            shape,
            position,
            made,
        } => give_dict(alloc, stack, store, dict, shape, position, made, completion),
        TextFrame::Tuple { levels } => give_tuple_text(alloc, stack, levels, completion),
        TextFrame::End => {
            printing.pop();
            Ok(Next::Give(completion))
        }
    }
}

/// The text that an object gave; else what comes next. `Beyond(NotYet)` for a value that is no text.
fn told_text(completion: Completion) -> Result<Text, Next>
    ensures told { IsTextTold completion result }
    ensures light { IsLightUnlessTold result }
{
    match completion {
        Completion::Gives(value) => text_in(value),
        Completion::Raises(raised) => Err(Next::Give(Completion::Raises(raised))),
        Completion::Returns(value) => Err(Next::Give(Completion::Returns(value))),
        Completion::Breaks => Err(Next::Give(Completion::Breaks)),
        Completion::Continues => Err(Next::Give(Completion::Continues)),
        Completion::Drained(values) => Err(Next::Give(Completion::Drained(values))),
    }
}

fn text_in(value: Value) -> Result<Text, Next>
    ensures told { IsTextTold (Gives value) result }
    ensures light { IsLightUnlessTold result }
{
    match value {
        Value::Plain(Plain::Text(text)) => Ok(text),
        _ => Err(Next::Leave(Beyond::NotYet)),
    }
}

/// The text of the item of a list at a position, which is added to what is made.
fn give_list(
    alloc: Global,
    stack: &mut Vec<Frame>,
    store: &Store,
    list: u32,
    position: u64,
    made: Text,
    completion: Completion,
) -> Result<Next, NoMemory>
    ensures means { IfOk result (λ n. (fixed : State) (texts : List Program) → MeansIn (stated fixed store.now.cells texts) stack.new.items n (list_text_rule list position made completion) stack.old.items) }
    ensures light { IfOk result (λ n. IsLight stack.new.items n stack.old.items) }
{
    match told_text(completion) {
        Ok(text) => add_item(alloc, stack, store, list, position, &made, &text),
        Err(next) => Ok(next),
    }
}

fn add_item(
    alloc: Global,
    stack: &mut Vec<Frame>,
    store: &Store,
    list: u32,
    position: u64,
    made: &Text,
    text: &Text,
) -> Result<Next, NoMemory>
    ensures means { IfOk result (λ n. (fixed : State) (texts : List Program) → MeansIn (stated fixed store.now.cells texts) stack.new.items n (adds_part made.now text.now (λ after. reads_list list (λ items. prints_items list (suc position) after (drop (suc position) items)))) stack.old.items) }
    ensures light { IfOk result (λ n. IsLight stack.new.items n stack.old.items) }
{
    let mut whole = reopened(alloc, made)?;
    match put_part(text.as_str(), &mut whole) {
        Ok(()) => go_on_in_list(alloc, stack, store, list, position, whole),
        Err(end) => left(end),
    }
}

/// The items behind a position, of the list as it is now.
fn go_on_in_list(
    alloc: Global,
    stack: &mut Vec<Frame>,
    store: &Store,
    list: u32,
    position: u64,
    made: String,
) -> Result<Next, NoMemory>
    ensures means { IfOk result (λ n. (fixed : State) (texts : List Program) → MeansIn (stated fixed store.now.cells texts) stack.new.items n (reads_list list (λ items. prints_items list (suc position) (string_bytes made) (drop (suc position) items))) stack.old.items) }
    ensures light { IfOk result (λ n. IsLight stack.new.items n stack.old.items) }
{
    match store.get(list) {
        Some(Cell::List(items)) => {
            print_behind(alloc, stack, list, items.as_slice(), position, made)
        }
        _ => Ok(Next::Leave(Beyond::NotYet)),
    }
}

fn print_behind(
    alloc: Global,
    stack: &mut Vec<Frame>,
    list: u32,
    items: &[Value],
    position: u64,
    mut made: String,
) -> Result<Next, NoMemory>
    ensures means { IfOk result (λ n. (s : State) → MeansIn s stack.new.items n (prints_items list (suc position) (string_bytes made) (drop (suc position) items.now)) stack.old.items) }
    ensures light { IfOk result (λ n. IsLight stack.new.items n stack.old.items) }
{
    match put_items_behind(items, position, &mut made) {
        Ok(None) => Ok(given(made)),
        Ok(Some(at)) => ask_item(alloc, stack, list, items, at, made),
        Err(end) => left(end),
    }
}

/// The text of the value of a dict at a position. `Beyond(Changed)` where keys came or went.
fn give_dict(
    alloc: Global,
    stack: &mut Vec<Frame>,
    store: &Store,
    dict: u32,
    shape: u64,
    position: u64,
    made: Text,
    completion: Completion,
) -> Result<Next, NoMemory>
    ensures means { IfOk result (λ n. (fixed : State) (texts : List Program) → MeansIn (stated fixed store.now.cells texts) stack.new.items n (dict_text_rule dict shape position made completion) stack.old.items) }
    ensures light { IfOk result (λ n. IsLight stack.new.items n stack.old.items) }
{
    match told_text(completion) {
        Ok(text) => go_on_in_dict(alloc, stack, store, dict, shape, position, &made, &text),
        Err(next) => Ok(next),
    }
}

fn go_on_in_dict(
    alloc: Global,
    stack: &mut Vec<Frame>,
    store: &Store,
    dict: u32,
    shape: u64,
    position: u64,
    made: &Text,
    text: &Text,
) -> Result<Next, NoMemory>
    ensures means { IfOk result (λ n. (fixed : State) (texts : List Program) → MeansIn (stated fixed store.now.cells texts) stack.new.items n (reads_dict dict (on_same_keys dict shape position made.now text.now)) stack.old.items) }
    ensures light { IfOk result (λ n. IsLight stack.new.items n stack.old.items) }
{
    match store.get(dict) {
        Some(
            Cell::Dict {
                entries,
                shape: now,
            },
        ) => add_value(
            alloc, stack, dict, shape, *now, entries, position, made, text,
        ),
        _ => Ok(Next::Leave(Beyond::NotYet)),
    }
}

/// The text of a value is added, where the keys are as they were.
fn add_value(
    alloc: Global,
    stack: &mut Vec<Frame>,
    dict: u32,
    shape: u64,
    now: u64,
    entries: &Entries,
    position: u64,
    made: &Text,
    text: &Text,
) -> Result<Next, NoMemory>
    ensures means { IfOk result (λ n. (s : State) → MeansIn s stack.new.items n (on_same_keys dict shape position made.now text.now entries.now now) stack.old.items) }
    ensures light { IfOk result (λ n. IsLight stack.new.items n stack.old.items) }
{
    if now == shape {
        put_value(alloc, stack, dict, shape, entries, position, made, text)
    } else {
        Ok(Next::Leave(Beyond::Changed))
    }
}

fn put_value(
    alloc: Global,
    stack: &mut Vec<Frame>,
    dict: u32,
    shape: u64,
    entries: &Entries,
    position: u64,
    made: &Text,
    text: &Text,
) -> Result<Next, NoMemory>
    ensures means { IfOk result (λ n. (s : State) → MeansIn s stack.new.items n (adds_part made.now text.now (λ after. prints_entries dict shape (suc position) after (drop (suc position) entries.now))) stack.old.items) }
    ensures light { IfOk result (λ n. IsLight stack.new.items n stack.old.items) }
{
    let mut whole = reopened(alloc, made)?;
    match put_part(text.as_str(), &mut whole) {
        Ok(()) => print_entries_behind(alloc, stack, dict, shape, entries, position, whole),
        Err(end) => left(end),
    }
}

fn print_entries_behind(
    alloc: Global,
    stack: &mut Vec<Frame>,
    dict: u32,
    shape: u64,
    entries: &Entries,
    position: u64,
    mut made: String,
) -> Result<Next, NoMemory>
    ensures means { IfOk result (λ n. (s : State) → MeansIn s stack.new.items n (prints_entries dict shape (suc position) (string_bytes made) (drop (suc position) entries.now)) stack.old.items) }
    ensures light { IfOk result (λ n. IsLight stack.new.items n stack.old.items) }
{
    match put_entries_behind(entries, position, &mut made) {
        Ok(None) => Ok(given(made)),
        Ok(Some(at)) => ask_value(alloc, stack, dict, shape, entries, at, made),
        Err(end) => left(end),
    }
}
