ghost use Rattle.std.specs.Prelude.{◌≡◌, ◌==◌, ◌++◌, ◌∷◌, [], ℕ, drop, IfOk, List, length, string_bytes, false, reverse};
ghost use Rattle.std.specs.List.{list_any};
ghost use Rattle.py_ast.specs.declared.program.Program.{Program};
ghost use Rattle.py_store.specs.declared.cell.Cell.TheVariants as cell;
ghost use Rattle.eval_frames.specs.declared.frame.Frame.{Frame};
ghost use Rattle.eval_frames.specs.declared.frame.Frame.TheVariants as frame;
ghost use Rattle.eval_frames.specs.declared.list_frames.TextFrame.TheVariants as text_frame;
ghost use Rattle.eval_frames.specs.Meaning.{IsLight, Means, MeansIn, MeansOver};
ghost use Rattle.language_rules.specs.Going.{RuleTree};
ghost use Rattle.language_rules.specs.Perform.{repr_rule, str_rule};
ghost use Rattle.language_rules.specs.Printing.{cell_repr, cell_str, repr_of_cell, str_of_cell};
ghost use Rattle.language_rules.specs.States.{State};
ghost use Rattle.eval_texts.specs.Shown.{shown};
ghost use Rattle.eval_texts.specs.Texts.{IsLeft, MeansPrinting, first_of_dict, first_of_list};

use crate::dicts::put_entries;
use crate::lists::put_items;
use crate::ranges::range_text;
use crate::waiting::{ask_item, ask_value, given, left};
use eval_frames::{Frame, Next, TextFrame};
use eval_instances::{repr_of_instance, str_of_instance};
use py_store::{Cell, Entries, Store};
use rp_base::{Beyond, NoMemory, OpEnd, Value};
use sqlite_items::Items;
use std::alloc::Global;

/// `repr` of an own object (Python Library Reference, "Built-in Functions", `repr`). An item that is a tuple which holds
/// a reference is not built yet.
pub fn repr_of(
    alloc: Global,
    stack: &mut Vec<Frame>,
    store: &Store,
    printing: &mut Items<u32>,
    receiver: &Value,
) -> Result<Next, NoMemory>
    ensures means { IfOk result (λ n. (fixed : State) (texts : List Program) → MeansOver (shown fixed store.now.cells texts printing.old) (shown fixed store.now.cells texts printing.new) stack.new.items n (repr_rule receiver.now) stack.old.items) }
    ensures light { IfOk result (λ n. IsLight stack.new.items n stack.old.items) }
{
    match receiver {
        Value::Own(number) => repr_at(alloc, stack, store, printing, *number),
        Value::Plain(_) => Ok(Next::Leave(Beyond::NotYet)),
        Value::Tuple(_) => Ok(Next::Leave(Beyond::NotYet)),
        Value::Proxy(_) => Ok(Next::Leave(Beyond::NotYet)),
    }
}

/// `str` of an own object: its repr, unless it is an instance.
pub fn str_of(
    alloc: Global,
    stack: &mut Vec<Frame>,
    store: &Store,
    printing: &mut Items<u32>,
    receiver: &Value,
) -> Result<Next, NoMemory>
    ensures means { IfOk result (λ n. (fixed : State) (texts : List Program) → MeansOver (shown fixed store.now.cells texts printing.old) (shown fixed store.now.cells texts printing.new) stack.new.items n (str_rule receiver.now) stack.old.items) }
    ensures light { IfOk result (λ n. IsLight stack.new.items n stack.old.items) }
{
    match receiver {
        Value::Own(number) => str_at(alloc, stack, store, printing, *number),
        Value::Plain(_) => Ok(Next::Leave(Beyond::NotYet)),
        Value::Tuple(_) => Ok(Next::Leave(Beyond::NotYet)),
        Value::Proxy(_) => Ok(Next::Leave(Beyond::NotYet)),
    }
}

/// The repr of the cell of this number.
fn repr_at(
    alloc: Global,
    stack: &mut Vec<Frame>,
    store: &Store,
    printing: &mut Items<u32>,
    number: u32,
) -> Result<Next, NoMemory>
    ensures means { IfOk result (λ n. (fixed : State) (texts : List Program) → MeansOver (shown fixed store.now.cells texts printing.old) (shown fixed store.now.cells texts printing.new) stack.new.items n (cell_repr number) stack.old.items) }
    ensures light { IfOk result (λ n. IsLight stack.new.items n stack.old.items) }
{
    match store.get(number) {
        Some(Cell::Instance { .. }) => repr_of_instance(alloc, stack, store, number),
        Some(cell) => text_of_cell(alloc, stack, printing, number, cell),
        None => Ok(Next::Leave(Beyond::NotYet)),
    }
}

/// The str of the cell of this number.
fn str_at(
    alloc: Global,
    stack: &mut Vec<Frame>,
    store: &Store,
    printing: &mut Items<u32>,
    number: u32,
) -> Result<Next, NoMemory>
    ensures means { IfOk result (λ n. (fixed : State) (texts : List Program) → MeansOver (shown fixed store.now.cells texts printing.old) (shown fixed store.now.cells texts printing.new) stack.new.items n (cell_str number) stack.old.items) }
    ensures light { IfOk result (λ n. IsLight stack.new.items n stack.old.items) }
{
    match store.get(number) {
        Some(Cell::Instance { .. }) => str_of_instance(alloc, stack, store, number),
        Some(cell) => text_of_cell(alloc, stack, printing, number, cell),
        None => Ok(Next::Leave(Beyond::NotYet)),
    }
}

/// The text of a cell, which is both its repr and its str; those of an instance are made by methods.
fn text_of_cell(
    alloc: Global,
    stack: &mut Vec<Frame>,
    printing: &mut Items<u32>,
    number: u32,
    cell: &Cell,
) -> Result<Next, NoMemory>
    ensures repr { IfOk result (λ n. MeansPrinting printing.old printing.new stack.new.items n (repr_of_cell number cell.now) stack.old.items) }
    ensures str { IfOk result (λ n. MeansPrinting printing.old printing.new stack.new.items n (str_of_cell number cell.now) stack.old.items) }
    ensures light { IfOk result (λ n. IsLight stack.new.items n stack.old.items) }
{
    match cell {
        Cell::List(items) => text_of_list(alloc, stack, printing, number, items.as_slice()),
        Cell::Dict { entries, shape } => {
            text_of_dict(alloc, stack, printing, number, entries, *shape)
        }
        Cell::Range { start, stop, step } => { Ok(given(range_text(alloc, *start, *stop, *step)?)) }
        Cell::Instance { .. } => Err(NoMemory),
        Cell::Namespace { .. } => Ok(Next::Leave(Beyond::Namespace)),
        Cell::Scope { .. } => Ok(Next::Leave(Beyond::Address)),
        Cell::Function { .. } => Ok(Next::Leave(Beyond::Address)),
        Cell::Class { .. } => Ok(Next::Leave(Beyond::Address)),
        Cell::Bound { .. } => Ok(Next::Leave(Beyond::Address)),
        Cell::Iter { .. } => Ok(Next::Leave(Beyond::Address)),
        Cell::View { .. } => Ok(Next::Leave(Beyond::Address)),
        Cell::Host(_) => Ok(Next::Leave(Beyond::Address)),
        Cell::HostFunc { .. } => Ok(Next::Leave(Beyond::Address)),
        Cell::Conn { .. } => Ok(Next::Leave(Beyond::Address)),
        Cell::Modules { .. } => Ok(Next::Leave(Beyond::Address)),
        Cell::Root => Ok(Next::Leave(Beyond::Address)),
    }
}

/// The text of a list. One whose printing is under way is not printed again.
fn text_of_list(
    alloc: Global,
    stack: &mut Vec<Frame>,
    printing: &mut Items<u32>,
    list: u32,
    items: &[Value],
) -> Result<Next, NoMemory>
    ensures means { IfOk result (λ n. MeansPrinting printing.old printing.new stack.new.items n (repr_of_cell list (cell.List items.now)) stack.old.items) }
    ensures light { IfOk result (λ n. IsLight stack.new.items n stack.old.items) }
{
    if printing.as_slice().contains(&list) {
        Ok(Next::Leave(Beyond::CyclicRepr))
    } else {
        begin_list(alloc, stack, printing, list, items)
    }
}

fn begin_list(
    alloc: Global,
    stack: &mut Vec<Frame>,
    printing: &mut Items<u32>,
    list: u32,
    items: &[Value],
) -> Result<Next, NoMemory>
    requires { list_any (λ m. m == list) printing.old ≡ false }
    ensures means { IfOk result (λ n. MeansPrinting printing.old printing.new stack.new.items n (repr_of_cell list (cell.List items.now)) stack.old.items) }
    ensures light { IfOk result (λ n. IsLight stack.new.items n stack.old.items) }
{
    let mut made = String::from_str(alloc, "[")?;
    match put_items(items, 0, &mut made) {
        Ok(None) => Ok(given(made)),
        Ok(Some(at)) => ask_first_item(alloc, stack, printing, list, items, at, made),
        Err(end) => left_printing(printing, list, end),
    }
}

/// The printing is under way while an item is asked.
fn ask_first_item(
    alloc: Global,
    stack: &mut Vec<Frame>,
    printing: &mut Items<u32>,
    list: u32,
    items: &[Value],
    at: usize,
    made: String,
) -> Result<Next, NoMemory>
    ensures printing { IfOk result (λ n. printing.new ≡ printing.old ++ list ∷ []) }
    ensures means { IfOk result (λ n. (s : State) → MeansIn s stack.new.items n (first_of_list list at (drop at items.now) (string_bytes made)) (stack.old.items ++ frame.Text text_frame.End ∷ [])) }
    ensures light { IfOk result (λ n. IsLight stack.new.items n stack.old.items) }
{
    printing.push(list)?;
    stack.push(Frame::Text(TextFrame::End))?;
    ask_item(alloc, stack, list, items, at, made)
}

/// The text of a dict. One whose printing is under way is not printed again.
fn text_of_dict(
    alloc: Global,
    stack: &mut Vec<Frame>,
    printing: &mut Items<u32>,
    dict: u32,
    entries: &Entries,
    shape: u64,
) -> Result<Next, NoMemory>
    ensures means { IfOk result (λ n. MeansPrinting printing.old printing.new stack.new.items n (repr_of_cell dict (cell.Dict entries.now shape)) stack.old.items) }
    ensures light { IfOk result (λ n. IsLight stack.new.items n stack.old.items) }
{
    if printing.as_slice().contains(&dict) {
        Ok(Next::Leave(Beyond::CyclicRepr))
    } else {
        begin_dict(alloc, stack, printing, dict, entries, shape)
    }
}

fn begin_dict(
    alloc: Global,
    stack: &mut Vec<Frame>,
    printing: &mut Items<u32>,
    dict: u32,
    entries: &Entries,
    shape: u64,
) -> Result<Next, NoMemory>
    requires { list_any (λ m. m == dict) printing.old ≡ false }
    ensures means { IfOk result (λ n. MeansPrinting printing.old printing.new stack.new.items n (repr_of_cell dict (cell.Dict entries.now shape)) stack.old.items) }
    ensures light { IfOk result (λ n. IsLight stack.new.items n stack.old.items) }
{
    let mut made = String::from_str(alloc, "{")?;
    match put_entries(entries, 0, &mut made) {
        Ok(None) => Ok(given(made)),
        Ok(Some(at)) => ask_first_value(alloc, stack, printing, dict, shape, entries, at, made),
        Err(end) => left_printing(printing, dict, end),
    }
}

/// The printing is under way while a value is asked.
fn ask_first_value(
    alloc: Global,
    stack: &mut Vec<Frame>,
    printing: &mut Items<u32>,
    dict: u32,
    shape: u64,
    entries: &Entries,
    at: usize,
    made: String,
) -> Result<Next, NoMemory>
    ensures printing { IfOk result (λ n. printing.new ≡ printing.old ++ dict ∷ []) }
    ensures means { IfOk result (λ n. (s : State) → MeansIn s stack.new.items n (first_of_dict dict shape at (drop at entries.now) (string_bytes made)) (stack.old.items ++ frame.Text text_frame.End ∷ [])) }
    ensures light { IfOk result (λ n. IsLight stack.new.items n stack.old.items) }
{
    printing.push(dict)?;
    stack.push(Frame::Text(TextFrame::End))?;
    ask_value(alloc, stack, dict, shape, entries, at, made)
}

/// The printing is under way where the text is too long.
fn left_printing(printing: &mut Items<u32>, number: u32, end: OpEnd) -> Result<Next, NoMemory>
    ensures printing { IfOk result (λ n. printing.new ≡ printing.old ++ number ∷ []) }
    ensures left { IfOk result (λ n. IsLeft end n) }
    ensures light { IfOk result (λ n. (stack : List Frame) → IsLight stack n stack) }
{
    printing.push(number)?;
    left(end)
}
