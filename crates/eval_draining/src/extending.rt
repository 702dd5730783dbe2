ghost use Rattle.std.specs.Prelude.{◌≡◌, ◌++◌, IfOk, List, Some, length, reverse, true};
ghost use Rattle.py_ast.specs.declared.program.Program.{Program};
ghost use Rattle.py_store.specs.Cells.{cell_of};
ghost use Rattle.eval_frames.specs.declared.frame.Frame.{Frame};
ghost use Rattle.eval_frames.specs.declared.loop_frames.Draining.TheVariants as draining;
ghost use Rattle.eval_frames.specs.LoopFrames.{drained};
ghost use Rattle.eval_frames.specs.Meaning.{IsLight, MeansOver};
ghost use Rattle.language_rules.specs.AtOnce.{stated};
ghost use Rattle.language_rules.specs.States.{State};
ghost use Rattle.eval_draining.specs.Extended.{answer_of, room_of};

use crate::reversing::values_reversed;
use eval_frames::Next;
use object_operations::Completion;
use py_lists::{MOST_ITEMS, put_list, take_list};
use py_store::{Cell, Store, Values};
use rp_base::{Beyond, NoMemory, Plain, Value};
use sqlite_items::Items;
use std::alloc::Global;

/// The items go behind those of a list. `Leave(Size)` past 1,048,576 items.
pub fn extend(
    alloc: Global,
    store: &mut Store,
    list: u32,
    is_answer: bool,
    more: Items<Value>,
) -> Result<Next, NoMemory>
    ensures means { IfOk result (λ next. (fixed : State) (texts : List Program) (stack : List Frame) → MeansOver (stated fixed store.old.cells texts) (stated fixed store.new.cells texts) stack next (drained (draining.Extend list is_answer) more) stack) }
    ensures light { IfOk result (λ next. (stack : List Frame) → IsLight stack next stack) }
{
    match room_in(store, list, more.len()) {
        Some(true) => grow(alloc, store, list, is_answer, more),
        Some(false) => Ok(Next::Leave(Beyond::Size)),
        None => Ok(Next::Leave(Beyond::NotYet)),
    }
}

/// Whether a list has room for so many items more; none where the cell is no list.
fn room_in(store: &Store, list: u32, more: usize) -> Option<bool>
    ensures { result ≡ room_of more (cell_of store.now.cells list) }
{
    match store.get(list) {
        Some(Cell::List(items)) => Some(items.len().saturating_add(more) <= MOST_ITEMS),
        _ => None,
    }
}

fn grow(
    alloc: Global,
    store: &mut Store,
    list: u32,
    is_answer: bool,
    more: Items<Value>,
) -> Result<Next, NoMemory>
    requires { room_of (length more) (cell_of store.old.cells list) ≡ Some true }
    ensures means { IfOk result (λ next. (fixed : State) (texts : List Program) (stack : List Frame) → MeansOver (stated fixed store.old.cells texts) (stated fixed store.new.cells texts) stack next (drained (draining.Extend list is_answer) more) stack) }
    ensures light { IfOk result (λ next. (stack : List Frame) → IsLight stack next stack) }
{
    let waiting = values_reversed(alloc, more)?;
    let mut items = take_list(store, list);
    push_all(&mut items, waiting)?;
    put_list(store, list, items);
    Ok(Next::Give(Completion::Gives(answer_of(list, is_answer))))
}

/// The list itself, or None.
fn answer_of(list: u32, is_answer: bool) -> Value
    ensures { result ≡ answer_of list is_answer }
{
    if is_answer {
        Value::Own(list)
    } else {
        Value::Plain(Plain::None)
    }
}

/// Values that wait, the last first, go behind the items.
fn push_all(items: &mut Values, mut waiting: Items<Value>) -> Result<(), NoMemory>
    ensures { IfOk result (λ done. items.new ≡ items.old ++ reverse waiting) }
{
    'waiting: while let Some(value) = waiting.pop() {
        items.push(value)?;
    }
    Ok(())
}
