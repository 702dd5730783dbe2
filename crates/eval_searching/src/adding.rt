ghost use Rattle.std.specs.Prelude.{◌≡◌, ◌++◌, ◌∷◌, [], suc, IfOk, List, reverse};
ghost use Rattle.py_ast.specs.declared.program.Program.{Program};
ghost use Rattle.py_store.specs.declared.cell.Cell.TheVariants as cell;
ghost use Rattle.object_operations.specs.declared.operation.Operation.TheVariants as operation;
ghost use Rattle.object_operations.specs.declared.special.Special.TheVariants as special;
ghost use Rattle.eval_frames.specs.declared.frame.Frame.{Frame};
ghost use Rattle.eval_frames.specs.declared.list_frames.AdditionFrame.TheVariants as addition_frame;
ghost use Rattle.eval_frames.specs.ListFrames.{through_addition};
ghost use Rattle.eval_frames.specs.Meaning.{IsLight, Means, MeansIn};
ghost use Rattle.language_rules.specs.Arithmetic.{add_item_rule, adds_from, adds_length};
ghost use Rattle.language_rules.specs.AtOnce.{stated};
ghost use Rattle.language_rules.specs.Entries.{within_items};
ghost use Rattle.language_rules.specs.Going.{asks, gives_new};
ghost use Rattle.language_rules.specs.Searching.{reads_list};
ghost use Rattle.language_rules.specs.States.{State};
ghost use Rattle.eval_searching.specs.Added.{item_of_added, length_behind};

use crate::lengths::{following, number, told_length};
use eval_frames::{AdditionFrame, Frame, Next, operate_over, special, special_with};
use object_operations::{Completion, Special};
use py_store::{Cell, Store, Values};
use rp_base::{Beyond, NoMemory, Value};
use sqlite_items::Items;
use std::alloc::Global;

/// The greatest number of items of a list.
const MOST_ITEMS: u128 = 1_048_576;

/// A list and then another one, own or not (Python Language Reference, "Binary arithmetic operations"): the other is asked
/// for its length first.
pub fn add_lists(
    alloc: Global,
    stack: &mut Vec<Frame>,
    list: u32,
    other: Value,
) -> Result<Next, NoMemory>
    ensures means { IfOk result (λ n. Means stack.new.items n (asks (operation.Special other special.Len []) (adds_length list other)) stack.old.items) }
    ensures light { IfOk result (λ n. IsLight stack.new.items n stack.old.items) }
{
    let operation = special(alloc, other.copy(alloc)?, Special::Len);
    let frame = AdditionFrame::Length { list, other };
    operate_over(stack, Frame::Addition(frame), operation)
}

/// Goes on with an addition of two lists.
pub fn give_addition(
    alloc: Global,
    stack: &mut Vec<Frame>,
    store: &Store,
    frame: AdditionFrame,
    completion: Completion,
) -> Result<Next, NoMemory>
    ensures means { IfOk result (λ n. (fixed : State) (texts : List Program) → MeansIn (stated fixed store.now.cells texts) stack.new.items n (through_addition frame completion) stack.old.items) }
    ensures light { IfOk result (λ n. IsLight stack.new.items n stack.old.items) }
{
    match frame {
        AdditionFrame::Length { list, other } => {
            give_length(alloc, stack, store, list, other, completion)
        }
        AdditionFrame::Item {
            other,
            length,
            position,
            items,
        } => give_item(alloc, stack, other, length, position, items, completion),
    }
}

fn give_length(
    alloc: Global,
    stack: &mut Vec<Frame>,
    store: &Store,
    list: u32,
    other: Value,
    completion: Completion,
) -> Result<Next, NoMemory>
    ensures means { IfOk result (λ n. (fixed : State) (texts : List Program) → MeansIn (stated fixed store.now.cells texts) stack.new.items n (through_addition (addition_frame.Length list other) completion) stack.old.items) }
    ensures light { IfOk result (λ n. IsLight stack.new.items n stack.old.items) }
{
    match told_length(completion) {
        Ok(length) => add_to(alloc, stack, store, list, other, length),
        Err(next) => Ok(next),
    }
}

/// The own items of the list as it is now, and then so many of the other.
fn add_to(
    alloc: Global,
    stack: &mut Vec<Frame>,
    store: &Store,
    list: u32,
    other: Value,
    length: u128,
) -> Result<Next, NoMemory>
    ensures means { IfOk result (λ n. (fixed : State) (texts : List Program) → MeansIn (stated fixed store.now.cells texts) stack.new.items n (reads_list list (λ items. within_items (length_behind items length) (adds_from other length 0 items))) stack.old.items) }
    ensures light { IfOk result (λ n. IsLight stack.new.items n stack.old.items) }
{
    match store.get(list) {
        Some(Cell::List(items)) => add_within(alloc, stack, items.as_slice(), other, length),
        _ => Ok(Next::Leave(Beyond::NotYet)),
    }
}

/// `Beyond(Size)` where the new list would have too many items.
fn add_within(
    alloc: Global,
    stack: &mut Vec<Frame>,
    items: &[Value],
    other: Value,
    length: u128,
) -> Result<Next, NoMemory>
    ensures means { IfOk result (λ n. (s : State) → MeansIn s stack.new.items n (within_items (length_behind items.now length) (adds_from other length 0 items.now)) stack.old.items) }
    ensures light { IfOk result (λ n. IsLight stack.new.items n stack.old.items) }
{
    if (items.len() as u128).saturating_add(length) > MOST_ITEMS {
        Ok(Next::Leave(Beyond::Size))
    } else {
        let made = copied(alloc, items)?;
        add_next(alloc, stack, other, length as u64, 0, made)
    }
}

/// An equal list of its own.
fn copied(alloc: Global, items: &[Value]) -> Result<Items<Value>, NoMemory>
    ensures { IfOk result (λ all. all ≡ items.now) }
{
    let mut all = Items::new(alloc);
    for item in items {
        all.push(item.copy(alloc)?)?;
    }
    Ok(all)
}

/// The other is asked for its item at a position; behind the last the list is made.
fn add_next(
    alloc: Global,
    stack: &mut Vec<Frame>,
    other: Value,
    length: u64,
    position: u64,
    items: Items<Value>,
) -> Result<Next, NoMemory>
    ensures means { IfOk result (λ n. (s : State) → MeansIn s stack.new.items n (adds_from other length position items) stack.old.items) }
    ensures light { IfOk result (λ n. IsLight stack.new.items n stack.old.items) }
{
    if position < length {
        ask_item(alloc, stack, other, length, position, items)
    } else {
        make_list(alloc, items)
    }
}

fn ask_item(
    alloc: Global,
    stack: &mut Vec<Frame>,
    other: Value,
    length: u64,
    position: u64,
    items: Items<Value>,
) -> Result<Next, NoMemory>
    ensures means { IfOk result (λ n. (s : State) → MeansIn s stack.new.items n (item_of_added other length position items) stack.old.items) }
    ensures light { IfOk result (λ n. IsLight stack.new.items n stack.old.items) }
{
    let receiver = other.copy(alloc)?;
    let operation = special_with(alloc, receiver, Special::GetItem, number(position))?;
    let frame = AdditionFrame::Item {
        other,
        length,
        position,
        items,
    };
    operate_over(stack, Frame::Addition(frame), operation)
}

fn make_list(alloc: Global, items: Items<Value>) -> Result<Next, NoMemory>
    ensures means { IfOk result (λ n. (stack : List Frame) → Means stack n (gives_new (cell.List items)) stack) }
    ensures light { IfOk result (λ n. (stack : List Frame) → IsLight stack n stack) }
{
    Ok(Next::Make(Cell::List(listed(alloc, items)?)))
}

/// The items of a list.
fn listed(alloc: Global, items: Items<Value>) -> Result<Values, NoMemory>
    ensures { IfOk result (λ values. values ≡ items) }
{
    let mut values = reversed(alloc, items)?;
    values.reverse();
    Ok(values)
}

/// The items, the last first.
fn reversed(alloc: Global, mut items: Items<Value>) -> Result<Values, NoMemory>
    ensures { IfOk result (λ values. reverse values ≡ items) }
{
    let mut values = Values::new(alloc);
    'values: while let Some(value) = items.pop() {
        values.push(value)?;
    }
    Ok(values)
}

/// The other's item at a position.
fn give_item(
    alloc: Global,
    stack: &mut Vec<Frame>,
    other: Value,
    length: u64,
    position: u64,
    items: Items<Value>,
    completion: Completion,
) -> Result<Next, NoMemory>
    ensures means { IfOk result (λ n. (s : State) → MeansIn s stack.new.items n (add_item_rule other length position items completion) stack.old.items) }
    ensures light { IfOk result (λ n. IsLight stack.new.items n stack.old.items) }
{
    match completion {
        Completion::Gives(value) => add_item(alloc, stack, other, length, position, items, value),
        Completion::Raises(raised) => Ok(Next::Give(Completion::Raises(raised))),
        Completion::Returns(value) => Ok(Next::Give(Completion::Returns(value))),
        Completion::Breaks => Ok(Next::Give(Completion::Breaks)),
        Completion::Continues => Ok(Next::Give(Completion::Continues)),
        Completion::Drained(values) => Ok(Next::Give(Completion::Drained(values))),
    }
}

fn add_item(
    alloc: Global,
    stack: &mut Vec<Frame>,
    other: Value,
    length: u64,
    position: u64,
    mut items: Items<Value>,
    value: Value,
) -> Result<Next, NoMemory>
    ensures means { IfOk result (λ n. (s : State) → MeansIn s stack.new.items n (adds_from other length (suc position) (items ++ (value ∷ []))) stack.old.items) }
    ensures light { IfOk result (λ n. IsLight stack.new.items n stack.old.items) }
{
    let next = following(position)?;
    items.push(value)?;
    add_next(alloc, stack, other, length, next, items)
}
