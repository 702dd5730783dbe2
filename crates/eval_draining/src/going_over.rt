ghost use Rattle.std.specs.Prelude.{◌++◌, ◌∷◌, [], IfOk, List};
ghost use Rattle.eval_frames.specs.declared.frame.Frame.{Frame};
ghost use Rattle.eval_frames.specs.LoopFrames.{container, drained, through_drain};
ghost use Rattle.eval_frames.specs.Meaning.{IsLight, Means, MeansOver};
ghost use Rattle.eval_exprs.specs.Steps.{IsSlight, MeansAnywhere};
ghost use Rattle.side_trees.specs.Trees.{bind};
ghost use Rattle.language_rules.specs.AtOnce.{stated};
ghost use Rattle.language_rules.specs.Draining.{asks_next, drain_rule, ends_drain, passes, within_limit};
ghost use Rattle.language_rules.specs.Going.{on_items, on_value};
ghost use Rattle.language_rules.specs.States.{State};

use crate::finishing::finish;
use crate::limits::passed_limit;
use eval_frames::{Collection, DrainFrame, Draining, Frame, Next, operate, special};
use object_operations::{Completion, Special};
use py_ast::Program;
use py_store::Store;
use rp_base::{Beyond, ExcKind, NoMemory, Raised, Value};
use sqlite_items::Items;
use std::alloc::Global;

/// What waits while a collection is gone over goes on with an end.
pub fn give_drain(
    alloc: Global,
    stack: &mut Vec<Frame>,
    store: &mut Store,
    texts: &[Program],
    frame: DrainFrame,
    completion: Completion,
) -> Result<Next, NoMemory>
    ensures means { IfOk result (λ next. (fixed : State) → MeansOver (stated fixed store.old.cells texts.now) (stated fixed store.new.cells texts.now) stack.new.items next (through_drain frame completion) stack.old.items) }
    ensures light { IfOk result (λ next. IsLight stack.new.items next stack.old.items) }
{
    match frame {
        DrainFrame::Iterator {
            collection,
            draining,
        } => give_iterator(alloc, stack, collection, draining, completion),
        DrainFrame::Item {
            collection,
            iterator,
            items,
        } => give_item(alloc, stack, collection, iterator, items, completion),
        DrainFrame::Drained(draining) => {
            give_items(alloc, stack, store, texts, draining, completion)
        }
    }
}

/// The iterator is there: its items are asked for, one after another.
fn give_iterator(
    alloc: Global,
    stack: &mut Vec<Frame>,
    collection: Collection,
    draining: Draining,
    completion: Completion,
) -> Result<Next, NoMemory>
    ensures means { IfOk result (λ next. MeansAnywhere stack.new.items next (on_value (λ iterator. bind (asks_next (container collection) iterator []) (on_items (drained draining))) completion) stack.old.items) }
    ensures light { IfOk result (λ next. IsLight stack.new.items next stack.old.items) }
{
    match completion {
        Completion::Gives(iterator) => { ask_first(alloc, stack, collection, draining, iterator) }
        Completion::Raises(raised) => Ok(Next::Give(Completion::Raises(raised))),
        Completion::Returns(value) => Ok(Next::Give(Completion::Returns(value))),
        Completion::Breaks => Ok(Next::Give(Completion::Breaks)),
        Completion::Continues => Ok(Next::Give(Completion::Continues)),
        Completion::Drained(items) => Ok(Next::Give(Completion::Drained(items))),
    }
}

/// The first item is asked for, over what is made of all of them.
fn ask_first(
    alloc: Global,
    stack: &mut Vec<Frame>,
    collection: Collection,
    draining: Draining,
    iterator: Value,
) -> Result<Next, NoMemory>
    ensures means { IfOk result (λ next. MeansAnywhere stack.new.items next (bind (asks_next (container collection) iterator []) (on_items (drained draining))) stack.old.items) }
    ensures light { IfOk result (λ next. IsLight stack.new.items next stack.old.items) }
{
    stack.push(Frame::Drain(DrainFrame::Drained(draining)))?;
    let items = Items::new(alloc);
    ask_next(alloc, stack, collection, iterator, items)
}

/// The next item is asked for, behind these.
fn ask_next(
    alloc: Global,
    stack: &mut Vec<Frame>,
    collection: Collection,
    iterator: Value,
    items: Items<Value>,
) -> Result<Next, NoMemory>
    ensures means { IfOk result (λ next. MeansAnywhere stack.new.items next (asks_next (container collection) iterator items) stack.old.items) }
    ensures slight { IfOk result (λ next. IsSlight stack.new.items next stack.old.items) }
{
    let operation = special(alloc, iterator.copy(alloc)?, Special::Next);
    stack.push(Frame::Drain(DrainFrame::Item {
        collection,
        iterator,
        items,
    }))?;
    Ok(operate(operation))
}

/// The answer for the next item.
fn give_item(
    alloc: Global,
    stack: &mut Vec<Frame>,
    collection: Collection,
    iterator: Value,
    items: Items<Value>,
    completion: Completion,
) -> Result<Next, NoMemory>
    ensures means { IfOk result (λ next. MeansAnywhere stack.new.items next (drain_rule (container collection) iterator items completion) stack.old.items) }
    ensures light { IfOk result (λ next. IsLight stack.new.items next stack.old.items) }
{
    match completion {
        Completion::Gives(item) => take_item(alloc, stack, collection, iterator, items, item),
        Completion::Raises(raised) => Ok(end_drain(items, raised)),
        Completion::Returns(value) => Ok(Next::Give(Completion::Returns(value))),
        Completion::Breaks => Ok(Next::Give(Completion::Breaks)),
        Completion::Continues => Ok(Next::Give(Completion::Continues)),
        Completion::Drained(items) => Ok(Next::Give(Completion::Drained(items))),
    }
}

/// One item more, which is judged before the next is asked for.
fn take_item(
    alloc: Global,
    stack: &mut Vec<Frame>,
    collection: Collection,
    iterator: Value,
    mut items: Items<Value>,
    item: Value,
) -> Result<Next, NoMemory>
    ensures means { IfOk result (λ next. MeansAnywhere stack.new.items next (within_limit (asks_next (container collection) iterator (items ++ item ∷ [])) (passes (container collection) (items ++ item ∷ []))) stack.old.items) }
    ensures light { IfOk result (λ next. IsLight stack.new.items next stack.old.items) }
{
    items.push(item)?;
    match passed_limit(collection, items.as_slice()) {
        Some(beyond) => Ok(Next::Leave(beyond)),
        None => ask_next(alloc, stack, collection, iterator, items),
    }
}

/// StopIteration tells the end; any other exception is one.
fn end_drain(items: Items<Value>, raised: Raised) -> Next
    ensures means { (stack : List Frame) → Means stack result (ends_drain items raised raised.kind) stack }
    ensures light { (stack : List Frame) → IsLight stack result stack }
{
    match raised.kind {
        ExcKind::StopIteration => Next::Give(Completion::Drained(items)),
        _ => Next::Give(Completion::Raises(raised)),
    }
}

/// All items are there.
fn give_items(
    alloc: Global,
    stack: &mut Vec<Frame>,
    store: &mut Store,
    texts: &[Program],
    draining: Draining,
    completion: Completion,
) -> Result<Next, NoMemory>
    ensures means { IfOk result (λ next. (fixed : State) → MeansOver (stated fixed store.old.cells texts.now) (stated fixed store.new.cells texts.now) stack.new.items next (on_items (drained draining) completion) stack.old.items) }
    ensures light { IfOk result (λ next. IsLight stack.new.items next stack.old.items) }
{
    match completion {
        Completion::Drained(items) => finish(alloc, stack, store, texts, draining, items),
        Completion::Gives(value) => Ok(Next::Give(Completion::Gives(value))),
        Completion::Raises(raised) => Ok(Next::Give(Completion::Raises(raised))),
        Completion::Returns(value) => Ok(Next::Give(Completion::Returns(value))),
        Completion::Breaks => Ok(Next::Give(Completion::Breaks)),
        Completion::Continues => Ok(Next::Give(Completion::Continues)),
    }
}
