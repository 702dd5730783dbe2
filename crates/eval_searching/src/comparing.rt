ghost use Rattle.std.specs.Prelude.{◌≡◌, ◌||◌, suc, IfOk, List, slice_get, true, false, Some};
ghost use Rattle.py_ast.specs.declared.program.Program.{Program};
ghost use Rattle.eval_frames.specs.declared.frame.Frame.{Frame};
ghost use Rattle.eval_frames.specs.declared.list_frames.EqualityFrame.TheVariants as equality_frame;
ghost use Rattle.eval_frames.specs.ListFrames.{through_equality};
ghost use Rattle.eval_frames.specs.Meaning.{IsLight, Means, MeansIn};
ghost use Rattle.language_rules.specs.Answers.{gives};
ghost use Rattle.language_rules.specs.AtOnce.{stated};
ghost use Rattle.language_rules.specs.CellComparing.{ends_equality, equal_from, equal_item_rule, equal_lists, equality, item_raised, lists_compared, pair_compared, same_length};
ghost use Rattle.language_rules.specs.Comparing.{same_object};
ghost use Rattle.language_rules.specs.Going.{boolean};
ghost use Rattle.language_rules.specs.Kinds.{is_reference};
ghost use Rattle.language_rules.specs.Searching.{reads_list};
ghost use Rattle.language_rules.specs.States.{State};
ghost use Rattle.eval_searching.specs.Compared.{after_equal, at_length, by_length, is_index_error, item_of_other, told_end};

use crate::asking::{ask_found, ask_within_tuples, one_refers};
use crate::found::found_at_once;
use crate::lengths::{changed, following, number, told_length};
use eval_comparing::{Answer, equal_values};
use eval_exprs::told_truth;
use eval_frames::{EqualityFrame, Frame, ListPair, Next, operate_over, special, special_with};
use object_operations::{Completion, Special};
use py_store::{Cell, Store};
use rp_base::{Beyond, CmpOp, ExcKind, NoMemory, Plain, Raised, Value};
use std::alloc::Global;

/// A list is compared with another, own or not (Python Language Reference, "Comparisons"): lists have no order here.
pub fn compare_lists(
    alloc: Global,
    stack: &mut Vec<Frame>,
    list: u32,
    op: CmpOp,
    other: Value,
) -> Result<Next, NoMemory>
    ensures means { IfOk result (λ n. (s : State) → MeansIn s stack.new.items n (lists_compared list other op) stack.old.items) }
    ensures light { IfOk result (λ n. IsLight stack.new.items n stack.old.items) }
{
    match op {
        CmpOp::Eq => begin_equality(alloc, stack, list, CmpOp::Eq, other),
        CmpOp::Ne => begin_equality(alloc, stack, list, CmpOp::Ne, other),
        CmpOp::Lt => Ok(Next::Leave(Beyond::Order)),
        CmpOp::Le => Ok(Next::Leave(Beyond::Order)),
        CmpOp::Gt => Ok(Next::Leave(Beyond::Order)),
        CmpOp::Ge => Ok(Next::Leave(Beyond::Order)),
    }
}

/// The other is asked for its length first.
fn begin_equality(
    alloc: Global,
    stack: &mut Vec<Frame>,
    list: u32,
    op: CmpOp,
    other: Value,
) -> Result<Next, NoMemory>
    ensures means { IfOk result (λ n. Means stack.new.items n (equal_lists list other op) stack.old.items) }
    ensures light { IfOk result (λ n. IsLight stack.new.items n stack.old.items) }
{
    let operation = special(alloc, other.copy(alloc)?, Special::Len);
    let pair = ListPair { list, other, op };
    operate_over(
        stack,
        Frame::Equality(EqualityFrame::Length(pair)),
        operation,
    )
}

/// Goes on with a comparison of two lists.
pub fn give_equality(
    alloc: Global,
    stack: &mut Vec<Frame>,
    store: &Store,
    frame: EqualityFrame,
    completion: Completion,
) -> Result<Next, NoMemory>
    ensures means { IfOk result (λ n. (fixed : State) (texts : List Program) → MeansIn (stated fixed store.now.cells texts) stack.new.items n (through_equality frame completion) stack.old.items) }
    ensures light { IfOk result (λ n. IsLight stack.new.items n stack.old.items) }
{
    match frame {
        EqualityFrame::Length(pair) => give_length(alloc, stack, store, pair, completion),
        EqualityFrame::Item {
            pair,
            length,
            position,
        } => give_item(alloc, stack, store, pair, length, position, completion),
        EqualityFrame::Equal {
            pair,
            length,
            position,
        } => give_equal(alloc, stack, store, pair, length, position, completion),
        EqualityFrame::End {
            pair,
            length,
            equal,
        } => give_end(store, &pair, length, equal, completion),
    }
}

// ---- the length of the other

fn give_length(
    alloc: Global,
    stack: &mut Vec<Frame>,
    store: &Store,
    pair: ListPair,
    completion: Completion,
) -> Result<Next, NoMemory>
    ensures means { IfOk result (λ n. (fixed : State) (texts : List Program) → MeansIn (stated fixed store.now.cells texts) stack.new.items n (through_equality (equality_frame.Length pair) completion) stack.old.items) }
    ensures light { IfOk result (λ n. IsLight stack.new.items n stack.old.items) }
{
    match told_length(completion) {
        Ok(length) => compare_lengths(alloc, stack, store, pair, length),
        Err(next) => Ok(next),
    }
}

/// The items are compared where the lists are as long as each other.
fn compare_lengths(
    alloc: Global,
    stack: &mut Vec<Frame>,
    store: &Store,
    pair: ListPair,
    length: u128,
) -> Result<Next, NoMemory>
    ensures means { IfOk result (λ n. (fixed : State) (texts : List Program) → MeansIn (stated fixed store.now.cells texts) stack.new.items n (reads_list pair.list (λ items. by_length pair length items)) stack.old.items) }
    ensures light { IfOk result (λ n. IsLight stack.new.items n stack.old.items) }
{
    match store.get(pair.list) {
        Some(Cell::List(items)) => compare_counts(alloc, stack, pair, items.as_slice(), length),
        _ => Ok(Next::Leave(Beyond::NotYet)),
    }
}

fn compare_counts(
    alloc: Global,
    stack: &mut Vec<Frame>,
    pair: ListPair,
    items: &[Value],
    length: u128,
) -> Result<Next, NoMemory>
    ensures means { IfOk result (λ n. (s : State) → MeansIn s stack.new.items n (by_length pair length items.now) stack.old.items) }
    ensures light { IfOk result (λ n. IsLight stack.new.items n stack.old.items) }
{
    if items.len() as u128 == length {
        next_pair(alloc, stack, pair, items.len() as u64, 0)
    } else {
        Ok(tell(pair.op, false))
    }
}

/// What `==` or `!=` tells of lists that are equal, or not.
fn tell(op: CmpOp, equal: bool) -> Next
    ensures means { (stack : List Frame) → Means stack result (equality op equal) stack }
    ensures light { (stack : List Frame) → IsLight stack result stack }
{
    match op {
        CmpOp::Ne => give_bool(!equal),
        CmpOp::Eq => give_bool(equal),
        CmpOp::Lt => give_bool(equal),
        CmpOp::Le => give_bool(equal),
        CmpOp::Gt => give_bool(equal),
        CmpOp::Ge => give_bool(equal),
    }
}

fn give_bool(holds: bool) -> Next
    ensures means { (stack : List Frame) → Means stack result (gives (boolean holds)) stack }
    ensures light { (stack : List Frame) → IsLight stack result stack }
{
    Next::Give(Completion::Gives(Value::Plain(Plain::Bool(holds))))
}

// ---- item by item

/// The other is asked for its item at a position, or behind the last for its length once more.
fn next_pair(
    alloc: Global,
    stack: &mut Vec<Frame>,
    pair: ListPair,
    length: u64,
    position: u64,
) -> Result<Next, NoMemory>
    ensures means { IfOk result (λ n. (s : State) → MeansIn s stack.new.items n (equal_from pair.list pair.other pair.op length position) stack.old.items) }
    ensures light { IfOk result (λ n. IsLight stack.new.items n stack.old.items) }
{
    if position == length {
        ask_end(alloc, stack, pair, length, true)
    } else {
        ask_item(alloc, stack, pair, length, position)
    }
}

fn ask_item(
    alloc: Global,
    stack: &mut Vec<Frame>,
    pair: ListPair,
    length: u64,
    position: u64,
) -> Result<Next, NoMemory>
    ensures means { IfOk result (λ n. (s : State) → MeansIn s stack.new.items n (item_of_other pair length position) stack.old.items) }
    ensures light { IfOk result (λ n. IsLight stack.new.items n stack.old.items) }
{
    let other = pair.other.copy(alloc)?;
    let operation = special_with(alloc, other, Special::GetItem, number(position))?;
    let frame = EqualityFrame::Item {
        pair,
        length,
        position,
    };
    operate_over(stack, Frame::Equality(frame), operation)
}

/// At the end the other is asked for its length once more.
fn ask_end(
    alloc: Global,
    stack: &mut Vec<Frame>,
    pair: ListPair,
    length: u64,
    equal: bool,
) -> Result<Next, NoMemory>
    ensures means { IfOk result (λ n. Means stack.new.items n (ends_equality pair.list pair.other pair.op length equal) stack.old.items) }
    ensures light { IfOk result (λ n. IsLight stack.new.items n stack.old.items) }
{
    let operation = special(alloc, pair.other.copy(alloc)?, Special::Len);
    let frame = EqualityFrame::End {
        pair,
        length,
        equal,
    };
    operate_over(stack, Frame::Equality(frame), operation)
}

/// The other's item at a position. `Beyond(Changed)` where it has no such item any more.
fn give_item(
    alloc: Global,
    stack: &mut Vec<Frame>,
    store: &Store,
    pair: ListPair,
    length: u64,
    position: u64,
    completion: Completion,
) -> Result<Next, NoMemory>
    ensures means { IfOk result (λ n. (fixed : State) (texts : List Program) → MeansIn (stated fixed store.now.cells texts) stack.new.items n (equal_item_rule pair.list pair.other pair.op length position completion) stack.old.items) }
    ensures light { IfOk result (λ n. IsLight stack.new.items n stack.old.items) }
{
    match completion {
        Completion::Gives(value) => compare_item(
            alloc, stack, store, pair, length, position, value,
        ),
        Completion::Raises(raised) => Ok(end_raised(raised)),
        Completion::Returns(value) => Ok(Next::Give(Completion::Returns(value))),
        Completion::Breaks => Ok(Next::Give(Completion::Breaks)),
        Completion::Continues => Ok(Next::Give(Completion::Continues)),
        Completion::Drained(values) => Ok(Next::Give(Completion::Drained(values))),
    }
}

fn end_raised(raised: Raised) -> Next
    ensures means { (stack : List Frame) → Means stack result (item_raised raised raised.kind) stack }
    ensures light { (stack : List Frame) → IsLight stack result stack }
{
    if is_index_error(raised.kind) {
        Next::Leave(Beyond::Changed)
    } else {
        Next::Give(Completion::Raises(raised))
    }
}

fn is_index_error(kind: ExcKind) -> bool
    ensures { result ≡ is_index_error kind }
{
    matches!(kind, ExcKind::IndexError)
}

/// The own item at a position is compared with the other's.
fn compare_item(
    alloc: Global,
    stack: &mut Vec<Frame>,
    store: &Store,
    pair: ListPair,
    length: u64,
    position: u64,
    value: Value,
) -> Result<Next, NoMemory>
    ensures means { IfOk result (λ n. (fixed : State) (texts : List Program) → MeansIn (stated fixed store.now.cells texts) stack.new.items n (reads_list pair.list (λ items. at_length pair length position value items)) stack.old.items) }
    ensures light { IfOk result (λ n. IsLight stack.new.items n stack.old.items) }
{
    match store.get(pair.list) {
        Some(Cell::List(items)) => compare_within(
            alloc,
            stack,
            store,
            pair,
            items.as_slice(),
            length,
            position,
            value,
        ),
        _ => Ok(Next::Leave(Beyond::NotYet)),
    }
}

fn compare_within(
    alloc: Global,
    stack: &mut Vec<Frame>,
    store: &Store,
    pair: ListPair,
    items: &[Value],
    length: u64,
    position: u64,
    value: Value,
) -> Result<Next, NoMemory>
    ensures means { IfOk result (λ n. (fixed : State) (texts : List Program) → MeansIn (stated fixed store.now.cells texts) stack.new.items n (at_length pair length position value items.now) stack.old.items) }
    ensures light { IfOk result (λ n. IsLight stack.new.items n stack.old.items) }
{
    if items.len() as u64 == length {
        compare_at(alloc, stack, store, pair, items, length, position, value)
    } else {
        Ok(Next::Leave(Beyond::Changed))
    }
}

fn compare_at(
    alloc: Global,
    stack: &mut Vec<Frame>,
    store: &Store,
    pair: ListPair,
    items: &[Value],
    length: u64,
    position: u64,
    value: Value,
) -> Result<Next, NoMemory>
    ensures means { IfOk result (λ n. (fixed : State) (texts : List Program) → MeansIn (stated fixed store.now.cells texts) stack.new.items n (pair_compared pair.list pair.other pair.op length position value (slice_get items.now position)) stack.old.items) }
    ensures light { IfOk result (λ n. IsLight stack.new.items n stack.old.items) }
{
    match items.get(position as usize) {
        Some(item) => compare_pair(alloc, stack, store, pair, length, position, item, value),
        None => Ok(Next::Leave(Beyond::NotYet)),
    }
}

fn compare_pair(
    alloc: Global,
    stack: &mut Vec<Frame>,
    store: &Store,
    pair: ListPair,
    length: u64,
    position: u64,
    item: &Value,
    value: Value,
) -> Result<Next, NoMemory>
    ensures means { IfOk result (λ n. (fixed : State) (texts : List Program) → MeansIn (stated fixed store.now.cells texts) stack.new.items n (pair_compared pair.list pair.other pair.op length position value (Some item.now)) stack.old.items) }
    ensures light { IfOk result (λ n. IsLight stack.new.items n stack.old.items) }
{
    match found_at_once(alloc, item, &value)? {
        Some(equal) => go_on(alloc, stack, store, pair, length, position, equal),
        None => ask_pair(alloc, stack, pair, length, position, item, &value),
    }
}

/// Two items that are not one object are compared.
fn ask_pair(
    alloc: Global,
    stack: &mut Vec<Frame>,
    pair: ListPair,
    length: u64,
    position: u64,
    item: &Value,
    value: &Value,
) -> Result<Next, NoMemory>
    requires { same_object item.now value.now ≡ false }
    ensures means { IfOk result (λ n. (s : State) → MeansIn s stack.new.items n (pair_compared pair.list pair.other pair.op length position value.now (Some item.now)) stack.old.items) }
    ensures light { IfOk result (λ n. IsLight stack.new.items n stack.old.items) }
{
    if one_refers(item, value) {
        ask_referring(alloc, stack, pair, length, position, item, value)
    } else {
        ask_tuple(alloc, stack, pair, length, position, item, value)
    }
}

/// Tuples that were not told apart are not compared, or an object within them is asked.
fn ask_tuple(
    alloc: Global,
    stack: &mut Vec<Frame>,
    pair: ListPair,
    length: u64,
    position: u64,
    item: &Value,
    value: &Value,
) -> Result<Next, NoMemory>
    requires one { (is_reference item.now || is_reference value.now) ≡ false }
    requires apart { same_object item.now value.now ≡ false }
    ensures means { IfOk result (λ n. (s : State) → MeansIn s stack.new.items n (pair_compared pair.list pair.other pair.op length position value.now (Some item.now)) stack.old.items) }
    ensures light { IfOk result (λ n. IsLight stack.new.items n stack.old.items) }
{
    match equal_values(alloc, item, value)? {
        Answer::Told(_) => Err(NoMemory),
        Answer::Uneven => Ok(Next::Leave(Beyond::Compare)),
        Answer::Asked(question) => {
            let frame = EqualityFrame::Equal {
                pair,
                length,
                position,
            };
            ask_within_tuples(alloc, stack, Frame::Equality(frame), question)
        }
    }
}

fn ask_referring(
    alloc: Global,
    stack: &mut Vec<Frame>,
    pair: ListPair,
    length: u64,
    position: u64,
    item: &Value,
    value: &Value,
) -> Result<Next, NoMemory>
    requires one { (is_reference item.now || is_reference value.now) ≡ true }
    requires apart { same_object item.now value.now ≡ false }
    ensures means { IfOk result (λ n. (s : State) → MeansIn s stack.new.items n (pair_compared pair.list pair.other pair.op length position value.now (Some item.now)) stack.old.items) }
    ensures light { IfOk result (λ n. IsLight stack.new.items n stack.old.items) }
{
    let item = item.copy(alloc)?;
    let frame = EqualityFrame::Equal {
        pair,
        length,
        position,
    };
    ask_found(alloc, stack, Frame::Equality(frame), item, value)
}

/// Whether the items at a position are equal.
fn give_equal(
    alloc: Global,
    stack: &mut Vec<Frame>,
    store: &Store,
    pair: ListPair,
    length: u64,
    position: u64,
    completion: Completion,
) -> Result<Next, NoMemory>
    ensures means { IfOk result (λ n. (fixed : State) (texts : List Program) → MeansIn (stated fixed store.now.cells texts) stack.new.items n (through_equality (equality_frame.Equal pair length position) completion) stack.old.items) }
    ensures light { IfOk result (λ n. IsLight stack.new.items n stack.old.items) }
{
    match told_truth(completion) {
        Ok(equal) => go_on(alloc, stack, store, pair, length, position, equal),
        Err(next) => Ok(next),
    }
}

/// On to the next position, or to the end. `Beyond(Changed)` where the list is not as long as it was.
fn go_on(
    alloc: Global,
    stack: &mut Vec<Frame>,
    store: &Store,
    pair: ListPair,
    length: u64,
    position: u64,
    equal: bool,
) -> Result<Next, NoMemory>
    ensures means { IfOk result (λ n. (fixed : State) (texts : List Program) → MeansIn (stated fixed store.now.cells texts) stack.new.items n (same_length pair.list length (λ items. after_equal pair length position equal)) stack.old.items) }
    ensures light { IfOk result (λ n. IsLight stack.new.items n stack.old.items) }
{
    match changed(store, pair.list, length) {
        None => go_on_by(alloc, stack, pair, length, position, equal),
        Some(beyond) => Ok(Next::Leave(beyond)),
    }
}

/// No list has more items than the greatest `u64`.
fn go_on_by(
    alloc: Global,
    stack: &mut Vec<Frame>,
    pair: ListPair,
    length: u64,
    position: u64,
    equal: bool,
) -> Result<Next, NoMemory>
    ensures means { IfOk result (λ n. (s : State) → MeansIn s stack.new.items n (after_equal pair length position equal) stack.old.items) }
    ensures light { IfOk result (λ n. IsLight stack.new.items n stack.old.items) }
{
    if equal {
        let next = following(position)?;
        next_pair(alloc, stack, pair, length, next)
    } else {
        ask_end(alloc, stack, pair, length, false)
    }
}

/// The length of the other at the end. `Beyond(Changed)` where one of both is not as long as it was.
fn give_end(
    store: &Store,
    pair: &ListPair,
    length: u64,
    equal: bool,
    completion: Completion,
) -> Result<Next, NoMemory>
    ensures means { IfOk result (λ n. (fixed : State) (texts : List Program) (stack : List Frame) → MeansIn (stated fixed store.now.cells texts) stack n (through_equality (equality_frame.End pair.now length equal) completion) stack) }
    ensures light { IfOk result (λ n. (stack : List Frame) → IsLight stack n stack) }
{
    match told_length(completion) {
        Ok(told) => Ok(end_by(store, pair, length, equal, told)),
        Err(next) => Ok(next),
    }
}

fn end_by(store: &Store, pair: &ListPair, length: u64, equal: bool, told: u128) -> Next
    ensures means { (fixed : State) (texts : List Program) (stack : List Frame) → MeansIn (stated fixed store.now.cells texts) stack result (same_length pair.now.list length (λ items. told_end pair.now.op length equal told)) stack }
    ensures light { (stack : List Frame) → IsLight stack result stack }
{
    match changed(store, pair.list, length) {
        None => tell_end(pair.op, length, equal, told),
        Some(beyond) => Next::Leave(beyond),
    }
}

fn tell_end(op: CmpOp, length: u64, equal: bool, told: u128) -> Next
    ensures means { (stack : List Frame) → Means stack result (told_end op length equal told) stack }
    ensures light { (stack : List Frame) → IsLight stack result stack }
{
    if told == length as u128 {
        tell(op, equal)
    } else {
        Next::Leave(Beyond::Changed)
    }
}
