ghost use Rattle.std.specs.Prelude.{◌≡◌, ◌+◌, ◌*◌, ◌≤◌, ◌∷◌, ◌||◌, false, true, ℕ, suc, IfOk, List, drop, length};
ghost use Rattle.py_ast.specs.declared.program.Program.{Program};
ghost use Rattle.eval_frames.specs.declared.frame.Frame.{Frame};
ghost use Rattle.eval_frames.specs.ListFrames.{through_search};
ghost use Rattle.eval_frames.specs.Meaning.{IsLight, Means, MeansIn, MeansOver, load};
ghost use Rattle.language_rules.specs.AtOnce.{stated};
ghost use Rattle.language_rules.specs.Answers.{gives};
ghost use Rattle.language_rules.specs.Codes.{Completion};
ghost use Rattle.language_rules.specs.Containing.{gives_found, is_place};
ghost use Rattle.language_rules.specs.Going.{RuleTree, boolean, on_value};
ghost use Rattle.language_rules.specs.Kinds.{is_reference};
ghost use Rattle.language_rules.specs.Searching.{gives_position, reads_list, search_rule, searches_from, searches_list};
ghost use Rattle.language_rules.specs.States.{State};
ghost use Rattle.eval_searching.specs.Searched.{item_asked};

use crate::asking::{ask_found, ask_within_tuples, one_refers};
use crate::dicts::give_value;
use crate::lists::{Searched, search_behind, search_from};
use crate::places::{give_index, give_removed};
use eval_comparing::{Answer, equal_values};
use eval_exprs::told_truth;
use eval_frames::{Frame, Next, SearchFrame};
use object_operations::Completion;
use py_store::{Cell, Store};
use rp_base::{Beyond, NoMemory, Plain, Value};
use std::alloc::Global;

/// Whether a value is in a list (Python Language Reference, "Membership test operations").
pub fn search_list(
    alloc: Global,
    stack: &mut Vec<Frame>,
    store: &Store,
    list: u32,
    wanted: Value,
) -> Result<Next, NoMemory>
    ensures means { IfOk result (λ n. (fixed : State) (texts : List Program) → MeansIn (stated fixed store.now.cells texts) stack.new.items n (gives_found (searches_list list wanted)) stack.old.items) }
    ensures light { IfOk result (λ n. IsLight stack.new.items n stack.old.items) }
{
    match store.get(list) {
        Some(Cell::List(items)) => begin_search(alloc, stack, list, items.as_slice(), wanted),
        _ => Ok(Next::Leave(Beyond::NotYet)),
    }
}

fn begin_search(
    alloc: Global,
    stack: &mut Vec<Frame>,
    list: u32,
    items: &[Value],
    wanted: Value,
) -> Result<Next, NoMemory>
    ensures means { IfOk result (λ n. (s : State) → MeansIn s stack.new.items n (gives_found (searches_from list 0 wanted items.now)) stack.old.items) }
    ensures light { IfOk result (λ n. IsLight stack.new.items n stack.old.items) }
{
    match search_from(alloc, items, 0, &wanted)? {
        Searched::Nowhere => Ok(give_bool(false)),
        Searched::Found(_) => Ok(give_bool(true)),
        Searched::Asked(at) => ask_first(alloc, stack, list, items, at, wanted),
    }
}

/// The item at a position is compared, and what the search comes to tells whether the value is found.
fn ask_first(
    alloc: Global,
    stack: &mut Vec<Frame>,
    list: u32,
    items: &[Value],
    at: usize,
    wanted: Value,
) -> Result<Next, NoMemory>
    ensures means { IfOk result (λ n. (s : State) → MeansIn s stack.new.items n (gives_found (item_asked list at wanted (drop at items.now))) stack.old.items) }
    ensures light { IfOk result (λ n. IsLight stack.new.items n stack.old.items) }
{
    stack.push(Frame::Search(SearchFrame::Found))?;
    ask_item(alloc, stack, list, items, at, wanted)
}

pub(crate) fn give_bool(holds: bool) -> Next
    ensures means { (stack : List Frame) → Means stack result (gives (boolean holds)) stack }
    ensures light { (stack : List Frame) → IsLight stack result stack }
{
    Next::Give(Completion::Gives(Value::Plain(Plain::Bool(holds))))
}

/// The item of a list at a position is compared with the value.
pub(crate) fn ask_item(
    alloc: Global,
    stack: &mut Vec<Frame>,
    list: u32,
    items: &[Value],
    at: usize,
    wanted: Value,
) -> Result<Next, NoMemory>
    ensures means { IfOk result (λ n. (s : State) → MeansIn s stack.new.items n (item_asked list at wanted (drop at items.now)) stack.old.items) }
    ensures light { IfOk result (λ n. load stack.new.items n ≤ 3 * length stack.old.items + 9) }
{
    match items.get(at) {
        Some(item) => ask_there(alloc, stack, list, at, wanted, item),
        None => Ok(Next::Leave(Beyond::NotYet)),
    }
}

fn ask_there(
    alloc: Global,
    stack: &mut Vec<Frame>,
    list: u32,
    at: usize,
    wanted: Value,
    item: &Value,
) -> Result<Next, NoMemory>
    ensures means { IfOk result (λ n. (s : State) (others : List Value) → MeansIn s stack.new.items n (item_asked list at wanted (item.now ∷ others)) stack.old.items) }
    ensures light { IfOk result (λ n. load stack.new.items n ≤ 3 * length stack.old.items + 9) }
{
    if one_refers(&wanted, item) {
        ask_referring(alloc, stack, list, at, wanted, item)
    } else {
        ask_tuple(alloc, stack, list, at, wanted, item)
    }
}

/// Tuples that were not told apart are not compared, or an object within them is asked.
fn ask_tuple(
    alloc: Global,
    stack: &mut Vec<Frame>,
    list: u32,
    at: usize,
    wanted: Value,
    item: &Value,
) -> Result<Next, NoMemory>
    requires { (is_reference wanted || is_reference item.now) ≡ false }
    ensures means { IfOk result (λ n. (s : State) (others : List Value) → MeansIn s stack.new.items n (item_asked list at wanted (item.now ∷ others)) stack.old.items) }
    ensures light { IfOk result (λ n. load stack.new.items n ≤ 3 * length stack.old.items + 9) }
{
    match equal_values(alloc, &wanted, item)? {
        Answer::Told(_) => Err(NoMemory),
        Answer::Uneven => Ok(Next::Leave(Beyond::Compare)),
        Answer::Asked(question) => {
            let position = at as u64;
            let frame = SearchFrame::List {
                list,
                position,
                wanted,
            };
            ask_within_tuples(alloc, stack, Frame::Search(frame), question)
        }
    }
}

fn ask_referring(
    alloc: Global,
    stack: &mut Vec<Frame>,
    list: u32,
    at: usize,
    wanted: Value,
    item: &Value,
) -> Result<Next, NoMemory>
    requires { (is_reference wanted || is_reference item.now) ≡ true }
    ensures means { IfOk result (λ n. (s : State) (others : List Value) → MeansIn s stack.new.items n (item_asked list at wanted (item.now ∷ others)) stack.old.items) }
    ensures light { IfOk result (λ n. load stack.new.items n ≤ 3 * length stack.old.items + 9) }
{
    let frame = SearchFrame::List {
        list,
        position: at as u64,
        wanted: wanted.copy(alloc)?,
    };
    ask_found(alloc, stack, Frame::Search(frame), wanted, item)
}

/// Goes on with a search.
pub fn give_search(
    alloc: Global,
    stack: &mut Vec<Frame>,
    store: &mut Store,
    frame: SearchFrame,
    completion: Completion,
) -> Result<Next, NoMemory>
    ensures means { IfOk result (λ n. (fixed : State) (texts : List Program) → MeansOver (stated fixed store.old.cells texts) (stated fixed store.new.cells texts) stack.new.items n (through_search frame completion) stack.old.items) }
    ensures light { IfOk result (λ n. IsLight stack.new.items n stack.old.items) }
{
    match frame {
        SearchFrame::List {
            list,
            position,
            wanted,
        } => give_item(alloc, stack, store, list, position, wanted, completion),
        SearchFrame::Values {
            dict,
            shape,
            position,
            wanted,
        } => give_value(
            alloc, stack, store, dict, shape, position, wanted, completion,
        ),
        SearchFrame::Found => Ok(give_whether(completion)),
        SearchFrame::Index => give_index(alloc, completion),
        SearchFrame::Remove { list } => give_removed(alloc, store, list, completion),
    }
}

/// Whether there is a position.
fn give_whether(completion: Completion) -> Next
    ensures means { (stack : List Frame) → Means stack result (on_value (λ v. gives (boolean (is_place v))) completion) stack }
    ensures light { (stack : List Frame) → IsLight stack result stack }
{
    match completion {
        Completion::Gives(value) => give_bool(is_place(&value)),
        Completion::Raises(raised) => Next::Give(Completion::Raises(raised)),
        Completion::Returns(value) => Next::Give(Completion::Returns(value)),
        Completion::Breaks => Next::Give(Completion::Breaks),
        Completion::Continues => Next::Give(Completion::Continues),
        Completion::Drained(values) => Next::Give(Completion::Drained(values)),
    }
}

fn is_place(value: &Value) -> bool
    ensures { result ≡ is_place value.now }
{
    !matches!(value, Value::Plain(Plain::None))
}

/// Whether the value is found at a position: else the items behind it are searched.
fn give_item(
    alloc: Global,
    stack: &mut Vec<Frame>,
    store: &Store,
    list: u32,
    position: u64,
    wanted: Value,
    completion: Completion,
) -> Result<Next, NoMemory>
    ensures means { IfOk result (λ n. (fixed : State) (texts : List Program) → MeansIn (stated fixed store.now.cells texts) stack.new.items n (search_rule list position wanted completion) stack.old.items) }
    ensures light { IfOk result (λ n. IsLight stack.new.items n stack.old.items) }
{
    match told_truth(completion) {
        Ok(true) => Ok(give_position(position)),
        Ok(false) => go_on_search(alloc, stack, store, list, position, wanted),
        Err(next) => Ok(next),
    }
}

pub(crate) fn give_position(position: u64) -> Next
    ensures means { (stack : List Frame) → Means stack result (gives_position position) stack }
    ensures light { (stack : List Frame) → IsLight stack result stack }
{
    Next::Give(Completion::Gives(Value::Plain(Plain::Int(i128::from(position)))))
}

/// The items behind a position, of the list as it is now.
fn go_on_search(
    alloc: Global,
    stack: &mut Vec<Frame>,
    store: &Store,
    list: u32,
    position: u64,
    wanted: Value,
) -> Result<Next, NoMemory>
    ensures means { IfOk result (λ n. (fixed : State) (texts : List Program) → MeansIn (stated fixed store.now.cells texts) stack.new.items n (reads_list list (λ items. searches_from list (suc position) wanted (drop (suc position) items))) stack.old.items) }
    ensures light { IfOk result (λ n. IsLight stack.new.items n stack.old.items) }
{
    match store.get(list) {
        Some(Cell::List(items)) => {
            search_on(alloc, stack, list, items.as_slice(), position, wanted)
        }
        _ => Ok(Next::Leave(Beyond::NotYet)),
    }
}

fn search_on(
    alloc: Global,
    stack: &mut Vec<Frame>,
    list: u32,
    items: &[Value],
    position: u64,
    wanted: Value,
) -> Result<Next, NoMemory>
    ensures means { IfOk result (λ n. (s : State) → MeansIn s stack.new.items n (searches_from list (suc position) wanted (drop (suc position) items.now)) stack.old.items) }
    ensures light { IfOk result (λ n. IsLight stack.new.items n stack.old.items) }
{
    match search_behind(alloc, items, position, &wanted)? {
        Searched::Nowhere => Ok(Next::Give(Completion::Gives(Value::Plain(Plain::None)))),
        Searched::Found(at) => Ok(give_position(at as u64)),
        Searched::Asked(at) => ask_item(alloc, stack, list, items, at, wanted),
    }
}
