ghost use Rattle.std.specs.Prelude.{◌≡◌, ◌==◌, ◌+◌, ◌*◌, ◌≤◌, ◌||◌, ◌∷◌, false, true, suc, IfOk, List, drop, length, if◌then◌else◌};
ghost use Rattle.rp_base.specs.declared.exceptions.Beyond.TheVariants as beyond;
ghost use Rattle.rp_base.specs.declared.value.Value.{Value};
ghost use Rattle.py_ast.specs.declared.program.Program.{Program};
ghost use Rattle.eval_frames.specs.Meaning.{IsLight, MeansIn, load};
ghost use Rattle.language_rules.specs.AtOnce.{stated};
ghost use Rattle.language_rules.specs.Containing.{gives_found};
ghost use Rattle.language_rules.specs.Kinds.{is_reference};
ghost use Rattle.language_rules.specs.Searching.{searches_values, values_behind, values_from, values_of, values_rule};
ghost use Rattle.language_rules.specs.States.{State};
ghost use Rattle.side_trees.specs.Trees.{Stop};
ghost use Rattle.eval_searching.specs.Values.{value_asked};

use crate::asking::{ask_found, ask_within_tuples, one_refers};
use crate::lists::Searched;
use crate::searching::{give_bool, give_position};
use crate::values::{search_values_behind, search_values_from};
use eval_comparing::{Answer, equal_values};
use eval_exprs::told_truth;
use eval_frames::{Frame, Next, SearchFrame};
use object_operations::Completion;
use py_store::{Cell, Entries, Store};
use rp_base::{Beyond, NoMemory, Plain, Value};
use std::alloc::Global;

/// Whether a value is among the values of a dict (Python Language Reference, "Membership test operations").
pub fn search_values(
    alloc: Global,
    stack: &mut Vec<Frame>,
    store: &Store,
    dict: u32,
    wanted: Value,
) -> Result<Next, NoMemory>
    ensures means { IfOk result (λ n. (fixed : State) (texts : List Program) → MeansIn (stated fixed store.now.cells texts) stack.new.items n (gives_found (searches_values dict wanted)) stack.old.items) }
    ensures light { IfOk result (λ n. IsLight stack.new.items n stack.old.items) }
{
    match store.get(dict) {
        Some(Cell::Dict { entries, shape }) => {
            begin_search(alloc, stack, dict, *shape, entries, wanted)
        }
        _ => Ok(Next::Leave(Beyond::NotYet)),
    }
}

fn begin_search(
    alloc: Global,
    stack: &mut Vec<Frame>,
    dict: u32,
    shape: u64,
    entries: &Entries,
    wanted: Value,
) -> Result<Next, NoMemory>
    ensures means { IfOk result (λ n. (s : State) → MeansIn s stack.new.items n (gives_found (values_from dict shape 0 wanted (values_of entries.now))) stack.old.items) }
    ensures light { IfOk result (λ n. IsLight stack.new.items n stack.old.items) }
{
    match search_values_from(alloc, entries, 0, &wanted)? {
        Searched::Nowhere => Ok(give_bool(false)),
        Searched::Found(_) => Ok(give_bool(true)),
        Searched::Asked(at) => ask_first(alloc, stack, dict, shape, entries, at, wanted),
    }
}

fn ask_first(
    alloc: Global,
    stack: &mut Vec<Frame>,
    dict: u32,
    shape: u64,
    entries: &Entries,
    at: usize,
    wanted: Value,
) -> Result<Next, NoMemory>
    ensures means { IfOk result (λ n. (s : State) → MeansIn s stack.new.items n (gives_found (value_asked dict shape at wanted (drop at (values_of entries.now)))) stack.old.items) }
    ensures light { IfOk result (λ n. IsLight stack.new.items n stack.old.items) }
{
    stack.push(Frame::Search(SearchFrame::Found))?;
    ask_value(alloc, stack, dict, shape, entries, at, wanted)
}

/// The value at a position is compared with the one that is searched.
fn ask_value(
    alloc: Global,
    stack: &mut Vec<Frame>,
    dict: u32,
    shape: u64,
    entries: &Entries,
    at: usize,
    wanted: Value,
) -> Result<Next, NoMemory>
    ensures means { IfOk result (λ n. (s : State) → MeansIn s stack.new.items n (value_asked dict shape at wanted (drop at (values_of entries.now))) stack.old.items) }
    ensures light { IfOk result (λ n. load stack.new.items n ≤ 3 * length stack.old.items + 9) }
{
    if at < entries.len() {
        ask_there(alloc, stack, dict, shape, at, wanted, entries.value_at(at))
    } else {
        Ok(Next::Leave(Beyond::NotYet))
    }
}

fn ask_there(
    alloc: Global,
    stack: &mut Vec<Frame>,
    dict: u32,
    shape: u64,
    at: usize,
    wanted: Value,
    value: &Value,
) -> Result<Next, NoMemory>
    ensures means { IfOk result (λ n. (s : State) (others : List Value) → MeansIn s stack.new.items n (value_asked dict shape at wanted (value.now ∷ others)) stack.old.items) }
    ensures light { IfOk result (λ n. load stack.new.items n ≤ 3 * length stack.old.items + 9) }
{
    if one_refers(&wanted, value) {
        ask_referring(alloc, stack, dict, shape, at, wanted, value)
    } else {
        ask_tuple(alloc, stack, dict, shape, at, wanted, value)
    }
}

/// Tuples that were not told apart are not compared, or an object within them is asked.
fn ask_tuple(
    alloc: Global,
    stack: &mut Vec<Frame>,
    dict: u32,
    shape: u64,
    at: usize,
    wanted: Value,
    value: &Value,
) -> Result<Next, NoMemory>
    requires { (is_reference wanted || is_reference value.now) ≡ false }
    ensures means { IfOk result (λ n. (s : State) (others : List Value) → MeansIn s stack.new.items n (value_asked dict shape at wanted (value.now ∷ others)) stack.old.items) }
    ensures light { IfOk result (λ n. load stack.new.items n ≤ 3 * length stack.old.items + 9) }
{
    match equal_values(alloc, &wanted, value)? {
        Answer::Told(_) => Err(NoMemory),
        Answer::Uneven => Ok(Next::Leave(Beyond::Compare)),
        Answer::Asked(question) => {
            let position = at as u64;
            let frame = SearchFrame::Values {
                dict,
                shape,
                position,
                wanted,
            };
            ask_within_tuples(alloc, stack, Frame::Search(frame), question)
        }
    }
}

fn ask_referring(
    alloc: Global,
    stack: &mut Vec<Frame>,
    dict: u32,
    shape: u64,
    at: usize,
    wanted: Value,
    value: &Value,
) -> Result<Next, NoMemory>
    requires { (is_reference wanted || is_reference value.now) ≡ true }
    ensures means { IfOk result (λ n. (s : State) (others : List Value) → MeansIn s stack.new.items n (value_asked dict shape at wanted (value.now ∷ others)) stack.old.items) }
    ensures light { IfOk result (λ n. load stack.new.items n ≤ 3 * length stack.old.items + 9) }
{
    let frame = SearchFrame::Values {
        dict,
        shape,
        position: at as u64,
        wanted: wanted.copy(alloc)?,
    };
    ask_found(alloc, stack, Frame::Search(frame), wanted, value)
}

/// Whether the value is found at a position: else those behind it are searched.
pub(crate) fn give_value(
    alloc: Global,
    stack: &mut Vec<Frame>,
    store: &Store,
    dict: u32,
    shape: u64,
    position: u64,
    wanted: Value,
    completion: Completion,
) -> Result<Next, NoMemory>
    ensures means { IfOk result (λ n. (fixed : State) (texts : List Program) → MeansIn (stated fixed store.now.cells texts) stack.new.items n (values_rule dict shape position wanted completion) stack.old.items) }
    ensures light { IfOk result (λ n. IsLight stack.new.items n stack.old.items) }
{
    match told_truth(completion) {
        Ok(true) => Ok(give_position(position)),
        Ok(false) => go_on_search(alloc, stack, store, dict, shape, position, wanted),
        Err(next) => Ok(next),
    }
}

/// The values behind a position, of the dict as it is now. `Beyond(Changed)` where keys came or went.
fn go_on_search(
    alloc: Global,
    stack: &mut Vec<Frame>,
    store: &Store,
    dict: u32,
    shape: u64,
    position: u64,
    wanted: Value,
) -> Result<Next, NoMemory>
    ensures means { IfOk result (λ n. (fixed : State) (texts : List Program) → MeansIn (stated fixed store.now.cells texts) stack.new.items n (values_behind dict shape position wanted) stack.old.items) }
    ensures light { IfOk result (λ n. IsLight stack.new.items n stack.old.items) }
{
    match store.get(dict) {
        Some(
            Cell::Dict {
                entries,
                shape: now,
            },
        ) => search_same(alloc, stack, dict, shape, *now, entries, position, wanted),
        _ => Ok(Next::Leave(Beyond::NotYet)),
    }
}

fn search_same(
    alloc: Global,
    stack: &mut Vec<Frame>,
    dict: u32,
    shape: u64,
    now: u64,
    entries: &Entries,
    position: u64,
    wanted: Value,
) -> Result<Next, NoMemory>
    ensures means { IfOk result (λ n. (s : State) → MeansIn s stack.new.items n (if now == shape then values_from dict shape (suc position) wanted (drop (suc position) (values_of entries.now)) else Stop beyond.Changed) stack.old.items) }
    ensures light { IfOk result (λ n. IsLight stack.new.items n stack.old.items) }
{
    if now == shape {
        search_on(alloc, stack, dict, shape, entries, position, wanted)
    } else {
        Ok(Next::Leave(Beyond::Changed))
    }
}

fn search_on(
    alloc: Global,
    stack: &mut Vec<Frame>,
    dict: u32,
    shape: u64,
    entries: &Entries,
    position: u64,
    wanted: Value,
) -> Result<Next, NoMemory>
    ensures means { IfOk result (λ n. (s : State) → MeansIn s stack.new.items n (values_from dict shape (suc position) wanted (drop (suc position) (values_of entries.now))) stack.old.items) }
    ensures light { IfOk result (λ n. IsLight stack.new.items n stack.old.items) }
{
    match search_values_behind(alloc, entries, position, &wanted)? {
        Searched::Nowhere => Ok(Next::Give(Completion::Gives(Value::Plain(Plain::None)))),
        Searched::Found(at) => Ok(give_position(at as u64)),
        Searched::Asked(at) => ask_value(alloc, stack, dict, shape, entries, at, wanted),
    }
}
