ghost use Rattle.std.specs.Prelude.{◌≡◌, ℕ, IfOk, List, remove};
ghost use Rattle.rp_base.specs.declared.plain.Plain.TheVariants as plain;
ghost use Rattle.rp_base.specs.declared.value.Value.TheVariants as value;
ghost use Rattle.py_ast.specs.declared.program.Program.{Program};
ghost use Rattle.py_lists.specs.Lists.{IsList};
ghost use Rattle.eval_frames.specs.declared.frame.Frame.{Frame};
ghost use Rattle.eval_frames.specs.declared.list_frames.SearchFrame.TheVariants as search_frame;
ghost use Rattle.eval_frames.specs.ListFrames.{through_search};
ghost use Rattle.eval_frames.specs.Meaning.{IsLight, Means, MeansOver};
ghost use Rattle.language_rules.specs.AtOnce.{stated};
ghost use Rattle.language_rules.specs.Codes.{Gives};
ghost use Rattle.language_rules.specs.Going.{RuleTree};
ghost use Rattle.language_rules.specs.ListMethods.{becomes, not_in_list, on_place};
ghost use Rattle.language_rules.specs.Searching.{gives_position, reads_list};
ghost use Rattle.language_rules.specs.States.{State};
ghost use Rattle.eval_searching.specs.Places.{IsLightUnlessPlaced, IsPlaceTold, placed};

use eval_frames::{Next, fail};
use object_operations::Completion;
use py_lists::{put_list, take_list};
use py_store::{Cell, Store, Values};
use rp_base::{Beyond, ExcKind, NoMemory, Plain, Value};
use std::alloc::Global;

/// The position that a search came to is the value; without one it is a ValueError (Python Library Reference, "Common
/// Sequence Operations").
pub(crate) fn give_index(alloc: Global, completion: Completion) -> Result<Next, NoMemory>
    ensures means { IfOk result (λ n. (stack : List Frame) → Means stack n (through_search search_frame.Index completion) stack) }
    ensures light { IfOk result (λ n. (stack : List Frame) → IsLight stack n stack) }
{
    match completion {
        Completion::Gives(value) => index_of(alloc, value),
        Completion::Raises(raised) => Ok(Next::Give(Completion::Raises(raised))),
        Completion::Returns(value) => Ok(Next::Give(Completion::Returns(value))),
        Completion::Breaks => Ok(Next::Give(Completion::Breaks)),
        Completion::Continues => Ok(Next::Give(Completion::Continues)),
        Completion::Drained(values) => Ok(Next::Give(Completion::Drained(values))),
    }
}

fn index_of(alloc: Global, value: Value) -> Result<Next, NoMemory>
    ensures means { IfOk result (λ n. (stack : List Frame) → Means stack n (on_place gives_position value) stack) }
    ensures light { IfOk result (λ n. (stack : List Frame) → IsLight stack n stack) }
{
    match value {
        Value::Plain(Plain::Int(number)) => index_at(alloc, number),
        _ => refuse_place(alloc),
    }
}

fn index_at(alloc: Global, number: i128) -> Result<Next, NoMemory>
    ensures means { IfOk result (λ n. (stack : List Frame) → Means stack n (on_place gives_position (value.Plain (plain.Int number))) stack) }
    ensures light { IfOk result (λ n. (stack : List Frame) → IsLight stack n stack) }
{
    if number < 0 {
        refuse_place(alloc)
    } else {
        Ok(Next::Give(Completion::Gives(Value::Plain(Plain::Int(number)))))
    }
}

/// Nothing was found.
pub(crate) fn refuse_place(alloc: Global) -> Result<Next, NoMemory>
    ensures means { IfOk result (λ n. (stack : List Frame) → Means stack n not_in_list stack) }
    ensures light { IfOk result (λ n. (stack : List Frame) → IsLight stack n stack) }
{
    fail(alloc, ExcKind::ValueError, "not in list")
}

/// The item at the position that a search came to is taken out of the list, as it is then.
pub(crate) fn give_removed(
    alloc: Global,
    store: &mut Store,
    list: u32,
    completion: Completion,
) -> Result<Next, NoMemory>
    ensures means { IfOk result (λ n. (fixed : State) (texts : List Program) (stack : List Frame) → MeansOver (stated fixed store.old.cells texts) (stated fixed store.new.cells texts) stack n (through_search (search_frame.Remove list) completion) stack) }
    ensures light { IfOk result (λ n. (stack : List Frame) → IsLight stack n stack) }
{
    match told_place(completion) {
        Ok(place) => remove_place(alloc, store, list, place),
        Err(next) => Ok(next),
    }
}

/// The position that a search came to, or none; else what comes next.
fn told_place(completion: Completion) -> Result<Option<u128>, Next>
    ensures told { IsPlaceTold completion result }
    ensures light { IsLightUnlessPlaced result }
{
    match completion {
        Completion::Gives(value) => Ok(place_of(&value)),
        Completion::Raises(raised) => Err(Next::Give(Completion::Raises(raised))),
        Completion::Returns(value) => Err(Next::Give(Completion::Returns(value))),
        Completion::Breaks => Err(Next::Give(Completion::Breaks)),
        Completion::Continues => Err(Next::Give(Completion::Continues)),
        Completion::Drained(values) => Err(Next::Give(Completion::Drained(values))),
    }
}

fn place_of(value: &Value) -> Option<u128>
    ensures { (f : ℕ → RuleTree) → on_place f value.now ≡ placed f result }
{
    match value {
        Value::Plain(Plain::Int(number)) => place_at(*number),
        _ => None,
    }
}

fn place_at(number: i128) -> Option<u128>
    ensures { (f : ℕ → RuleTree) → on_place f (value.Plain (plain.Int number)) ≡ placed f result }
{
    if number < 0 {
        None
    } else {
        Some(number.unsigned_abs())
    }
}

fn remove_place(
    alloc: Global,
    store: &mut Store,
    list: u32,
    place: Option<u128>,
) -> Result<Next, NoMemory>
    ensures means { IfOk result (λ n. (fixed : State) (texts : List Program) (stack : List Frame) → MeansOver (stated fixed store.old.cells texts) (stated fixed store.new.cells texts) stack n (placed (λ k. reads_list list (λ items. becomes list (remove items k))) place) stack) }
    ensures light { IfOk result (λ n. (stack : List Frame) → IsLight stack n stack) }
{
    match place {
        Some(place) => Ok(remove_at(store, list, place)),
        None => refuse_place(alloc),
    }
}

/// The item at a position is taken out of the list. `Leave(NotYet)` where the cell is no list.
pub(crate) fn remove_at(store: &mut Store, list: u32, place: u128) -> Next
    ensures means { (fixed : State) (texts : List Program) (stack : List Frame) → MeansOver (stated fixed store.old.cells texts) (stated fixed store.new.cells texts) stack result (reads_list list (λ items. becomes list (remove items place))) stack }
    ensures light { (stack : List Frame) → IsLight stack result stack }
{
    match store.get(list) {
        Some(Cell::List(_)) => take_out(store, list, place),
        _ => Next::Leave(Beyond::NotYet),
    }
}

fn take_out(store: &mut Store, list: u32, place: u128) -> Next
    requires { IsList store.old.cells list }
    ensures means { (fixed : State) (texts : List Program) (stack : List Frame) → MeansOver (stated fixed store.old.cells texts) (stated fixed store.new.cells texts) stack result (reads_list list (λ items. becomes list (remove items place))) stack }
    ensures light { (stack : List Frame) → IsLight stack result stack }
{
    let mut items = take_list(store, list);
    drop_at(&mut items, place);
    put_list(store, list, items);
    Next::Give(Completion::Gives(Value::Plain(Plain::None)))
}

/// The items without the one at a position, where there is one.
fn drop_at(items: &mut Values, place: u128)
    ensures { items.new ≡ remove items.old place }
{
    if place < items.len() as u128 {
        items.remove(place as usize);
    }
}
