ghost use Rattle.std.specs.Prelude.{◌≡◌, IfOk, List, Some, drop};
ghost use Rattle.rp_base.specs.declared.value.Value.{Value};
ghost use Rattle.py_ast.specs.declared.program.Program.{Program};
ghost use Rattle.py_store.specs.Cells.{cell_of};
ghost use Rattle.py_store.specs.declared.cell.Cell.TheVariants as cell;
ghost use Rattle.py_lists.specs.Lists.{IsList};
ghost use Rattle.eval_frames.specs.declared.frame.Frame.{Frame};
ghost use Rattle.eval_frames.specs.declared.list_frames.SearchFrame.TheVariants as search_frame;
ghost use Rattle.eval_frames.specs.ListFrames.{through_search};
ghost use Rattle.eval_frames.specs.Meaning.{IsLight, MeansIn, MeansOver};
ghost use Rattle.language_rules.specs.AtOnce.{stated};
ghost use Rattle.language_rules.specs.Searching.{searches_from, searches_list};
ghost use Rattle.language_rules.specs.States.{State};
ghost use Rattle.side_trees.specs.Trees.{bind};
ghost use Rattle.eval_searching.specs.Searched.{item_asked, left_of_search};

use crate::lists::{Searched, search_from};
use crate::places::{refuse_place, remove_at};
use crate::searching::{ask_item, give_position};
use eval_frames::{Frame, Next, SearchFrame};
use py_store::{Cell, Store};
use rp_base::{NoMemory, Value};
use std::alloc::Global;

/// `index` of a list: the first position at which the value is found (Python Library Reference, "Common Sequence
/// Operations"). A ValueError where it is in no item.
pub fn index_list(
    alloc: Global,
    stack: &mut Vec<Frame>,
    store: &Store,
    list: u32,
    wanted: Value,
) -> Result<Next, NoMemory>
    requires { IsList store.now.cells list }
    ensures means { IfOk result (λ n. (fixed : State) (texts : List Program) → MeansIn (stated fixed store.now.cells texts) stack.new.items n (bind (searches_list list wanted) (through_search search_frame.Index)) stack.old.items) }
    ensures light { IfOk result (λ n. IsLight stack.new.items n stack.old.items) }
{
    let searched = search_whole(alloc, store, list, &wanted)?;
    match searched {
        Searched::Nowhere => refuse_place(alloc),
        Searched::Found(at) => Ok(give_position(at as u64)),
        Searched::Asked(at) => {
            ask_over(alloc, stack, store, SearchFrame::Index, list, at, wanted)
        }
    }
}

/// `remove` of a list: the first item in which the value is found is taken out (Python Library Reference, "Mutable
/// Sequence Types"). A ValueError where it is in no item.
pub fn remove_from_list(
    alloc: Global,
    stack: &mut Vec<Frame>,
    store: &mut Store,
    list: u32,
    wanted: Value,
) -> Result<Next, NoMemory>
    requires { IsList store.old.cells list }
    ensures means { IfOk result (λ n. (fixed : State) (texts : List Program) → MeansOver (stated fixed store.old.cells texts) (stated fixed store.new.cells texts) stack.new.items n (bind (searches_list list wanted) (through_search (search_frame.Remove list))) stack.old.items) }
    ensures light { IfOk result (λ n. IsLight stack.new.items n stack.old.items) }
{
    let searched = search_whole(alloc, store, list, &wanted)?;
    match searched {
        Searched::Nowhere => refuse_place(alloc),
        Searched::Found(at) => Ok(remove_at(store, list, at as u128)),
        Searched::Asked(at) => ask_over(
            alloc,
            stack,
            store,
            SearchFrame::Remove { list },
            list,
            at,
            wanted,
        ),
    }
}

/// Searches the items of a list from the first on, as far as no object has to be asked.
fn search_whole(
    alloc: Global,
    store: &Store,
    list: u32,
    wanted: &Value,
) -> Result<Searched, NoMemory>
    requires { IsList store.now.cells list }
    ensures { IfOk result (λ r. (items : List Value) → cell_of store.now.cells list ≡ Some (cell.List items) → searches_from list 0 wanted.now items ≡ left_of_search list wanted.now items r) }
{
    match store.get(list) {
        Some(Cell::List(items)) => search_from(alloc, items.as_slice(), 0, wanted),
        _ => unreachable!(),
    }
}

/// The item at a position is compared, and what the search comes to goes to a frame.
fn ask_over(
    alloc: Global,
    stack: &mut Vec<Frame>,
    store: &Store,
    frame: SearchFrame,
    list: u32,
    at: usize,
    wanted: Value,
) -> Result<Next, NoMemory>
    requires { IsList store.now.cells list }
    ensures means { IfOk result (λ n. (items : List Value) → cell_of store.now.cells list ≡ Some (cell.List items) → (s : State) → MeansIn s stack.new.items n (bind (item_asked list at wanted (drop at items)) (through_search frame)) stack.old.items) }
    ensures light { IfOk result (λ n. IsLight stack.new.items n stack.old.items) }
{
    match store.get(list) {
        Some(Cell::List(items)) => {
            stack.push(Frame::Search(frame))?;
            ask_item(alloc, stack, list, items.as_slice(), at, wanted)
        }
        _ => unreachable!(),
    }
}
