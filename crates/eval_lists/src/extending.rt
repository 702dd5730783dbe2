ghost use Rattle.std.specs.Prelude.{◌≡◌, ◌+◌, ◌++◌, IfOk, List, Some, OnOk, length, nat_lt, not};
ghost use Rattle.rp_base.specs.declared.value.Value.{Value};
ghost use Rattle.language_rules.specs.Draining.{most_items};
ghost use Rattle.rp_base.specs.declared.value.Value.TheVariants as value;
ghost use Rattle.py_ast.specs.declared.program.Program.{Program};
ghost use Rattle.py_store.specs.Cells.{cell_of};
ghost use Rattle.py_store.specs.declared.cell.Cell.TheVariants as cell;
ghost use Rattle.eval_frames.specs.declared.frame.Frame.{Frame};
ghost use Rattle.eval_frames.specs.Meaning.{IsLight, MeansOver};
ghost use Rattle.language_rules.specs.AtOnce.{stated};
ghost use Rattle.language_rules.specs.Answers.{gives};
ghost use Rattle.language_rules.specs.Arithmetic.{extends};
ghost use Rattle.language_rules.specs.States.{State, set_cell};
ghost use Rattle.py_lists.specs.Lists.{IsList};
ghost use Rattle.eval_lists.specs.Extending.{extended};

use crate::draining::extend_by_asking;
use builtin_functions::items_at_hand;
use eval_frames::{Frame, Next};
use eval_ranges::give;
use py_lists::MOST_ITEMS;
use py_store::{Cell, Store, Values};
use rp_base::{Beyond, NoMemory, Value};
use std::alloc::Global;

/// `list += more`: the list itself, with more items. `Leave(Size)` past the limit of a list.
pub(crate) fn extend(
    alloc: Global,
    stack: &mut Vec<Frame>,
    store: &mut Store,
    list: u32,
    more: &Value,
) -> Result<Next, NoMemory>
    requires { IsList store.old.cells list }
    ensures means { IfOk result (λ next. (fixed : State) (texts : List Program) → MeansOver (stated fixed store.old.cells texts) (stated fixed store.new.cells texts) stack.new.items next (extends list more.now (gives (value.Own list))) stack.old.items) }
    ensures light { IfOk result (λ next. IsLight stack.new.items next stack.old.items) }
{
    match items_at_hand(alloc, more)? {
        Some(items) => extend_at_once(store, list, items),
        None => extend_by_asking(alloc, stack, store, list, more),
    }
}

fn extend_at_once(store: &mut Store, list: u32, more: Values) -> Result<Next, NoMemory>
    requires { IsList store.old.cells list }
    ensures means { IfOk result (λ next. (fixed : State) (texts : List Program) (stack : List Frame) → MeansOver (stated fixed store.old.cells texts) (stated fixed store.new.cells texts) stack next (extended list more) stack) }
    ensures light { IfOk result (λ next. (stack : List Frame) → IsLight stack next stack) }
{
    if fits(store, list, more.len()) {
        put_behind(store, list, more)?;
        Ok(give(Value::Own(list)))
    } else {
        Ok(Next::Leave(Beyond::Size))
    }
}

/// Whether the list stays within its limit with so many items more.
fn fits(store: &Store, list: u32, more: usize) -> bool
    requires { IsList store.now.cells list }
    ensures { (items : List Value) → cell_of store.now.cells list ≡ Some (cell.List items) → result ≡ not (nat_lt most_items (length items + more)) }
{
    match store.get(list) {
        Some(Cell::List(items)) => items.len().saturating_add(more) <= MOST_ITEMS,
        _ => unreachable!(),
    }
}

/// The list gets these items behind its own.
fn put_behind(store: &mut Store, list: u32, more: Values) -> Result<(), NoMemory>
    requires { IsList store.old.cells list }
    ensures { OnOk result ((items : List Value) → cell_of store.old.cells list ≡ Some (cell.List items) → (fixed : State) (texts : List Program) → set_cell list (cell.List (items ++ more)) (stated fixed store.old.cells texts) ≡ stated fixed store.new.cells texts) }
{
    match store.replace(list, Cell::Root) {
        Cell::List(items) => {
            let all = joined(items, more)?;
            store.replace(list, Cell::List(all));
            Ok(())
        }
        _ => unreachable!(),
    }
}

fn joined(items: Values, more: Values) -> Result<Values, NoMemory>
    ensures { IfOk result (λ all. all ≡ items ++ more) }
{
    let mut all = items.into_vec();
    let mut tail = more.into_vec();
    all.append(&mut tail)?;
    Ok(Values::from_vec(all))
}
