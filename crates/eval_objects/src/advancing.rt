ghost use Rattle.std.specs.Prelude.{◌≡◌, IfOk, List, [], Some};
ghost use Rattle.rp_base.specs.declared.exceptions.ExcKind.TheVariants as exception;
ghost use Rattle.rp_base.specs.declared.value.Value.TheVariants as value;
ghost use Rattle.py_ast.specs.declared.program.Program.{Program};
ghost use Rattle.py_store.specs.Cells.{cell_of};
ghost use Rattle.py_store.specs.declared.cell.Cell.{Cell};
ghost use Rattle.object_operations.specs.declared.special.Special.TheVariants as special;
ghost use Rattle.eval_frames.specs.declared.frame.Frame.{Frame};
ghost use Rattle.eval_frames.specs.Meaning.{IsLight, Means, MeansOver};
ghost use Rattle.language_rules.specs.AtOnce.{stated};
ghost use Rattle.language_rules.specs.Going.{raises, reads_cell};
ghost use Rattle.language_rules.specs.Iterating.{next_rule};
ghost use Rattle.language_rules.specs.States.{State, set_cell};
ghost use Rattle.eval_objects.specs.Iterators.{ComesOn, IsIter, comes_up, ended, stepped};

use crate::sources::upcoming_of;
use crate::upcoming::Upcoming;
use eval_frames::Next;
use eval_ranges::give;
use object_operations::Completion;
use py_store::{Cell, Store};
use rp_base::{ExcKind, NoMemory, Raised};
use sqlite_items::Items;
use std::alloc::Global;

/// `__next__` of the iterator of this number: the next item, or the exception StopIteration.
pub(crate) fn next_of_iterator(
    alloc: Global,
    store: &mut Store,
    number: u32,
) -> Result<Next, NoMemory>
    requires { IsIter store.old.cells number }
    ensures means { IfOk result (λ next. (fixed : State) (texts : List Program) (stack : List Frame) → MeansOver (stated fixed store.old.cells texts) (stated fixed store.new.cells texts) stack next (reads_cell number (next_rule number)) stack) }
    ensures light { IfOk result (λ next. (stack : List Frame) → IsLight stack next stack) }
{
    let upcoming = upcoming(alloc, store, number)?;
    settle(alloc, store, number, upcoming)
}

/// What the iterator of this number comes to.
fn upcoming(alloc: Global, store: &Store, number: u32) -> Result<Upcoming, NoMemory>
    requires { IsIter store.now.cells number }
    ensures { IfOk result (λ u. ComesOn store.now.cells number u) }
{
    match store.get(number) {
        Some(Cell::Iter { source, at, shape }) => match source {
            Some(source) => upcoming_of(alloc, store, source, *at, *shape),
            None => Ok(Upcoming::Over),
        },
        _ => unreachable!(),
    }
}

/// The iterator goes on, or comes to its end.
fn settle(
    alloc: Global,
    store: &mut Store,
    number: u32,
    upcoming: Upcoming,
) -> Result<Next, NoMemory>
    requires { IsIter store.old.cells number }
    ensures means { IfOk result (λ next. (fixed : State) (texts : List Program) (stack : List Frame) → MeansOver (stated fixed store.old.cells texts) (stated fixed store.new.cells texts) stack next (reads_cell number (comes_up number upcoming)) stack) }
    ensures light { IfOk result (λ next. (stack : List Frame) → IsLight stack next stack) }
{
    match upcoming {
        Upcoming::Item(value) => {
            step(store, number);
            Ok(give(value))
        }
        Upcoming::End => {
            end(store, number);
            Ok(stop_iteration(alloc))
        }
        Upcoming::Over => Ok(stop_iteration(alloc)),
        Upcoming::Left(beyond) => Ok(Next::Leave(beyond)),
    }
}

fn stop_iteration(alloc: Global) -> Next
    ensures means { (stack : List Frame) → Means stack result (raises exception.StopIteration []) stack }
    ensures light { (stack : List Frame) → IsLight stack result stack }
{
    Next::Give(Completion::Raises(Raised {
        kind: ExcKind::StopIteration,
        args: Items::new(alloc),
    }))
}

/// The iterator stands behind one more item.
fn step(store: &mut Store, number: u32)
    requires { IsIter store.old.cells number }
    ensures { (c : Cell) → cell_of store.old.cells number ≡ Some c → (fixed : State) (texts : List Program) → set_cell number (stepped c) (stated fixed store.old.cells texts) ≡ stated fixed store.new.cells texts }
{
    match store.replace(number, Cell::Root) {
        Cell::Iter { source, at, shape } => {
            store.replace(
                number,
                Cell::Iter {
                    source,
                    at: at.saturating_add(1),
                    shape,
                },
            );
        }
        _ => unreachable!(),
    }
}

/// The iterator drops its source.
fn end(store: &mut Store, number: u32)
    requires { IsIter store.old.cells number }
    ensures { (c : Cell) → cell_of store.old.cells number ≡ Some c → (fixed : State) (texts : List Program) → set_cell number (ended c) (stated fixed store.old.cells texts) ≡ stated fixed store.new.cells texts }
{
    match store.replace(number, Cell::Root) {
        Cell::Iter { at, shape, .. } => {
            store.replace(
                number,
                Cell::Iter {
                    source: None,
                    at,
                    shape,
                },
            );
        }
        _ => unreachable!(),
    }
}
