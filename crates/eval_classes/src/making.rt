ghost use Rattle.std.specs.Prelude.{◌≡◌, ◌+◌, ◌++◌, ◌∷◌, [], IfOk, List, OnOk, length};
ghost use Rattle.eval_frames.specs.declared.frame.Frame.{Frame};
ghost use Rattle.eval_frames.specs.ClassFrames.{ends_class};
ghost use Rattle.eval_frames.specs.Meaning.{IsLight, MeansOver, classed};
ghost use Rattle.language_rules.specs.States.{State};

use eval_frames::Next;
use eval_targets::bind_value;
use object_operations::{Env, MadeClass};
use py_ast::Program;
use py_store::{Binding, Cell, Store};
use rp_base::{NoMemory, Text, Value};
use sqlite_items::Items;
use std::alloc::Global;

/// The most cells that a side may have.
const MOST_CELLS: u32 = 4_000_000_000;

/// The class with these attributes is made and kept with its text and name, and its name is bound.
pub(crate) fn end_class(
    alloc: Global,
    store: &mut Store,
    texts: &[Program],
    classes: &mut Items<MadeClass>,
    env: Env,
    name: Text,
    base: Option<u32>,
    attributes: Items<Binding>,
) -> Result<Next, NoMemory>
    ensures means { IfOk result (λ next. (fixed : State) (stack : List Frame) → MeansOver (classed fixed store.old.cells texts.now classes.old) (classed fixed store.new.cells texts.now classes.new) stack next (ends_class env name base attributes) stack) }
    ensures light { IfOk result (λ next. (stack : List Frame) → IsLight stack next stack) }
{
    let cell = Cell::Class {
        name: name.copy(alloc)?,
        base,
        attributes,
    };
    let number = make_cell(store, cell)?;
    remember(alloc, classes, env.text, &name, number)?;
    bind_value(alloc, store, texts, env, name, Value::Own(number))
}

/// Adds a cell and gives its number. A side with 4,000,000,000 cells has no memory for another one.
fn make_cell(store: &mut Store, cell: Cell) -> Result<u32, NoMemory>
    ensures number { IfOk result (λ number. number ≡ length store.old.cells + 1) }
    ensures made { OnOk result (store.new ≡ record store.old { cells = store.old.cells ++ cell ∷ [] }) }
{
    if store.size() >= MOST_CELLS {
        return Err(NoMemory);
    }
    store.make(cell)
}

/// The class that a class statement of this name in this text made is kept as the newest.
fn remember(
    alloc: Global,
    classes: &mut Items<MadeClass>,
    text: u32,
    name: &Text,
    number: u32,
) -> Result<(), NoMemory>
    ensures { OnOk result (classes.new ≡ classes.old ++ record { text = text; name = name.now; number = number } ∷ []) }
{
    let name = name.copy(alloc)?;
    classes.push(MadeClass { text, name, number })?;
    Ok(())
}
