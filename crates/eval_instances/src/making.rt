ghost use Rattle.std.specs.Prelude.{◌≡◌, ℕ, ◌+◌, ◌++◌, ◌∷◌, [], None, IfOk, OnOk, List, codes, length};
ghost use Rattle.py_ast.specs.declared.program.Program.{Program};
ghost use Rattle.eval_frames.specs.declared.frame.Frame.{Frame};
ghost use Rattle.eval_frames.specs.Meaning.{IsLight, Means, MeansOver};
ghost use Rattle.language_rules.specs.AtOnce.{stated};
ghost use Rattle.language_rules.specs.Attributes.{class_method};
ghost use Rattle.language_rules.specs.Calls.{initialises, makes_instance};
ghost use Rattle.language_rules.specs.Going.{looks};
ghost use Rattle.language_rules.specs.States.{State};
ghost use Rattle.eval_instances.specs.Methods.{Within, made_if};

use crate::calling::{After, call};
use crate::methods::class_method;
use eval_frames::{Frame, MethodFrame, Next};
use eval_ranges::{give, refuse};
use py_store::{Cell, Store};
use rp_base::{NoMemory, Value};
use sqlite_items::Items;
use std::alloc::Global;

/// The most cells that a side may have.
const MOST_CELLS: u32 = 4_000_000_000;

/// The class of this number is called: its new instance, after its `__init__` where it has one.
pub fn make_instance(
    alloc: Global,
    stack: &mut Vec<Frame>,
    store: &mut Store,
    class: u32,
    arguments: Items<Value>,
) -> Result<Next, NoMemory>
    ensures means { IfOk result (λ next. (fixed : State) (texts : List Program) → MeansOver (stated fixed store.old.cells texts) (stated fixed store.new.cells texts) stack.new.items next (makes_instance class arguments) stack.old.items) }
    ensures light { IfOk result (λ next. IsLight stack.new.items next stack.old.items) }
{
    let attributes = Items::new(alloc);
    let instance = make_cell(store, Cell::Instance { class, attributes })?;
    initialise(alloc, stack, store, instance, arguments.as_slice())
}

/// Adds a cell and gives its number. A side with 4,000,000,000 cells has no memory for another one.
fn make_cell(store: &mut Store, cell: Cell) -> Result<u32, NoMemory>
    ensures number { IfOk result (λ number. number ≡ length store.old.cells + 1) }
    ensures made { OnOk result (store.new ≡ record store.old { cells = store.old.cells ++ cell ∷ [] }) }
{
    if store.size() >= MOST_CELLS {
        return Err(NoMemory);
    }
    store.make(cell)
}

/// The new instance, after its `__init__` where it has one.
fn initialise(
    alloc: Global,
    stack: &mut Vec<Frame>,
    store: &Store,
    instance: u32,
    arguments: &[Value],
) -> Result<Next, NoMemory>
    ensures means { IfOk result (Within store.now.cells stack.new.items (looks (λ s. initialises instance arguments.now (class_method s instance (codes "__init__")))) stack.old.items) }
    ensures light { IfOk result (λ next. IsLight stack.new.items next stack.old.items) }
{
    match class_method(store, instance, "__init__") {
        Some(callee) => {
            let after = After::Method(MethodFrame::Initialised { instance });
            call(alloc, stack, instance, callee, arguments, after)
        }
        None => without_init(alloc, instance, arguments),
    }
}

/// A class without `__init__` takes no arguments.
fn without_init(alloc: Global, instance: u32, arguments: &[Value]) -> Result<Next, NoMemory>
    ensures means { IfOk result (λ next. (stack : List Frame) → Means stack next (initialises instance arguments.now None) stack) }
    ensures light { IfOk result (λ next. (stack : List Frame) → IsLight stack next stack) }
{
    if is_empty(arguments) {
        Ok(give(Value::Own(instance)))
    } else {
        refuse(alloc, "wrong number of arguments")
    }
}

fn is_empty(arguments: &[Value]) -> bool
    ensures { (instance : ℕ) → initialises instance arguments.now None ≡ made_if instance result }
{
    match arguments {
        [] => true,
        _ => false,
    }
}
