ghost use Rattle.std.specs.Prelude.{◌≡◌, IfOk, List, Some, is_some, option_copied, option_map};
ghost use Rattle.py_ast.specs.declared.program.Program.{Program};
ghost use Rattle.py_store.specs.Attributes.{attribute_value};
ghost use Rattle.py_store.specs.Cells.{cell_of};
ghost use Rattle.eval_frames.specs.Meaning.{IsLight};
ghost use Rattle.language_rules.specs.AtOnce.{stated};
ghost use Rattle.language_rules.specs.Attributes.{calls_method, class_method, class_of};
ghost use Rattle.language_rules.specs.Going.{type_error};
ghost use Rattle.language_rules.specs.States.{State};
ghost use Rattle.eval_instances.specs.Methods.{Within, goes_on};

use crate::calling::{After, call};
use eval_frames::{Frame, Next};
use eval_ranges::refuse;
use py_store::{Cell, Store};
use rp_base::{NoMemory, Value};
use std::alloc::Global;

/// The method of this special name that an instance has by its class or the base (Python Language Reference, "Special
/// method lookup").
pub(crate) fn class_method<'a>(store: &'a Store, number: u32, name: &str) -> Option<&'a Value>
    ensures { (fixed : State) (texts : List Program) → option_copied result ≡ class_method (stated fixed store.now.cells texts) number name.now }
{
    match class_of(store, number) {
        Some(class) => held_by(store, class, name),
        None => None,
    }
}

/// Whether an instance has a method of this special name.
pub(crate) fn has_method(store: &Store, number: u32, name: &str) -> bool
    ensures { (fixed : State) (texts : List Program) → result ≡ is_some (class_method (stated fixed store.now.cells texts) number name.now) }
{
    class_method(store, number, name).is_some()
}

/// What a class holds under a name, or its base.
fn held_by<'a>(store: &'a Store, class: u32, name: &str) -> Option<&'a Value>
    ensures { option_copied result ≡ option_map (λ p. p.1) (attribute_value store.now.cells class name.now) }
{
    match store.get_attr(class, name) {
        Some((_, value)) => Some(value),
        None => None,
    }
}

fn class_of(store: &Store, number: u32) -> Option<u32>
    ensures { result ≡ class_of (cell_of store.now.cells number) }
{
    match store.get(number) {
        Some(cell) => class_of_cell(cell),
        None => None,
    }
}

fn class_of_cell(cell: &Cell) -> Option<u32>
    ensures { result ≡ class_of (Some cell.now) }
{
    match cell {
        Cell::Instance { class, .. } => Some(*class),
        _ => None,
    }
}

/// The method of this special name is called; without it the operation is a `TypeError` with this text.
pub(crate) fn call_or_refuse(
    alloc: Global,
    stack: &mut Vec<Frame>,
    store: &Store,
    number: u32,
    name: &str,
    arguments: &[Value],
    after: After,
    refusal: &str,
) -> Result<Next, NoMemory>
    ensures means { IfOk result (Within store.now.cells stack.new.items (calls_method number name.now arguments.now (goes_on after) (type_error refusal.now)) stack.old.items) }
    ensures light { IfOk result (λ next. IsLight stack.new.items next stack.old.items) }
{
    match class_method(store, number, name) {
        Some(callee) => call(alloc, stack, number, callee, arguments, after),
        None => refuse(alloc, refusal),
    }
}
