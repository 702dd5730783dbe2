ghost use Rattle.std.specs.Prelude.{IfOk, List};
ghost use Rattle.py_ast.specs.declared.program.Program.{Program};
ghost use Rattle.eval_frames.specs.declared.frame.Frame.{Frame};
ghost use Rattle.eval_frames.specs.Meaning.{IsLight, MeansIn, MeansOver};
ghost use Rattle.language_rules.specs.AtOnce.{stated};
ghost use Rattle.language_rules.specs.Going.{reads_cell};
ghost use Rattle.language_rules.specs.Perform.{gives_root, perform};
ghost use Rattle.language_rules.specs.States.{State, root_number};

use crate::attributes::{delete_attribute, get_attribute, set_attribute};
use crate::comparing::compare;
use crate::printing::{repr_of, str_of};
use crate::specials::special_operation;
use eval_frames::{Frame, Next};
use object_operations::{Completion, Operation};
use py_ast::Program;
use py_store::{Cell, Store};
use rp_base::{Beyond, NoMemory, Value};
use std::alloc::Global;

/// The number of a side's root.
const ROOT: u32 = 2;

/// An operation on an own object, or on what is none, behind its unit. Calls and texts belong elsewhere; the namespace
/// and what a connection has come with the connection.
pub fn perform(
    alloc: Global,
    stack: &mut Vec<Frame>,
    store: &mut Store,
    texts: &[Program],
    operation: Operation,
) -> Result<Next, NoMemory>
    ensures means { IfOk result (λ next. (fixed : State) → MeansOver (stated fixed store.old.cells texts.now) (stated fixed store.new.cells texts.now) stack.new.items next (perform operation) stack.old.items) }
    ensures light { IfOk result (λ next. IsLight stack.new.items next stack.old.items) }
{
    match &operation {
        Operation::GetRoot => Ok(get_root(store)),
        Operation::GetAttr { receiver, name } => {
            get_attribute(alloc, store, receiver, name.as_str())
        }
        Operation::SetAttr {
            receiver,
            name,
            value,
        } => set_attribute(alloc, store, receiver, name.as_str(), value),
        Operation::DelAttr { receiver, name } => {
            delete_attribute(alloc, store, receiver, name.as_str())
        }
        Operation::Call { .. } => Err(NoMemory),
        Operation::Special {
            receiver,
            special,
            arguments,
        } => special_operation(
            alloc,
            stack,
            store,
            receiver,
            *special,
            arguments.as_slice(),
        ),
        Operation::Cmp {
            receiver,
            op,
            other,
        } => compare(alloc, stack, store, receiver, *op, other),
        Operation::Str(receiver) => str_of(store, receiver),
        Operation::Repr(receiver) => repr_of(store, receiver),
    }
}

/// The root of a side, which is its second cell.
fn get_root(store: &Store) -> Next
    ensures means { (fixed : State) (texts : List Program) (stack : List Frame) → MeansIn (stated fixed store.now.cells texts) stack result (reads_cell root_number gives_root) stack }
    ensures light { (stack : List Frame) → IsLight stack result stack }
{
    match store.get(ROOT) {
        Some(Cell::Root) => Next::Give(Completion::Gives(Value::Own(ROOT))),
        _ => Next::Leave(Beyond::NotYet),
    }
}
