ghost use Rattle.std.specs.Prelude.{IfOk, List, Some};
ghost use Rattle.rp_base.specs.declared.value.Value.TheVariants as value;
ghost use Rattle.py_ast.specs.declared.program.Program.{Program};
ghost use Rattle.eval_frames.specs.Meaning.{IsLight, MeansIn, MeansOver};
ghost use Rattle.language_rules.specs.AtOnce.{stated};
ghost use Rattle.language_rules.specs.Calls.{method_of_cell, method_rule};
ghost use Rattle.language_rules.specs.Going.{reads_cell};
ghost use Rattle.language_rules.specs.States.{State};
ghost use Rattle.eval_methods.specs.Receivers.{IsReceiver, IsReceiverCell};

use crate::dicts::method_of_dict;
use crate::lists::method_of_list;
use crate::texts::method_of_text;
use eval_frames::{Frame, Next};
use object_operations::BuiltinMethod;
use py_store::{Cell, Store};
use rp_base::{Beyond, NoMemory, Plain, Value};
use std::alloc::Global;

/// What has methods of a builtin kind.
#[derive(Clone, Copy, Debug, PartialEq, Eq)]
enum Receiver {
    List,
    Dict,
    /// The namespace or the root, whose methods come with the pair.
    Shared,
    /// No other cell has any.
    Other,
}

/// A method of a list, a dict or a text is called, behind the unit of its call. Those of the namespace and of the root are
/// not built yet: they come with the pair.
pub fn call_method(
    alloc: Global,
    stack: &mut Vec<Frame>,
    store: &mut Store,
    receiver: &Value,
    method: BuiltinMethod,
    arguments: &[Value],
) -> Result<Next, NoMemory>
    ensures means { IfOk result (λ next. (fixed : State) (texts : List Program) → MeansOver (stated fixed store.old.cells texts) (stated fixed store.new.cells texts) stack.new.items next (method_rule receiver.now method arguments.now) stack.old.items) }
    ensures light { IfOk result (λ next. IsLight stack.new.items next stack.old.items) }
{
    match receiver {
        Value::Own(number) => method_of_own(alloc, stack, store, *number, method, arguments),
        Value::Plain(plain) => method_of_plain(alloc, stack, store, plain, method, arguments),
        Value::Tuple(_) => Ok(Next::Leave(Beyond::NotYet)),
        Value::Proxy(_) => Ok(Next::Leave(Beyond::NotYet)),
    }
}

/// A method of the cell of this number, by its kind.
fn method_of_own(
    alloc: Global,
    stack: &mut Vec<Frame>,
    store: &mut Store,
    number: u32,
    method: BuiltinMethod,
    arguments: &[Value],
) -> Result<Next, NoMemory>
    ensures means { IfOk result (λ next. (fixed : State) (texts : List Program) → MeansOver (stated fixed store.old.cells texts) (stated fixed store.new.cells texts) stack.new.items next (reads_cell number (method_of_cell number method arguments.now)) stack.old.items) }
    ensures light { IfOk result (λ next. IsLight stack.new.items next stack.old.items) }
{
    match receiver_of(store, number) {
        Receiver::List => method_of_list(alloc, stack, store, number, method, arguments),
        Receiver::Dict => method_of_dict(alloc, store, number, method, arguments),
        Receiver::Shared => Err(NoMemory),
        Receiver::Other => Ok(Next::Leave(Beyond::NotYet)),
    }
}

/// What the cell of this number is, as far as methods go.
fn receiver_of(store: &Store, number: u32) -> Receiver
    ensures { IsReceiver store.now.cells number result }
{
    match store.get(number) {
        Some(cell) => receiver_of_cell(cell),
        None => Receiver::Other,
    }
}

fn receiver_of_cell(cell: &Cell) -> Receiver
    ensures { IsReceiverCell (Some cell.now) result }
{
    match cell {
        Cell::List(_) => Receiver::List,
        Cell::Dict { .. } => Receiver::Dict,
        Cell::Namespace { .. } => Receiver::Shared,
        Cell::Root => Receiver::Shared,
        Cell::Scope { .. } => Receiver::Other,
        Cell::Function { .. } => Receiver::Other,
        Cell::Class { .. } => Receiver::Other,
        Cell::Instance { .. } => Receiver::Other,
        Cell::Bound { .. } => Receiver::Other,
        Cell::Iter { .. } => Receiver::Other,
        Cell::View { .. } => Receiver::Other,
        Cell::Range { .. } => Receiver::Other,
        Cell::Host(_) => Receiver::Other,
        Cell::HostFunc { .. } => Receiver::Other,
        Cell::Conn { .. } => Receiver::Other,
        Cell::Modules { .. } => Receiver::Other,
    }
}

/// A method of a plain value: only a text has any.
fn method_of_plain(
    alloc: Global,
    stack: &mut Vec<Frame>,
    store: &Store,
    receiver: &Plain,
    method: BuiltinMethod,
    arguments: &[Value],
) -> Result<Next, NoMemory>
    ensures means { IfOk result (λ next. (fixed : State) (texts : List Program) → MeansIn (stated fixed store.now.cells texts) stack.new.items next (method_rule (value.Plain receiver.now) method arguments.now) stack.old.items) }
    ensures light { IfOk result (λ next. IsLight stack.new.items next stack.old.items) }
{
    match receiver {
        Plain::Text(text) => {
            method_of_text(alloc, stack, store, text.as_str(), method, arguments)
        }
        Plain::None => Ok(Next::Leave(Beyond::NotYet)),
        Plain::Bool(_) => Ok(Next::Leave(Beyond::NotYet)),
        Plain::Int(_) => Ok(Next::Leave(Beyond::NotYet)),
        Plain::Bytes(_) => Ok(Next::Leave(Beyond::NotYet)),
        Plain::NotImpl => Ok(Next::Leave(Beyond::NotYet)),
        Plain::Ellipsis => Ok(Next::Leave(Beyond::NotYet)),
        Plain::Tuple(_) => Ok(Next::Leave(Beyond::NotYet)),
    }
}
