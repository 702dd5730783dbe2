ghost use Rattle.std.specs.Prelude.{◌∷◌, [], ℕ, IfOk, List, length};
ghost use Rattle.rp_base.specs.declared.value.Value.{Value};
ghost use Rattle.py_ast.specs.declared.program.Program.{Program};
ghost use Rattle.py_store.specs.declared.cell.Cell.TheVariants as cell;
ghost use Rattle.py_store.specs.declared.cell.Which.{Which};
ghost use Rattle.eval_frames.specs.declared.frame.Frame.{Frame};
ghost use Rattle.eval_frames.specs.Meaning.{IsLight, Means, MeansIn};
ghost use Rattle.language_rules.specs.AtOnce.{stated};
ghost use Rattle.language_rules.specs.Containing.{gives_in_view};
ghost use Rattle.language_rules.specs.Going.{reads_cell};
ghost use Rattle.language_rules.specs.Iterating.{starts_view};
ghost use Rattle.language_rules.specs.Lengths.{gives_filled, gives_length};
ghost use Rattle.language_rules.specs.Perform.{special_of_cell};
ghost use Rattle.language_rules.specs.Searching.{reads_dict};
ghost use Rattle.language_rules.specs.States.{State};
ghost use Rattle.py_dicts.specs.DictCells.{IsDict};

use eval_frames::{Frame, Next, answered};
use eval_ranges::{give, give_truth, refuse};
use eval_searching::search_values;
use object_operations::Special;
use py_dicts::read_dict;
use py_store::{Cell, Store, Which};
use rp_base::{Beyond, NoMemory, Plain, Value};
use std::alloc::Global;
use std::slice;

/// The greatest length that `len` gives.
const LONGEST: u64 = 9_223_372_036_854_775_807;

/// A special operation on the view of this number, which shows this dict. `Leave(NotYet)` for a wrong number of
/// arguments.
pub fn special_of_view(
    alloc: Global,
    stack: &mut Vec<Frame>,
    store: &Store,
    number: u32,
    dict: u32,
    which: Which,
    special: Special,
    arguments: &[Value],
) -> Result<Next, NoMemory>
    ensures means { IfOk result (λ next. (fixed : State) (texts : List Program) → MeansIn (stated fixed store.now.cells texts) stack.new.items next (special_of_cell special number arguments.now (cell.View dict which)) stack.old.items) }
    ensures light { IfOk result (λ next. IsLight stack.new.items next stack.old.items) }
{
    match arguments {
        [] => view_alone(alloc, store, number, dict, which, special),
        [x] => view_with_one(alloc, stack, store, number, dict, which, special, x),
        [_, _] => view_with_two(alloc, special),
        _ => Ok(Next::Leave(Beyond::NotYet)),
    }
}

/// A special operation on a view without arguments.
fn view_alone(
    alloc: Global,
    store: &Store,
    number: u32,
    dict: u32,
    which: Which,
    special: Special,
) -> Result<Next, NoMemory>
    ensures means { IfOk result (λ next. (fixed : State) (texts : List Program) (stack : List Frame) → MeansIn (stated fixed store.now.cells texts) stack next (special_of_cell special number [] (cell.View dict which)) stack) }
    ensures light { IfOk result (λ next. (stack : List Frame) → IsLight stack next stack) }
{
    match special {
        Special::Len => Ok(length(store, dict)),
        Special::Bool => Ok(truth(store, dict)),
        Special::Iter => Ok(iterator(store, number, dict)),
        Special::Next => refuse(alloc, "not iterable"),
        Special::Neg => refuse(alloc, "unsupported operand"),
        _ => Ok(Next::Leave(Beyond::NotYet)),
    }
}

/// How many entries the dict has as it is now. `Leave(Int)` past 63 bits.
fn length(store: &Store, dict: u32) -> Next
    ensures means { (fixed : State) (texts : List Program) (stack : List Frame) → MeansIn (stated fixed store.now.cells texts) stack result (reads_dict dict (λ entries shape. gives_length (length entries))) stack }
    ensures light { (stack : List Frame) → IsLight stack result stack }
{
    match store.get(dict) {
        Some(Cell::Dict { entries, .. }) => length_of(entries.len()),
        _ => Next::Leave(Beyond::NotYet),
    }
}

fn length_of(length: usize) -> Next
    ensures means { (stack : List Frame) → Means stack result (gives_length length) stack }
    ensures light { (stack : List Frame) → IsLight stack result stack }
{
    if length as u64 > LONGEST {
        return Next::Leave(Beyond::Int);
    }
    give(Value::Plain(Plain::Int(length as i128)))
}

/// Whether the dict has an entry as it is now.
fn truth(store: &Store, dict: u32) -> Next
    ensures means { (fixed : State) (texts : List Program) (stack : List Frame) → MeansIn (stated fixed store.now.cells texts) stack result (reads_dict dict (λ entries shape. gives_filled (length entries))) stack }
    ensures light { (stack : List Frame) → IsLight stack result stack }
{
    match store.get(dict) {
        Some(Cell::Dict { entries, .. }) => give_truth(entries.len() > 0),
        _ => Next::Leave(Beyond::NotYet),
    }
}

/// A new iterator over the view, which keeps the shape of the dict.
fn iterator(store: &Store, number: u32, dict: u32) -> Next
    ensures means { (fixed : State) (texts : List Program) (stack : List Frame) → MeansIn (stated fixed store.now.cells texts) stack result (reads_cell dict (starts_view number)) stack }
    ensures light { (stack : List Frame) → IsLight stack result stack }
{
    match store.get(dict) {
        Some(Cell::Dict { shape, .. }) => Next::Make(Cell::Iter {
            source: Some(Value::Own(number)),
            at: 0,
            shape: *shape,
        }),
        _ => Next::Leave(Beyond::NotYet),
    }
}

/// A special operation on a view with one argument.
fn view_with_one(
    alloc: Global,
    stack: &mut Vec<Frame>,
    store: &Store,
    number: u32,
    dict: u32,
    which: Which,
    special: Special,
    x: &Value,
) -> Result<Next, NoMemory>
    ensures means { IfOk result (λ next. (fixed : State) (texts : List Program) → MeansIn (stated fixed store.now.cells texts) stack.new.items next (special_of_cell special number (x.now ∷ []) (cell.View dict which)) stack.old.items) }
    ensures light { IfOk result (λ next. IsLight stack.new.items next stack.old.items) }
{
    match special {
        Special::Contains => contains(alloc, stack, store, dict, which, x),
        Special::Sub => Ok(Next::Leave(Beyond::Operator)),
        Special::GetItem => refuse(alloc, "no items"),
        Special::DelItem => refuse(alloc, "no items"),
        Special::Add => refuse(alloc, "unsupported operand"),
        Special::Mul => refuse(alloc, "unsupported operand"),
        Special::FloorDiv => refuse(alloc, "unsupported operand"),
        Special::Mod => refuse(alloc, "unsupported operand"),
        Special::IAdd => refuse(alloc, "unsupported operand"),
        _ => Ok(Next::Leave(Beyond::NotYet)),
    }
}

/// Whether a value is among the keys or the values. `Leave(Compare)` where the view shows both.
fn contains(
    alloc: Global,
    stack: &mut Vec<Frame>,
    store: &Store,
    dict: u32,
    which: Which,
    x: &Value,
) -> Result<Next, NoMemory>
    ensures means { IfOk result (λ next. (fixed : State) (texts : List Program) → MeansIn (stated fixed store.now.cells texts) stack.new.items next (reads_cell dict (gives_in_view dict x.now which)) stack.old.items) }
    ensures light { IfOk result (λ next. IsLight stack.new.items next stack.old.items) }
{
    match store.get(dict) {
        Some(Cell::Dict { .. }) => contained(alloc, stack, store, dict, which, x),
        _ => Ok(Next::Leave(Beyond::NotYet)),
    }
}

fn contained(
    alloc: Global,
    stack: &mut Vec<Frame>,
    store: &Store,
    dict: u32,
    which: Which,
    x: &Value,
) -> Result<Next, NoMemory>
    requires { IsDict store.now.cells dict }
    ensures means { IfOk result (λ next. (fixed : State) (texts : List Program) → MeansIn (stated fixed store.now.cells texts) stack.new.items next (reads_cell dict (gives_in_view dict x.now which)) stack.old.items) }
    ensures light { IfOk result (λ next. IsLight stack.new.items next stack.old.items) }
{
    match which {
        Which::Keys => {
            answered(read_dict(alloc, store, dict, Special::Contains, slice::from_ref(x)))
        }
        Which::Values => search_values(alloc, stack, store, dict, x.copy(alloc)?),
        Which::Items => Ok(Next::Leave(Beyond::Compare)),
    }
}

/// A special operation on a view with two arguments: no item of it is set.
fn view_with_two(alloc: Global, special: Special) -> Result<Next, NoMemory>
    ensures means { IfOk result (λ next. (number dict : ℕ) (which : Which) (x y : Value) (stack : List Frame) → Means stack next (special_of_cell special number (x ∷ y ∷ []) (cell.View dict which)) stack) }
    ensures light { IfOk result (λ next. (stack : List Frame) → IsLight stack next stack) }
{
    match special {
        Special::SetItem => refuse(alloc, "no items"),
        _ => Ok(Next::Leave(Beyond::NotYet)),
    }
}
