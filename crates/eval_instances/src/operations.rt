ghost use Rattle.std.specs.Prelude.{◌≡◌, [], ℕ, IfOk, List, true};
ghost use Rattle.py_store.specs.declared.cell.Cell.TheVariants as cell;
ghost use Rattle.eval_frames.specs.declared.frame.Frame.{Frame};
ghost use Rattle.eval_frames.specs.Meaning.{IsLight};
ghost use Rattle.language_rules.specs.Arithmetic.{calls_operator, less_instance, subtract_rule};
ghost use Rattle.language_rules.specs.Containing.{contains_rule, would_drain};
ghost use Rattle.language_rules.specs.Iterating.{iter_rule, would_index};
ghost use Rattle.language_rules.specs.Kinds.{on_kind};
ghost use Rattle.language_rules.specs.Lengths.{truth_rule};
ghost use Rattle.language_rules.specs.Operators.{unsupported};
ghost use Rattle.eval_instances.specs.Methods.{AtOnce, Within, less_if, less_items, true_by_length};

use crate::calling::{After, call};
use crate::methods::{call_or_refuse, class_method, has_method};
use eval_frames::{Frame, MethodFrame, Next};
use eval_ranges::{give_truth, kind_of_value, refuse};
use object_operations::Special;
use py_store::Store;
use rp_base::{Beyond, Kind, NoMemory, Value};
use std::alloc::Global;
use std::slice;

/// Whether an instance is true: by `__bool__`, or else by its length; without both it is.
pub(crate) fn truth_of(
    alloc: Global,
    stack: &mut Vec<Frame>,
    store: &Store,
    number: u32,
) -> Result<Next, NoMemory>
    ensures means { IfOk result (Within store.now.cells stack.new.items (truth_rule number (cell.Instance 0 [])) stack.old.items) }
    ensures light { IfOk result (λ next. IsLight stack.new.items next stack.old.items) }
{
    match class_method(store, number, "__bool__") {
        Some(callee) => {
            let after = After::Method(MethodFrame::Truth);
            call(alloc, stack, number, callee, &[], after)
        }
        None => truth_by_length(alloc, stack, store, number),
    }
}

fn truth_by_length(
    alloc: Global,
    stack: &mut Vec<Frame>,
    store: &Store,
    number: u32,
) -> Result<Next, NoMemory>
    ensures means { IfOk result (Within store.now.cells stack.new.items (true_by_length number) stack.old.items) }
    ensures light { IfOk result (λ next. IsLight stack.new.items next stack.old.items) }
{
    match class_method(store, number, "__len__") {
        Some(callee) => {
            let after = After::Method(MethodFrame::Filled);
            call(alloc, stack, number, callee, &[], after)
        }
        None => Ok(give_truth(true)),
    }
}

/// An iterator of an instance: by `__iter__`.
pub(crate) fn iterator_of(
    alloc: Global,
    stack: &mut Vec<Frame>,
    store: &Store,
    number: u32,
) -> Result<Next, NoMemory>
    ensures means { IfOk result (Within store.now.cells stack.new.items (iter_rule number (cell.Instance 0 [])) stack.old.items) }
    ensures light { IfOk result (λ next. IsLight stack.new.items next stack.old.items) }
{
    match class_method(store, number, "__iter__") {
        Some(callee) => {
            let after = After::Method(MethodFrame::Iterator);
            call(alloc, stack, number, callee, &[], after)
        }
        None => would_index(alloc, store, number),
    }
}

/// Python would go over an instance by its items.
fn would_index(alloc: Global, store: &Store, number: u32) -> Result<Next, NoMemory>
    ensures means { IfOk result (AtOnce store.now.cells (would_index number)) }
    ensures light { IfOk result (λ next. (stack : List Frame) → IsLight stack next stack) }
{
    if has_method(store, number, "__getitem__") {
        Ok(Next::Leave(Beyond::Drain))
    } else {
        refuse(alloc, "not iterable")
    }
}

/// Whether an instance has an item: by the truth of what `__contains__` gives.
pub(crate) fn contains(
    alloc: Global,
    stack: &mut Vec<Frame>,
    store: &Store,
    number: u32,
    x: &Value,
) -> Result<Next, NoMemory>
    ensures means { IfOk result (Within store.now.cells stack.new.items (contains_rule number x.now (cell.Instance 0 [])) stack.old.items) }
    ensures light { IfOk result (λ next. IsLight stack.new.items next stack.old.items) }
{
    match class_method(store, number, "__contains__") {
        Some(callee) => {
            let arguments = slice::from_ref(x);
            call(alloc, stack, number, callee, arguments, After::Truth)
        }
        None => would_drain(alloc, store, number),
    }
}

/// Python would go over an instance, where it can be.
fn would_drain(alloc: Global, store: &Store, number: u32) -> Result<Next, NoMemory>
    ensures means { IfOk result (AtOnce store.now.cells (would_drain number)) }
    ensures light { IfOk result (λ next. (stack : List Frame) → IsLight stack next stack) }
{
    if has_method(store, number, "__iter__") {
        Ok(Next::Leave(Beyond::Drain))
    } else {
        would_index(alloc, store, number)
    }
}

/// An operator on an instance and another value, by the method of its class.
pub(crate) fn operate_with(
    alloc: Global,
    stack: &mut Vec<Frame>,
    store: &Store,
    number: u32,
    special: Special,
    x: &Value,
) -> Result<Next, NoMemory>
    ensures means { IfOk result (Within store.now.cells stack.new.items (calls_operator number special x.now unsupported) stack.old.items) }
    ensures light { IfOk result (λ next. IsLight stack.new.items next stack.old.items) }
{
    let after = After::Method(MethodFrame::Operator);
    let arguments = slice::from_ref(x);
    call_or_refuse(
        alloc,
        stack,
        store,
        number,
        special.text(),
        arguments,
        after,
        "unsupported operand",
    )
}

/// A difference of an instance and another value.
pub(crate) fn subtract(
    alloc: Global,
    stack: &mut Vec<Frame>,
    store: &Store,
    number: u32,
    x: &Value,
) -> Result<Next, NoMemory>
    ensures means { IfOk result (Within store.now.cells stack.new.items (subtract_rule number x.now (cell.Instance 0 [])) stack.old.items) }
    ensures light { IfOk result (λ next. IsLight stack.new.items next stack.old.items) }
{
    match class_method(store, number, "__sub__") {
        Some(callee) => {
            let after = After::Method(MethodFrame::Operator);
            let arguments = slice::from_ref(x);
            call(alloc, stack, number, callee, arguments, after)
        }
        None => less(alloc, store, number, x),
    }
}

/// Without `__sub__` a difference with a view is left out where the instance may be gone over.
fn less(alloc: Global, store: &Store, number: u32, x: &Value) -> Result<Next, NoMemory>
    ensures means { IfOk result (AtOnce store.now.cells (on_kind x.now (less_instance number))) }
    ensures light { IfOk result (λ next. (stack : List Frame) → IsLight stack next stack) }
{
    less_kind(alloc, store, number, kind_of_value(store, x))
}

fn less_kind(
    alloc: Global,
    store: &Store,
    number: u32,
    kind: Option<Kind>,
) -> Result<Next, NoMemory>
    ensures means { IfOk result (AtOnce store.now.cells (less_instance number kind)) }
    ensures light { IfOk result (λ next. (stack : List Frame) → IsLight stack next stack) }
{
    if is_view(kind) {
        less_view(alloc, store, number)
    } else {
        refuse(alloc, "unsupported operand")
    }
}

fn less_view(alloc: Global, store: &Store, number: u32) -> Result<Next, NoMemory>
    ensures means { IfOk result (AtOnce store.now.cells (less_if number true)) }
    ensures light { IfOk result (λ next. (stack : List Frame) → IsLight stack next stack) }
{
    if has_method(store, number, "__iter__") {
        Ok(Next::Leave(Beyond::Operator))
    } else {
        less_by_items(alloc, store, number)
    }
}

fn less_by_items(alloc: Global, store: &Store, number: u32) -> Result<Next, NoMemory>
    ensures means { IfOk result (AtOnce store.now.cells (less_items number)) }
    ensures light { IfOk result (λ next. (stack : List Frame) → IsLight stack next stack) }
{
    if has_method(store, number, "__getitem__") {
        Ok(Next::Leave(Beyond::Operator))
    } else {
        refuse(alloc, "unsupported operand")
    }
}

fn is_view(kind: Option<Kind>) -> bool
    ensures { (number : ℕ) → less_instance number kind ≡ less_if number result }
{
    match kind {
        None => false,
        Some(Kind::List) => false,
        Some(Kind::Range) => false,
        Some(Kind::Function) => false,
        Some(Kind::Bound) => false,
        Some(Kind::Dict) => false,
        Some(Kind::Namespace) => false,
        Some(Kind::Iter) => false,
        Some(Kind::View) => true,
        Some(Kind::Class) => false,
        Some(Kind::Instance) => false,
        Some(Kind::Host) => false,
        Some(Kind::HostFunc) => false,
        Some(Kind::Root) => false,
        Some(Kind::Conn) => false,
        Some(Kind::Modules) => false,
    }
}
