ghost use Rattle.std.specs.Prelude.{◌∷◌, [], ℕ, IfOk, List};
ghost use Rattle.rp_base.specs.declared.value.Value.{Value};
ghost use Rattle.py_store.specs.declared.cell.Binding.{Binding};
ghost use Rattle.py_store.specs.declared.cell.Cell.TheVariants as cell;
ghost use Rattle.eval_frames.specs.Meaning.{IsLight};
ghost use Rattle.language_rules.specs.Items.{set_item_rule};
ghost use Rattle.language_rules.specs.Perform.{special_of_cell};
ghost use Rattle.eval_instances.specs.Methods.{Within};

use crate::calling::After;
use crate::methods::call_or_refuse;
use crate::operations::{contains, iterator_of, operate_with, subtract, truth_of};
use eval_frames::{Frame, MethodFrame, Next};
use eval_ranges::refuse;
use object_operations::Special;
use py_store::Store;
use rp_base::{Beyond, NoMemory, Value};
use std::alloc::Global;
use std::slice;

/// A special operation on the instance of this number, whatever its class and its own attributes. `Leave(NotYet)` for a
/// wrong number of arguments.
pub fn special_of_instance(
    alloc: Global,
    stack: &mut Vec<Frame>,
    store: &Store,
    number: u32,
    special: Special,
    arguments: &[Value],
) -> Result<Next, NoMemory>
    ensures means { IfOk result (λ next. (class_no : ℕ) (attributes : List Binding) → Within store.now.cells stack.new.items (special_of_cell special number arguments.now (cell.Instance class_no attributes)) stack.old.items next) }
    ensures light { IfOk result (λ next. IsLight stack.new.items next stack.old.items) }
{
    match arguments {
        [] => instance_alone(alloc, stack, store, number, special),
        [x] => instance_with_one(alloc, stack, store, number, special, x),
        [key, item] => instance_with_two(alloc, stack, store, number, special, key, item),
        _ => Ok(Next::Leave(Beyond::NotYet)),
    }
}

/// A special operation on an instance without arguments.
fn instance_alone(
    alloc: Global,
    stack: &mut Vec<Frame>,
    store: &Store,
    number: u32,
    special: Special,
) -> Result<Next, NoMemory>
    ensures means { IfOk result (λ next. (class_no : ℕ) (attributes : List Binding) → Within store.now.cells stack.new.items (special_of_cell special number [] (cell.Instance class_no attributes)) stack.old.items next) }
    ensures light { IfOk result (λ next. IsLight stack.new.items next stack.old.items) }
{
    match special {
        Special::Len => {
            let after = After::Method(MethodFrame::Length);
            call_or_refuse(
                alloc,
                stack,
                store,
                number,
                "__len__",
                &[],
                after,
                "no length",
            )
        }
        Special::Bool => truth_of(alloc, stack, store, number),
        Special::Iter => iterator_of(alloc, stack, store, number),
        Special::Next => call_or_refuse(
            alloc,
            stack,
            store,
            number,
            "__next__",
            &[],
            After::Answer,
            "not iterable",
        ),
        Special::Neg => call_or_refuse(
            alloc,
            stack,
            store,
            number,
            "__neg__",
            &[],
            After::Answer,
            "unsupported operand",
        ),
        _ => Ok(Next::Leave(Beyond::NotYet)),
    }
}

/// A special operation on an instance with one argument.
fn instance_with_one(
    alloc: Global,
    stack: &mut Vec<Frame>,
    store: &Store,
    number: u32,
    special: Special,
    x: &Value,
) -> Result<Next, NoMemory>
    ensures means { IfOk result (λ next. (class_no : ℕ) (attributes : List Binding) → Within store.now.cells stack.new.items (special_of_cell special number (x.now ∷ []) (cell.Instance class_no attributes)) stack.old.items next) }
    ensures light { IfOk result (λ next. IsLight stack.new.items next stack.old.items) }
{
    match special {
        Special::GetItem => call_or_refuse(
            alloc,
            stack,
            store,
            number,
            "__getitem__",
            slice::from_ref(x),
            After::Answer,
            "no items",
        ),
        Special::DelItem => call_or_refuse(
            alloc,
            stack,
            store,
            number,
            "__delitem__",
            slice::from_ref(x),
            After::Done,
            "no items",
        ),
        Special::Contains => contains(alloc, stack, store, number, x),
        Special::Add => operate_with(alloc, stack, store, number, Special::Add, x),
        Special::Sub => subtract(alloc, stack, store, number, x),
        Special::Mul => operate_with(alloc, stack, store, number, Special::Mul, x),
        Special::FloorDiv => operate_with(alloc, stack, store, number, Special::FloorDiv, x),
        Special::Mod => operate_with(alloc, stack, store, number, Special::Mod, x),
        Special::IAdd => refuse(alloc, "unsupported operand"),
        _ => Ok(Next::Leave(Beyond::NotYet)),
    }
}

/// A special operation on an instance with two arguments: an item is set.
fn instance_with_two(
    alloc: Global,
    stack: &mut Vec<Frame>,
    store: &Store,
    number: u32,
    special: Special,
    key: &Value,
    item: &Value,
) -> Result<Next, NoMemory>
    ensures means { IfOk result (λ next. (class_no : ℕ) (attributes : List Binding) → Within store.now.cells stack.new.items (special_of_cell special number (key.now ∷ item.now ∷ []) (cell.Instance class_no attributes)) stack.old.items next) }
    ensures light { IfOk result (λ next. IsLight stack.new.items next stack.old.items) }
{
    match special {
        Special::SetItem => set_item(alloc, stack, store, number, key, item),
        _ => Ok(Next::Leave(Beyond::NotYet)),
    }
}

fn set_item(
    alloc: Global,
    stack: &mut Vec<Frame>,
    store: &Store,
    number: u32,
    key: &Value,
    item: &Value,
) -> Result<Next, NoMemory>
    ensures means { IfOk result (Within store.now.cells stack.new.items (set_item_rule number key.now item.now (cell.Instance 0 [])) stack.old.items) }
    ensures light { IfOk result (λ next. IsLight stack.new.items next stack.old.items) }
{
    let arguments = [key.copy(alloc)?, item.copy(alloc)?];
    call_or_refuse(
        alloc,
        stack,
        store,
        number,
        "__setitem__",
        &arguments,
        After::Done,
        "no items",
    )
}
