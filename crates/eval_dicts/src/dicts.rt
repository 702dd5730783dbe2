ghost use Rattle.std.specs.Prelude.{IfOk, List};
ghost use Rattle.rp_base.specs.declared.value.Value.TheVariants as value;
ghost use Rattle.object_operations.specs.declared.special.Special.TheVariants as special;
ghost use Rattle.py_ast.specs.declared.program.Program.{Program};
ghost use Rattle.eval_frames.specs.declared.frame.Frame.{Frame};
ghost use Rattle.eval_frames.specs.Meaning.{IsLight, MeansIn, MeansOver};
ghost use Rattle.language_rules.specs.AtOnce.{stated};
ghost use Rattle.language_rules.specs.Going.{reads_cell};
ghost use Rattle.language_rules.specs.Iterating.{iter_rule};
ghost use Rattle.language_rules.specs.Perform.{special_of_cell, special_rule};
ghost use Rattle.language_rules.specs.States.{State};
ghost use Rattle.py_dicts.specs.DictCells.{IsDict};

use crate::answers::{less, refuse_alone, refuse_with_one};
use eval_frames::{Next, answered};
use object_operations::Special;
use py_dicts::{change_dict, read_dict};
use py_store::{Cell, Store};
use rp_base::{Beyond, NoMemory, Value};
use std::alloc::Global;

/// A special operation on the dict of this number. `Leave(NotYet)` for a wrong number of arguments.
pub fn special_of_dict(
    alloc: Global,
    store: &mut Store,
    number: u32,
    special: Special,
    arguments: &[Value],
) -> Result<Next, NoMemory>
    requires { IsDict store.old.cells number }
    ensures means { IfOk result (λ next. (fixed : State) (texts : List Program) (stack : List Frame) → MeansOver (stated fixed store.old.cells texts) (stated fixed store.new.cells texts) stack next (special_rule special (value.Own number) arguments.now) stack) }
    ensures light { IfOk result (λ next. (stack : List Frame) → IsLight stack next stack) }
{
    match special {
        Special::SetItem => {
            answered(change_dict(alloc, store, number, Special::SetItem, arguments))
        }
        Special::DelItem => {
            answered(change_dict(alloc, store, number, Special::DelItem, arguments))
        }
        Special::Len => answered(read_dict(alloc, store, number, Special::Len, arguments)),
        Special::Bool => answered(read_dict(alloc, store, number, Special::Bool, arguments)),
        Special::GetItem => {
            answered(read_dict(alloc, store, number, Special::GetItem, arguments))
        }
        Special::Contains => {
            answered(read_dict(alloc, store, number, Special::Contains, arguments))
        }
        Special::Iter => iterate(store, number, arguments),
        Special::Sub => less(alloc, store, arguments),
        Special::Next => refuse_alone(alloc, "not iterable", arguments),
        Special::Neg => refuse_alone(alloc, "unsupported operand", arguments),
        Special::Add => refuse_with_one(alloc, "unsupported operand", arguments),
        Special::Mul => refuse_with_one(alloc, "unsupported operand", arguments),
        Special::FloorDiv => refuse_with_one(alloc, "unsupported operand", arguments),
        Special::Mod => refuse_with_one(alloc, "unsupported operand", arguments),
        Special::IAdd => refuse_with_one(alloc, "unsupported operand", arguments),
        Special::GetModule => Ok(Next::Leave(Beyond::NotYet)),
    }
}

/// A new iterator over the keys, which keeps the shape of the dict.
fn iterate(store: &Store, number: u32, arguments: &[Value]) -> Result<Next, NoMemory>
    requires { IsDict store.now.cells number }
    ensures means { IfOk result (λ next. (fixed : State) (texts : List Program) (stack : List Frame) → MeansIn (stated fixed store.now.cells texts) stack next (reads_cell number (special_of_cell special.Iter number arguments.now)) stack) }
    ensures light { IfOk result (λ next. (stack : List Frame) → IsLight stack next stack) }
{
    match arguments {
        [] => Ok(iterator(store, number)),
        _ => Ok(Next::Leave(Beyond::NotYet)),
    }
}

fn iterator(store: &Store, number: u32) -> Next
    requires { IsDict store.now.cells number }
    ensures means { (fixed : State) (texts : List Program) (stack : List Frame) → MeansIn (stated fixed store.now.cells texts) stack result (reads_cell number (iter_rule number)) stack }
    ensures light { (stack : List Frame) → IsLight stack result stack }
{
    match store.get(number) {
        Some(Cell::Dict { shape, .. }) => Next::Make(Cell::Iter {
            source: Some(Value::Own(number)),
            at: 0,
            shape: *shape,
        }),
        _ => unreachable!(),
    }
}
