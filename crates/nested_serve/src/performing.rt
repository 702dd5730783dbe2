ghost use Rattle.std.specs.Prelude.{◌≤◌, ℕ, IfOk};
ghost use Rattle.eval_frames.specs.declared.next.Next.TheVariants as next;
ghost use Rattle.eval_frames.specs.Meaning.{IsLight};
ghost use Rattle.language_rules.specs.Perform.{perform};
ghost use Rattle.nested_serve.specs.Machines.{Advances, Follows, GoesOn};

use crate::machine::{Halt, Machine};
use crate::running::Progress;
use eval_calls::call;
use eval_frames::Next;
use eval_objects::perform;
use eval_texts::{repr_of, str_of};
use object_operations::{Completion, Operation};
use py_store::Cell;
use rp_base::{NoMemory, Value};
use std::alloc::Global;

/// The most cells that a side may have.
const MOST_CELLS: u32 = 4_000_000_000;

/// An operation on an own cell begins, where a unit is left.
#[inline(never)]
pub(crate) fn advance_performing(
    alloc: Global,
    machine: &mut Machine,
    operation: Operation,
    fuel: &mut u64,
) -> Result<Progress, NoMemory>
    ensures run { IfOk result (λ advance. Advances machine.old (next.Perform operation) fuel.old advance machine.new fuel.new) }
    ensures spent { fuel.new ≤ fuel.old }
{
    match fuel.checked_sub(1) {
        Some(left) => {
            *fuel = left;
            Ok(Progress::On(begin_operation(alloc, machine, operation)?))
        }
        None => Ok(Progress::Halted(Halt::OutOfFuel)),
    }
}

fn begin_operation(
    alloc: Global,
    machine: &mut Machine,
    operation: Operation,
) -> Result<Next, NoMemory>
    ensures means { IfOk result (λ next. GoesOn machine.old (perform operation) machine.new next) }
    ensures light { IfOk result (λ next. IsLight machine.new.stack.items next machine.old.stack.items) }
{
    match operation {
        Operation::Call { callee, arguments } => call(
            alloc,
            &mut machine.stack,
            &mut machine.store,
            &machine.texts,
            &callee,
            arguments,
        ),
        Operation::Str(receiver) => str_of(
            alloc,
            &mut machine.stack,
            &machine.store,
            &mut machine.printing,
            &receiver,
        ),
        Operation::Repr(receiver) => repr_of(
            alloc,
            &mut machine.stack,
            &machine.store,
            &mut machine.printing,
            &receiver,
        ),
        operation => perform(
            alloc,
            &mut machine.stack,
            &mut machine.store,
            &machine.texts,
            operation,
        ),
    }
}

/// A new cell is made, which is the value.
#[inline(never)]
pub(crate) fn advance_making(machine: &mut Machine, cell: Cell) -> Result<Progress, NoMemory>
    ensures { IfOk result (λ advance. (units : ℕ) → Follows machine.old (next.Make cell) units advance machine.new) }
{
    if machine.store.size() >= MOST_CELLS {
        return Err(NoMemory);
    }
    let number = machine.store.make(cell)?;
    Ok(Progress::On(Next::Give(Completion::Gives(Value::Own(number)))))
}
