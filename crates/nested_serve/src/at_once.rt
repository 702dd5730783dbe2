ghost use Rattle.nested_serve.specs.Machines.{IsCarriedOut};

use crate::machine::Machine;
use eval_at_once::{DEPTH, evaluate, execute};
use eval_frames::Next;
use object_operations::{Completion, Env};
use rp_base::{Plain, Value};
use std::alloc::Global;

/// The node of this number with all that stands in it, where that needs no frame: it takes its units, and its end goes to
/// what waits. Where it gives nothing, nothing is done.
pub(crate) fn carry_out(
    alloc: Global,
    machine: &mut Machine,
    env: Env,
    number: u32,
    fuel: &mut u64,
) -> Option<Next>
    ensures { IsCarriedOut machine.old env number fuel.old result machine.new fuel.new }
{
    let units = *fuel;
    match evaluate(
        alloc,
        &machine.store,
        &machine.texts,
        env,
        number,
        units,
        DEPTH,
    ) {
        Some(evaluated) => {
            *fuel = evaluated.left;
            Some(Next::Give(Completion::Gives(evaluated.value)))
        }
        None => execute_at_once(alloc, machine, env, number, fuel),
    }
}

fn execute_at_once(
    alloc: Global,
    machine: &mut Machine,
    env: Env,
    number: u32,
    fuel: &mut u64,
) -> Option<Next>
    ensures { IsCarriedOut machine.old env number fuel.old result machine.new fuel.new }
{
    let left = execute(
        alloc,
        &mut machine.store,
        &machine.texts,
        env,
        number,
        *fuel,
    )?;
    *fuel = left;
    Some(Next::Give(Completion::Gives(Value::Plain(Plain::None))))
}
