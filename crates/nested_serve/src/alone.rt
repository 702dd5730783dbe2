ghost use Rattle.std.specs.Prelude.{◌≡◌, ◌≤◌, IfOk, string_bytes};
ghost use Rattle.py_ast.specs.declared.program.Program.{Program};
ghost use Rattle.side_trees.specs.SharedRun.{A};
ghost use Rattle.language_rules.specs.OneInterpreter.{EndsDone, end_of_script};
ghost use Rattle.eval_frames.specs.declared.next.Next.{Next};
ghost use Rattle.nested_serve.specs.declared.machine.Machine.{Machine};
ghost use Rattle.nested_serve.specs.Alone.{IsEndOf, IsRunAlone, end_of_run};
ghost use Rattle.nested_serve.specs.Endpoints.{told_end};
ghost use Rattle.nested_serve.specs.Machines.{Begins, Halts, printed_by};

use crate::endpoint::TextEnd;
use crate::machine::{Halt, Machine};
use crate::running::run;
use crate::starting::begin;
use object_operations::Completion;
use py_ast::Program;
use rp_base::{Beyond, NoMemory, Raised, Text};
use std::alloc::Global;

/// How a script alone ended.
#[derive(Drop)]
pub enum AloneEnd {
    Done,
    Raised(Raised),
    OutOfFuel,
    Beyond(Beyond),
}

/// A run of a script alone: its end, what it printed, and the units that it spent.
#[derive(Drop)]
pub struct AloneRun {
    pub end: AloneEnd,
    pub printed: Text,
    pub units: u64,
}

/// Runs a script alone, within so many units.
pub fn run_alone(alloc: Global, program: Program, fuel: u64) -> Result<AloneRun, NoMemory>
    ensures { IfOk result (λ run. IsRunAlone program fuel run) }
{
    let (mut machine, first) = begin(alloc, program)?;
    let mut left = fuel;
    let halt = run(alloc, &mut machine, first, &mut left)?;
    let Machine { printed, .. } = machine;
    Ok(alone_run(halt, printed, fuel, left))
}

/// What the run of a machine that began a script came to, with the units that are left of those that it was given.
pub fn alone_run(halt: Halt, printed: String, fuel: u64, left: u64) -> AloneRun
    requires { left ≤ fuel }
    ensures { (program : Program) (start m : Machine) (n : Next) → Begins program start n → Halts start n fuel halt m left → printed_by m ≡ string_bytes printed → IsRunAlone program fuel result }
{
    AloneRun {
        end: end_of(halt),
        printed: Text::from_string(printed),
        units: fuel - left,
    }
}

/// The end of a script, as a report tells it.
fn end_of(halt: Halt) -> AloneEnd
    ensures { IsEndOf halt result }
{
    match halt {
        Halt::Done(completion) => told_end(end_of_text(completion)),
        Halt::OutOfFuel => AloneEnd::OutOfFuel,
        Halt::Beyond(beyond) => AloneEnd::Beyond(beyond),
    }
}

fn told_end(end: TextEnd) -> AloneEnd
    ensures { result ≡ told_end end }
{
    match end {
        TextEnd::Done => AloneEnd::Done,
        TextEnd::Raised(raised) => AloneEnd::Raised(raised),
    }
}

/// What a text gives is not kept.
pub(crate) fn end_of_text(completion: Completion) -> TextEnd
    ensures { end_of_run (told_end result) ≡ end_of_script A completion EndsDone }
{
    match completion {
        Completion::Raises(raised) => TextEnd::Raised(raised),
        Completion::Gives(_)
        | Completion::Returns(_)
        | Completion::Breaks
        | Completion::Continues
        | Completion::Drained(_) => TextEnd::Done,
    }
}
