ghost use Rattle.std.specs.Prelude.{◌≡◌, ◌+◌, ◌-◌, ◌≤◌, ℕ, IfOk, None, Some, option_copied};
ghost use Rattle.py_ast.specs.declared.program.Program.{Program};
ghost use Rattle.nested_serve.specs.declared.endpoint.StepEnd.{StepEnd};
ghost use Rattle.nested_serve.specs.declared.endpoint.Turn.TheVariants as turn;
ghost use Rattle.nested_serve.specs.Endpoints.{Answers, Goes, IsAt, IsTurnAfter, IsTurnOf, StandsAt, ahead_at, answer_after, answer_at, answer_of, answer_to, output_of, role_of, text_end_of};
ghost use Rattle.nested_serve.specs.Machines.{ahead};

use crate::alone::end_of_text;
use crate::machine::{Halt, Machine};
use crate::running::{Progress, advance};
use crate::starting::begin;
use eval_frames::Next;
use py_ast::Program;
use rp_base::{Beyond, NoMemory, Raised};
use std::alloc::Global;
use std::mem;

/// What an endpoint is for. The roles of a pair come with the connection.
#[derive(Clone, Copy, Debug, PartialEq, Eq)]
pub enum Role {
    /// It runs one script, with no other side.
    Alone,
}

/// How a text ended.
#[derive(Drop)]
pub enum TextEnd {
    Done,
    Raised(Raised),
}

/// What a step came to.
#[derive(Clone, Copy, Debug, PartialEq, Eq)]
pub enum StepEnd {
    /// One step was taken.
    Went,
    /// The text has ended: nothing was done.
    Idle,
    NoFuel,
    Beyond(Beyond),
    NoMemory,
}

/// What an endpoint is about.
#[derive(Drop)]
pub(crate) enum Turn {
    Next(Next),
    Ended(TextEnd),
    NoFuel,
    Beyond(Beyond),
    NoMemory,
}

/// One side, which is stepped. It keeps its cells, what waits, and what it printed.
#[derive(Drop)]
pub struct Endpoint {
    role: Role,
    machine: Machine,
    turn: Turn,
}

impl Endpoint {
    /// An endpoint that is about to run this script.
    pub fn new(alloc: Global, role: Role, program: Program) -> Result<Endpoint, NoMemory>
        ensures stands { IfOk result (λ endpoint. IsAt program 0 endpoint) }
        ensures runs { IfOk result (λ endpoint. answer_of endpoint ≡ None) }
        ensures role { IfOk result (λ endpoint. role_of endpoint ≡ role) }
    {
        let (machine, first) = begin(alloc, program)?;
        Ok(Endpoint {
            role,
            machine,
            turn: Turn::Next(first),
        })
    }

    /// Takes one step, which spends a unit or more, or comes nearer to a unit. The step after which the text has ended
    /// went; those behind it are idle. After `NoFuel`, `Beyond` and `NoMemory` every step answers the same, and it changes
    /// nothing.
    pub fn step(&mut self, alloc: Global, fuel: &mut u64) -> StepEnd
        ensures stands { (program : Program) (spent : ℕ) → IsAt program spent self.old → IsAt program (spent + (fuel.old - fuel.new)) self.new }
        ensures goes { answer_of self.old ≡ None → Goes self.old fuel.old result self.new fuel.new }
        ensures kept { (answer : StepEnd) → answer_of self.old ≡ Some answer → (result ≡ answer) × (self.new ≡ self.old) × (fuel.new ≡ fuel.old) }
        ensures role { role_of self.new ≡ role_of self.old }
        ensures spent { fuel.new ≤ fuel.old }
    {
        let turn = mem::replace(&mut self.turn, Turn::NoMemory);
        let (turn, answer) = take_turn(alloc, &mut self.machine, turn, fuel);
        // Dropped by a call: an assignment would drop every variant in this function, and no proof came to its end.
        drop(mem::replace(&mut self.turn, turn));
        answer
    }

    /// What it printed.
    pub fn output(&self) -> &str
        ensures { result.now ≡ output_of self.now }
    {
        self.machine.printed.as_str()
    }

    /// How the text ended, if it has.
    pub fn text_end(&self) -> Option<&TextEnd>
        ensures { option_copied result ≡ text_end_of self.now }
    {
        match &self.turn {
            Turn::Ended(end) => Some(end),
            Turn::Next(_) | Turn::NoFuel | Turn::Beyond(_) | Turn::NoMemory => None,
        }
    }

    pub fn role(&self) -> Role
        ensures { result ≡ role_of self.now }
    {
        self.role
    }
}

/// What the machine is about after a step, and what the step answers.
fn take_turn(alloc: Global, machine: &mut Machine, turn: Turn, fuel: &mut u64) -> (Turn, StepEnd)
    ensures stands { (program : Program) (spent : ℕ) → StandsAt program spent machine.old turn → StandsAt program (spent + (fuel.old - fuel.new)) machine.new result.0 }
    ensures goes { answer_at turn ≡ None → Answers (ahead_at machine.old turn fuel.old) result.1 (ahead_at machine.new result.0 fuel.new) (answer_at result.0) fuel.new }
    ensures kept { (answer : StepEnd) → answer_at turn ≡ Some answer → (result ≡ (turn, answer)) × (machine.new ≡ machine.old) × (fuel.new ≡ fuel.old) }
    ensures spent { fuel.new ≤ fuel.old }
{
    match turn {
        Turn::Next(next) => go_on(alloc, machine, next, fuel),
        Turn::Ended(end) => (Turn::Ended(end), StepEnd::Idle),
        Turn::NoFuel => (Turn::NoFuel, StepEnd::NoFuel),
        Turn::Beyond(beyond) => (Turn::Beyond(beyond), StepEnd::Beyond(beyond)),
        Turn::NoMemory => (Turn::NoMemory, StepEnd::NoMemory),
    }
}

/// One step of a text that runs.
fn go_on(alloc: Global, machine: &mut Machine, next: Next, fuel: &mut u64) -> (Turn, StepEnd)
    ensures stands { (program : Program) (spent : ℕ) → StandsAt program spent machine.old (turn.Next next) → StandsAt program (spent + (fuel.old - fuel.new)) machine.new result.0 }
    ensures goes { Answers (ahead machine.old next fuel.old + 1) result.1 (ahead_at machine.new result.0 fuel.new) (answer_at result.0) fuel.new }
    ensures spent { fuel.new ≤ fuel.old }
{
    match advance(alloc, machine, next, fuel) {
        Ok(progress) => turn_after(progress),
        Err(NoMemory) => (Turn::NoMemory, StepEnd::NoMemory),
    }
}

/// What the machine is about after a step, and what the step answers.
fn turn_after(progress: Progress) -> (Turn, StepEnd)
    ensures turn { IsTurnAfter progress result.0 }
    ensures answer { result.1 ≡ answer_after progress }
{
    match progress {
        Progress::On(further) => (Turn::Next(further), StepEnd::Went),
        Progress::Halted(halt) => turn_at(halt),
    }
}

/// What a machine that got so far is about, and what the step that came there answers.
fn turn_at(halt: Halt) -> (Turn, StepEnd)
    ensures turn { IsTurnOf halt result.0 }
    ensures answer { result.1 ≡ answer_to halt }
{
    match halt {
        Halt::Done(completion) => (Turn::Ended(end_of_text(completion)), StepEnd::Went),
        Halt::OutOfFuel => (Turn::NoFuel, StepEnd::NoFuel),
        Halt::Beyond(beyond) => (Turn::Beyond(beyond), StepEnd::Beyond(beyond)),
    }
}
