ghost use Rattle.std.specs.Prelude.{◌≤◌, ℕ, IfOk};
ghost use Rattle.eval_frames.specs.declared.next.Next.TheVariants as next;
ghost use Rattle.eval_frames.specs.ClassFrames.{through_class};
ghost use Rattle.eval_frames.specs.HandlerFrames.{through_handler};
ghost use Rattle.eval_frames.specs.Meaning.{IsLight, resume};
ghost use Rattle.eval_frames.specs.ListFrames.{through_text};
ghost use Rattle.eval_frames.specs.ObjectFrames.{through_printing};
ghost use Rattle.language_rules.specs.Going.{on_value};
ghost use Rattle.language_rules.specs.Nodes.{member_node_rule, node_rule};
ghost use Rattle.nested_serve.specs.Machines.{Advances, Follows, GoesOn, Halts};

use crate::at_once::carry_out;
use crate::entering::enter;
use crate::giving::{give, value_of};
use crate::machine::{Halt, Machine};
use crate::performing::{advance_making, advance_performing};
use crate::within::{begin_within, give_within};
use eval_classes::{begin_class, begin_member, give_class};
use eval_frames::{ClassFrame, Frame, HandlerFrame, Next, PrintingFrame, TextFrame, node_at};
use eval_handlers::give_handler;
use eval_texts::give_text;
use object_operations::{Completion, Env};
use print_output::{give_printing, print};
use py_ast::{Node, Statement};
use rp_base::{NoMemory, Plain, Value};
use sqlite_items::Items;
use std::alloc::Global;

/// What a step came to.
#[derive(Drop)]
pub enum Progress {
    On(Next),
    Halted(Halt),
}

/// One step, for which a unit may be due. That the other side is asked is not built yet.
pub(crate) fn advance(
    alloc: Global,
    machine: &mut Machine,
    next: Next,
    fuel: &mut u64,
) -> Result<Progress, NoMemory>
    ensures run { IfOk result (λ advance. Advances machine.old next fuel.old advance machine.new fuel.new) }
    ensures spent { fuel.new ≤ fuel.old }
{
    match next {
        Next::Enter(env, number) => advance_into(alloc, machine, env, number, fuel),
        Next::Member(env, number) => advance_member(machine, env, number, fuel),
        Next::Give(completion) => advance_with(alloc, machine, completion, fuel),
        Next::Print(values) => advance_printing(alloc, machine, values),
        Next::Leave(beyond) => Ok(Progress::Halted(Halt::Beyond(beyond))),
        Next::Perform(operation) => advance_performing(alloc, machine, operation, fuel),
        Next::HandlerName => Ok(advance_by_name(fuel)),
        Next::Make(cell) => advance_making(machine, cell),
        Next::Ask(_) => Err(NoMemory),
    }
}

/// A node begins, where a unit is left. What needs no frame is carried out in this step.
fn advance_into(
    alloc: Global,
    machine: &mut Machine,
    env: Env,
    number: u32,
    fuel: &mut u64,
) -> Result<Progress, NoMemory>
    ensures run { IfOk result (λ advance. Advances machine.old (next.Enter env number) fuel.old advance machine.new fuel.new) }
    ensures spent { fuel.new ≤ fuel.old }
{
    match carry_out(alloc, machine, env, number, fuel) {
        Some(next) => Ok(Progress::On(next)),
        None => advance_by_frames(alloc, machine, env, number, fuel),
    }
}

/// A node begins, where a unit is left, and its parts by themselves.
#[inline(never)]
fn advance_by_frames(
    alloc: Global,
    machine: &mut Machine,
    env: Env,
    number: u32,
    fuel: &mut u64,
) -> Result<Progress, NoMemory>
    ensures run { IfOk result (λ advance. Advances machine.old (next.Enter env number) fuel.old advance machine.new fuel.new) }
    ensures spent { fuel.new ≤ fuel.old }
{
    match fuel.checked_sub(1) {
        Some(left) => {
            *fuel = left;
            Ok(Progress::On(begin_within(alloc, machine, env, number, fuel)?))
        }
        None => Ok(Progress::Halted(Halt::OutOfFuel)),
    }
}

/// A statement of a class body begins, where a unit is left.
#[inline(never)]
fn advance_member(
    machine: &mut Machine,
    env: Env,
    number: u32,
    fuel: &mut u64,
) -> Result<Progress, NoMemory>
    ensures run { IfOk result (λ advance. Advances machine.old (next.Member env number) fuel.old advance machine.new fuel.new) }
    ensures spent { fuel.new ≤ fuel.old }
{
    let Some(remaining) = fuel.checked_sub(1) else {
        return Ok(Progress::Halted(Halt::OutOfFuel));
    };
    *fuel = remaining;
    Ok(Progress::On(begin_member_of(machine, env, number)?))
}

/// The name of a handler, where a unit is left.
fn advance_by_name(fuel: &mut u64) -> Progress
    ensures run { (machine : Machine) → Advances machine next.HandlerName fuel.old result machine fuel.new }
    ensures spent { fuel.new ≤ fuel.old }
{
    let Some(left) = fuel.checked_sub(1) else {
        return Progress::Halted(Halt::OutOfFuel);
    };
    *fuel = left;
    Progress::On(Next::Give(Completion::Gives(Value::Plain(Plain::None))))
}

/// An end goes to what waits, or is the last.
fn advance_with(
    alloc: Global,
    machine: &mut Machine,
    completion: Completion,
    fuel: &mut u64,
) -> Result<Progress, NoMemory>
    ensures run { IfOk result (λ advance. Advances machine.old (next.Give completion) fuel.old advance machine.new fuel.new) }
    ensures spent { fuel.new ≤ fuel.old }
{
    match machine.stack.pop() {
        Some(frame) => {
            let next = give_within(alloc, machine, frame, completion, fuel)?;
            Ok(Progress::On(next))
        }
        None => Ok(Progress::Halted(Halt::Done(completion))),
    }
}

#[inline(never)]
fn advance_printing(
    alloc: Global,
    machine: &mut Machine,
    values: Items<Value>,
) -> Result<Progress, NoMemory>
    ensures { IfOk result (λ advance. (units : ℕ) → Follows machine.old (next.Print values) units advance machine.new) }
{
    let next = print(alloc, &mut machine.stack, &mut machine.printed, values)?;
    Ok(Progress::On(next))
}

fn begin_member_of(machine: &mut Machine, env: Env, number: u32) -> Result<Next, NoMemory>
    ensures means { IfOk result (λ next. GoesOn machine.old (member_node_rule env number) machine.new next) }
    ensures light { IfOk result (λ next. IsLight machine.new.stack.items next machine.old.stack.items) }
{
    begin_member(&mut machine.stack, &machine.texts, env, number)
}

#[inline(never)]
pub(crate) fn begin_node(
    alloc: Global,
    machine: &mut Machine,
    env: Env,
    number: u32,
) -> Result<Next, NoMemory>
    ensures means { IfOk result (λ next. GoesOn machine.old (node_rule env number) machine.new next) }
    ensures light { IfOk result (λ next. IsLight machine.new.stack.items next machine.old.stack.items) }
{
    match node_at(&machine.texts, env, number) {
        Some(Node::Statement(Statement::Class { name, base, body })) => begin_class(
            alloc,
            &mut machine.stack,
            &mut machine.store,
            &machine.texts,
            &mut machine.classes,
            env,
            name.text.as_str(),
            base,
            *body,
        ),
        _ => begin_plain_node(alloc, machine, env, number),
    }
}

/// Any node but a class statement, which looks at no class that was made.
fn begin_plain_node(
    alloc: Global,
    machine: &mut Machine,
    env: Env,
    number: u32,
) -> Result<Next, NoMemory>
    ensures means { IfOk result (λ next. GoesOn machine.old (node_rule env number) machine.new next) }
    ensures light { IfOk result (λ next. IsLight machine.new.stack.items next machine.old.stack.items) }
{
    enter(
        alloc,
        &mut machine.stack,
        &mut machine.store,
        &machine.texts,
        machine.handled.as_slice(),
        env,
        number,
    )
}

#[inline(never)]
pub(crate) fn give_frame(
    alloc: Global,
    machine: &mut Machine,
    frame: Frame,
    completion: Completion,
) -> Result<Next, NoMemory>
    ensures means { IfOk result (λ next. GoesOn machine.old (resume frame completion) machine.new next) }
    ensures light { IfOk result (λ next. IsLight machine.new.stack.items next machine.old.stack.items) }
{
    match frame {
        Frame::Handler(frame) => give_to_handler(alloc, machine, frame, completion),
        Frame::Printing(frame) => give_to_printing(alloc, machine, frame, completion),
        Frame::Text(frame) => give_to_text(alloc, machine, frame, completion),
        Frame::Class(frame) => give_to_class(alloc, machine, frame, completion),
        frame => give(
            alloc,
            &mut machine.stack,
            &mut machine.store,
            &machine.texts,
            frame,
            completion,
        ),
    }
}

#[inline(never)]
fn give_to_handler(
    alloc: Global,
    machine: &mut Machine,
    frame: HandlerFrame,
    completion: Completion,
) -> Result<Next, NoMemory>
    ensures means { IfOk result (λ next. GoesOn machine.old (through_handler frame completion) machine.new next) }
    ensures light { IfOk result (λ next. IsLight machine.new.stack.items next machine.old.stack.items) }
{
    give_handler(
        alloc,
        &mut machine.stack,
        &machine.texts,
        &mut machine.handled,
        frame,
        completion,
    )
}

#[inline(never)]
fn give_to_printing(
    alloc: Global,
    machine: &mut Machine,
    frame: PrintingFrame,
    completion: Completion,
) -> Result<Next, NoMemory>
    ensures means { IfOk result (λ next. GoesOn machine.old (through_printing frame completion) machine.new next) }
    ensures light { IfOk result (λ next. IsLight machine.new.stack.items next machine.old.stack.items) }
{
    give_printing(
        alloc,
        &mut machine.stack,
        &mut machine.printed,
        frame,
        completion,
    )
}

#[inline(never)]
fn give_to_text(
    alloc: Global,
    machine: &mut Machine,
    frame: TextFrame,
    completion: Completion,
) -> Result<Next, NoMemory>
    ensures means { IfOk result (λ next. GoesOn machine.old (through_text frame completion) machine.new next) }
    ensures light { IfOk result (λ next. IsLight machine.new.stack.items next machine.old.stack.items) }
{
    give_text(
        alloc,
        &mut machine.stack,
        &machine.store,
        &mut machine.printing,
        frame,
        completion,
    )
}

#[inline(never)]
fn give_to_class(
    alloc: Global,
    machine: &mut Machine,
    frame: ClassFrame,
    completion: Completion,
) -> Result<Next, NoMemory>
    ensures means { IfOk result (λ next. GoesOn machine.old (on_value (through_class frame) completion) machine.new next) }
    ensures light { IfOk result (λ next. IsLight machine.new.stack.items next machine.old.stack.items) }
{
    match value_of(completion) {
        Ok(value) => give_class(
            alloc,
            &mut machine.stack,
            &mut machine.store,
            &machine.texts,
            &mut machine.classes,
            frame,
            value,
        ),
        Err(end) => Ok(Next::Give(end)),
    }
}

/// Goes on until the side's own run ends.
pub fn run(
    alloc: Global,
    machine: &mut Machine,
    first: Next,
    fuel: &mut u64,
) -> Result<Halt, NoMemory>
    ensures run { IfOk result (λ halt. Halts machine.old first fuel.old halt machine.new fuel.new) }
    ensures spent { fuel.new ≤ fuel.old }
{
    let mut next = first;
    'steps: loop {
        match advance(alloc, machine, next, fuel)? {
            Progress::On(further) => next = further,
            Progress::Halted(halt) => return Ok(halt),
        }
    }
}
