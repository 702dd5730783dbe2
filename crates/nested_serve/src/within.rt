ghost use Rattle.std.specs.Prelude.{◌-◌, ◌≤◌, IfOk, reverse};
ghost use Rattle.eval_frames.specs.Meaning.{resume, through_expression};
ghost use Rattle.eval_suites.specs.Within.{IsWithin};
ghost use Rattle.language_rules.specs.Beginnings.{while_begins};
ghost use Rattle.language_rules.specs.Going.{executes_all, on_value};
ghost use Rattle.language_rules.specs.Loops.{next_turn};
ghost use Rattle.language_rules.specs.Nodes.{node_rule};
ghost use Rattle.nested_serve.specs.Machines.{GoesOnWithin};

use crate::giving::value_of;
use crate::machine::Machine;
use crate::running::{begin_node, give_frame};
use eval_exprs::give_expression;
use eval_frames::{ExpressionFrame, Frame, Next, StatementFrame, node_at};
use eval_stmts::end_turn;
use eval_suites::{begin_turn, branch, call_within, execute_waiting, gather_within, return_value};
use object_operations::{Completion, Env};
use py_ast::{Node, Statement};
use rp_base::{NoMemory, Value};
use sqlite_items::Items;
use std::alloc::Global;

/// A node begins behind its unit. Branches, loops and `return` carry out at once what they can.
pub(crate) fn begin_within(
    alloc: Global,
    machine: &mut Machine,
    env: Env,
    number: u32,
    fuel: &mut u64,
) -> Result<Next, NoMemory>
    ensures means { IfOk result (λ next. GoesOnWithin machine.old (node_rule env number) (fuel.old - fuel.new) machine.new next) }
    ensures light { IfOk result (λ next. IsWithin 12 machine.old.stack.items fuel.old machine.new.stack.items next fuel.new) }
    ensures spent { fuel.new ≤ fuel.old }
{
    match node_at(&machine.texts, env, number) {
        Some(
            &Node::Statement(
                Statement::If {
                    test,
                    then,
                    otherwise,
                },
            ),
        ) => branch(
            alloc,
            &mut machine.stack,
            &mut machine.store,
            &machine.texts,
            env,
            test,
            then,
            otherwise,
            fuel,
        ),
        Some(&Node::Statement(Statement::While { test, body })) => {
            begin_round(alloc, machine, env, test, body, fuel)
        }
        Some(&Node::Statement(Statement::Return(Some(value)))) => return_value(
            alloc,
            &mut machine.stack,
            &machine.store,
            &machine.texts,
            env,
            value,
            fuel,
        ),
        _ => begin_node(alloc, machine, env, number),
    }
}

/// What waits goes on with an end. Suites and loops carry out at once what they can.
pub(crate) fn give_within(
    alloc: Global,
    machine: &mut Machine,
    frame: Frame,
    completion: Completion,
    fuel: &mut u64,
) -> Result<Next, NoMemory>
    ensures means { IfOk result (λ next. GoesOnWithin machine.old (resume frame completion) (fuel.old - fuel.new) machine.new next) }
    ensures light { IfOk result (λ next. IsWithin 12 machine.old.stack.items fuel.old machine.new.stack.items next fuel.new) }
    ensures spent { fuel.new ≤ fuel.old }
{
    match frame {
        Frame::While { env, test, body } => {
            end_round(alloc, machine, env, test, body, completion, fuel)
        }
        Frame::Statement(StatementFrame::Suite { env, waiting }) => {
            go_further(alloc, machine, env, waiting, completion, fuel)
        }
        Frame::Expression(frame) => give_part(alloc, machine, frame, completion, fuel),
        frame => give_frame(alloc, machine, frame, completion),
    }
}

/// An expression goes on with the value of a part, or is left with an end.
fn give_part(
    alloc: Global,
    machine: &mut Machine,
    frame: ExpressionFrame,
    completion: Completion,
    fuel: &mut u64,
) -> Result<Next, NoMemory>
    ensures means { IfOk result (λ next. GoesOnWithin machine.old (on_value (through_expression frame) completion) (fuel.old - fuel.new) machine.new next) }
    ensures light { IfOk result (λ next. IsWithin 12 machine.old.stack.items fuel.old machine.new.stack.items next fuel.new) }
    ensures spent { fuel.new ≤ fuel.old }
{
    match value_of(completion) {
        Ok(value) => give_value(alloc, machine, frame, value, fuel),
        Err(end) => Ok(Next::Give(end)),
    }
}

/// An expression goes on with the value of a part. Operands and arguments that are at hand follow at once.
fn give_value(
    alloc: Global,
    machine: &mut Machine,
    frame: ExpressionFrame,
    value: Value,
    fuel: &mut u64,
) -> Result<Next, NoMemory>
    ensures means { IfOk result (λ next. GoesOnWithin machine.old (through_expression frame value) (fuel.old - fuel.new) machine.new next) }
    ensures light { IfOk result (λ next. IsWithin 12 machine.old.stack.items fuel.old machine.new.stack.items next fuel.new) }
    ensures spent { fuel.new ≤ fuel.old }
{
    match frame {
        ExpressionFrame::Operands {
            env,
            gathering,
            mut values,
            waiting,
        } => {
            values.push(value)?;
            gather_within(
                alloc,
                &mut machine.stack,
                &machine.store,
                &machine.texts,
                env,
                gathering,
                values,
                waiting,
                fuel,
            )
        }
        ExpressionFrame::Callee { env, waiting } => call_within(
            alloc,
            &mut machine.stack,
            &machine.store,
            &machine.texts,
            env,
            value,
            Items::new(alloc),
            waiting,
            fuel,
        ),
        ExpressionFrame::Arguments {
            env,
            callee,
            mut values,
            waiting,
        } => {
            values.push(value)?;
            call_within(
                alloc,
                &mut machine.stack,
                &machine.store,
                &machine.texts,
                env,
                callee,
                values,
                waiting,
                fuel,
            )
        }
        frame => give_expression(alloc, &mut machine.stack, &machine.store, frame, value),
    }
}

/// The next turn of a `while` begins.
fn begin_round(
    alloc: Global,
    machine: &mut Machine,
    env: Env,
    test: u32,
    body: u32,
    fuel: &mut u64,
) -> Result<Next, NoMemory>
    ensures means { IfOk result (λ next. GoesOnWithin machine.old (while_begins env test body) (fuel.old - fuel.new) machine.new next) }
    ensures light { IfOk result (λ next. IsWithin 12 machine.old.stack.items fuel.old machine.new.stack.items next fuel.new) }
    ensures spent { fuel.new ≤ fuel.old }
{
    begin_turn(
        alloc,
        &mut machine.stack,
        &mut machine.store,
        &machine.texts,
        env,
        test,
        body,
        fuel,
    )
}

/// The suite of a `while` has ended.
fn end_round(
    alloc: Global,
    machine: &mut Machine,
    env: Env,
    test: u32,
    body: u32,
    completion: Completion,
    fuel: &mut u64,
) -> Result<Next, NoMemory>
    ensures means { IfOk result (λ next. GoesOnWithin machine.old (next_turn (while_begins env test body) completion) (fuel.old - fuel.new) machine.new next) }
    ensures light { IfOk result (λ next. IsWithin 12 machine.old.stack.items fuel.old machine.new.stack.items next fuel.new) }
    ensures spent { fuel.new ≤ fuel.old }
{
    match completion {
        Completion::Gives(_) => begin_round(alloc, machine, env, test, body, fuel),
        Completion::Continues => begin_round(alloc, machine, env, test, body, fuel),
        ending => end_turn(&mut machine.stack, env, test, body, ending),
    }
}

/// A statement of a suite has ended, and those that wait follow.
fn go_further(
    alloc: Global,
    machine: &mut Machine,
    env: Env,
    waiting: Items<u32>,
    completion: Completion,
    fuel: &mut u64,
) -> Result<Next, NoMemory>
    ensures means { IfOk result (λ next. GoesOnWithin machine.old (on_value (λ v. executes_all env (reverse waiting)) completion) (fuel.old - fuel.new) machine.new next) }
    ensures light { IfOk result (λ next. IsWithin 12 machine.old.stack.items fuel.old machine.new.stack.items next fuel.new) }
    ensures spent { fuel.new ≤ fuel.old }
{
    match completion {
        Completion::Gives(_) => execute_waiting(
            alloc,
            &mut machine.stack,
            &mut machine.store,
            &machine.texts,
            env,
            waiting,
            fuel,
        ),
        ending => Ok(Next::Give(ending)),
    }
}
