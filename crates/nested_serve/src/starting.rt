ghost use Rattle.std.specs.Prelude.{◌≡◌, IfOk, option_copied, reverse, slice_get};
ghost use Rattle.nested_serve.specs.Machines.{AreRoot, Begins, IsFirst, IsScriptOf};

use crate::machine::Machine;
use eval_frames::{Next, waiting_numbers};
use eval_stmts::execute_further;
use object_operations::Env;
use py_ast::{Node, Program, Statement};
use rp_base::{NoMemory, Side};
use slave_service::start;
use sqlite_items::Items;
use std::alloc::Global;

/// The top of the first text.
const TOP: Env = Env {
    text: 0,
    function: None,
    scope: 1,
};

/// A side that begins a script, and what it does first.
pub fn begin(alloc: Global, program: Program) -> Result<(Machine, Next), NoMemory>
    ensures { IfOk result (λ begun. Begins program begun.0 begun.1) }
{
    let waiting = statements(alloc, &program)?;
    let mut machine = first_machine(alloc, program)?;
    let next = execute_further(&mut machine.stack, TOP, waiting)?;
    Ok((machine, next))
}

/// The statements of a script, the last first.
fn statements(alloc: Global, program: &Program) -> Result<Items<u32>, NoMemory>
    ensures { IfOk result (λ waiting. IsScriptOf program.now (reverse waiting)) }
{
    match root_statements(program) {
        Some(statements) => waiting_numbers(alloc, statements),
        None => Err(NoMemory),
    }
}

/// The statements of the suite that is the root of a tree.
fn root_statements(program: &Program) -> Option<&[u32]>
    ensures { AreRoot (option_copied result) (slice_get program.now.nodes program.now.root) }
{
    match program.nodes.as_slice().get(program.root as usize) {
        Some(Node::Statement(Statement::Suite(statements))) => Some(statements.as_slice()),
        _ => None,
    }
}

/// A machine that has taken this text, and over which nothing waits.
fn first_machine(alloc: Global, program: Program) -> Result<Machine, NoMemory>
    ensures { IfOk result (λ machine. IsFirst program machine) }
{
    let store = start(alloc, Side::A, program.handler_names.as_slice(), 0)?;
    let mut texts = Vec::new(alloc);
    texts.push(program)?;
    Ok(Machine {
        store,
        texts,
        stack: Vec::new(alloc),
        handled: Items::new(alloc),
        printing: Items::new(alloc),
        classes: Items::new(alloc),
        printed: String::new(alloc),
    })
}
