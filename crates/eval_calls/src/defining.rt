ghost use Rattle.std.specs.Prelude.{IfOk, List};
ghost use Rattle.eval_frames.specs.declared.frame.Frame.{Frame};
ghost use Rattle.eval_frames.specs.Meaning.{IsLight, MeansOver};
ghost use Rattle.side_trees.specs.Trees.{Return};
ghost use Rattle.language_rules.specs.AtOnce.{stated};
ghost use Rattle.language_rules.specs.Going.{done};
ghost use Rattle.language_rules.specs.Names.{binds_name};
ghost use Rattle.language_rules.specs.States.{State};
ghost use Rattle.language_rules.specs.Statements.{def_rule};

use crate::making::make_cell;
use eval_frames::{Next, answered};
use eval_names::{bind_name, function_at};
use object_operations::{Completion, Env};
use py_ast::Program;
use py_store::{Cell, Store};
use rp_base::{Beyond, NoMemory, Plain, Text, Value};
use std::alloc::Global;

/// A `def`: the function is made in the scope that runs, and bound to its name (Python Language Reference, "Function
/// definitions"). `Leave(NotYet)` where the text has no such function.
pub fn begin_def(
    alloc: Global,
    store: &mut Store,
    texts: &[Program],
    env: Env,
    function: u32,
) -> Result<Next, NoMemory>
    ensures means { IfOk result (λ next. (fixed : State) (stack : List Frame) → MeansOver (stated fixed store.old.cells texts.now) (stated fixed store.new.cells texts.now) stack next (def_rule env function) stack) }
    ensures light { IfOk result (λ next. (stack : List Frame) → IsLight stack next stack) }
{
    let Some(info) = function_at(texts, env.text, function) else {
        return Ok(Next::Leave(Beyond::NotYet));
    };
    let name = info.name.copy(alloc)?;
    let cell = Cell::Function {
        text: env.text,
        function,
        scope: env.scope,
    };
    let number = make_cell(store, cell)?;
    bind_function(alloc, store, texts, env, name, Value::Own(number))
}

/// The name stands for the function from now on.
fn bind_function(
    alloc: Global,
    store: &mut Store,
    texts: &[Program],
    env: Env,
    name: Text,
    value: Value,
) -> Result<Next, NoMemory>
    ensures means { IfOk result (λ next. (fixed : State) (stack : List Frame) → MeansOver (stated fixed store.old.cells texts.now) (stated fixed store.new.cells texts.now) stack next (binds_name env name value (Return done)) stack) }
    ensures light { IfOk result (λ next. (stack : List Frame) → IsLight stack next stack) }
{
    match bind_name(alloc, store, texts, env, name, value) {
        Ok(()) => Ok(Next::Give(Completion::Gives(Value::Plain(Plain::None)))),
        Err(end) => answered(Err(end)),
    }
}
