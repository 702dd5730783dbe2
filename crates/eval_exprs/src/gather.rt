ghost use Rattle.std.specs.Prelude.{IfOk, List, reverse};
ghost use Rattle.eval_frames.specs.declared.frame.Frame.{Frame};
ghost use Rattle.py_ast.specs.declared.builtin.Builtin.TheVariants as builtin;
ghost use Rattle.eval_frames.specs.declared.frame.Gathering.TheVariants as gathering;
ghost use Rattle.eval_frames.specs.Meaning.{IsLight, Means, gathers};
ghost use Rattle.language_rules.specs.Going.{evaluates_all, evaluates_behind};
ghost use Rattle.eval_exprs.specs.Steps.{MeansAt};

use crate::builtins::call_function;
use crate::making::{new_dict, new_list};
use crate::raising::raise;
use eval_frames::{ExpressionFrame, Frame, Gathering, Next, enter_over, waiting_numbers};
use object_operations::{Completion, Env};
use py_ast::Builtin;
use py_store::Store;
use rp_base::{NoMemory, TupleEnd, Value, make_tuple};
use sqlite_items::Items;
use std::alloc::Global;

/// Expressions are evaluated one after another, for what is made of their values.
pub fn gather(
    alloc: Global,
    stack: &mut Vec<Frame>,
    store: &Store,
    env: Env,
    gathering: Gathering,
    expressions: &[u32],
) -> Result<Next, NoMemory>
    ensures means { IfOk result (λ next. MeansAt store.now.cells stack.new.items next (evaluates_all env expressions.now (gathers gathering)) stack.old.items) }
    ensures light { IfOk result (λ next. IsLight stack.new.items next stack.old.items) }
{
    let waiting = waiting_numbers(alloc, expressions)?;
    gather_further(
        alloc,
        stack,
        store,
        env,
        gathering,
        Items::new(alloc),
        waiting,
    )
}

/// The expressions that wait, behind these values.
pub fn gather_further(
    alloc: Global,
    stack: &mut Vec<Frame>,
    store: &Store,
    env: Env,
    gathering: Gathering,
    values: Items<Value>,
    mut waiting: Items<u32>,
) -> Result<Next, NoMemory>
    ensures means { IfOk result (λ next. MeansAt store.now.cells stack.new.items next (evaluates_behind env values (reverse waiting) (gathers gathering)) stack.old.items) }
    ensures light { IfOk result (λ next. IsLight stack.new.items next stack.old.items) }
{
    match waiting.pop() {
        Some(expression) => {
            let frame = ExpressionFrame::Operands {
                env,
                gathering,
                values,
                waiting,
            };
            enter_over(stack, Frame::Expression(frame), env, expression)
        }
        None => gathered(alloc, stack, store, gathering, values),
    }
}

/// What is made of values that are all there.
fn gathered(
    alloc: Global,
    stack: &mut Vec<Frame>,
    store: &Store,
    gathering: Gathering,
    values: Items<Value>,
) -> Result<Next, NoMemory>
    ensures means { IfOk result (λ next. MeansAt store.now.cells stack.new.items next (gathers gathering values) stack.old.items) }
    ensures light { IfOk result (λ next. IsLight stack.new.items next stack.old.items) }
{
    match gathering {
        Gathering::Tuple => tuple(alloc, values),
        Gathering::List => new_list(alloc, values),
        Gathering::Dict => new_dict(alloc, values),
        Gathering::Raise(kind) => raise(alloc, kind, values),
        Gathering::Builtin(Builtin::Print) => print(values),
        Gathering::Builtin(function) => call_function(alloc, stack, store, function, values),
    }
}

fn tuple(alloc: Global, values: Items<Value>) -> Result<Next, NoMemory>
    ensures means { IfOk result (λ next. (stack : List Frame) → Means stack next (gathers gathering.Tuple values) stack) }
    ensures light { IfOk result (λ next. (stack : List Frame) → IsLight stack next stack) }
{
    match make_tuple(alloc, values) {
        Ok(tuple) => Ok(Next::Give(Completion::Gives(tuple))),
        Err(TupleEnd::Beyond(beyond)) => Ok(Next::Leave(beyond)),
        Err(TupleEnd::NoMemory) => Err(NoMemory),
    }
}

#[tactic(auto, unfolding(language_rules::specs::Builtins::builtin_rule))]
fn print(values: Items<Value>) -> Result<Next, NoMemory>
    ensures means { IfOk result (λ next. (stack : List Frame) → Means stack next (gathers (gathering.Builtin builtin.Print) values) stack) }
    ensures light { IfOk result (λ next. (stack : List Frame) → IsLight stack next stack) }
{
    Ok(Next::Print(values))
}
