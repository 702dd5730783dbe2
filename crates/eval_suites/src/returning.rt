ghost use Rattle.std.specs.Prelude.{◌-◌, ◌≤◌, IfOk, Some};
ghost use Rattle.language_rules.specs.Statements.{return_rule};
ghost use Rattle.eval_suites.specs.Within.{IsWithin, MeansWithin};

use eval_at_once::{DEPTH, evaluate};
use eval_frames::{Frame, Next, StatementFrame, enter_over};
use object_operations::{Completion, Env};
use py_ast::Program;
use py_store::Store;
use rp_base::NoMemory;
use std::alloc::Global;

/// A `return` with an expression (Python Language Reference, "The return statement").
pub fn return_value(
    alloc: Global,
    stack: &mut Vec<Frame>,
    store: &Store,
    texts: &[Program],
    env: Env,
    value: u32,
    fuel: &mut u64,
) -> Result<Next, NoMemory>
    ensures means { IfOk result (λ next. MeansWithin texts.now store.now (return_rule env (Some value)) stack.old.items (fuel.old - fuel.new) store.now next stack.new.items) }
    ensures light { IfOk result (λ next. IsWithin 12 stack.old.items fuel.old stack.new.items next fuel.new) }
    ensures spent { fuel.new ≤ fuel.old }
{
    match evaluate(alloc, store, texts, env, value, *fuel, DEPTH) {
        Some(evaluated) => {
            *fuel = evaluated.left;
            Ok(Next::Give(Completion::Returns(evaluated.value)))
        }
        None => enter_over(stack, Frame::Statement(StatementFrame::Return), env, value),
    }
}
