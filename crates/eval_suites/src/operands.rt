ghost use Rattle.std.specs.Prelude.{◌-◌, ◌≤◌, IfOk, List, reverse};
ghost use Rattle.rp_base.specs.declared.value.Value.{Value};
ghost use Rattle.eval_frames.specs.Meaning.{calls, gathers};
ghost use Rattle.language_rules.specs.Going.{RuleTree, evaluates_behind};
ghost use Rattle.eval_suites.specs.Within.{GoesOnAs, IsWithin, MeansWithin};

use eval_at_once::{DEPTH, evaluate};
use eval_exprs::{gather_arguments, gather_further};
use eval_frames::{Frame, Gathering, Next};
use object_operations::Env;
use py_ast::Program;
use py_store::Store;
use rp_base::{NoMemory, Value};
use sqlite_items::Items;
use std::alloc::Global;

/// The expressions that wait, the next one at the end, are evaluated behind these values, for what is made of all.
pub fn gather_within(
    alloc: Global,
    stack: &mut Vec<Frame>,
    store: &Store,
    texts: &[Program],
    env: Env,
    gathering: Gathering,
    values: Items<Value>,
    waiting: Items<u32>,
    fuel: &mut u64,
) -> Result<Next, NoMemory>
    ensures means { IfOk result (λ next. MeansWithin texts.now store.now (evaluates_behind env values (reverse waiting) (gathers gathering)) stack.old.items (fuel.old - fuel.new) store.now next stack.new.items) }
    ensures light { IfOk result (λ next. IsWithin 12 stack.old.items fuel.old stack.new.items next fuel.new) }
    ensures spent { fuel.new ≤ fuel.old }
{
    let mut values = values;
    let mut waiting = waiting;
    let left = evaluate_waiting(alloc, store, texts, env, &mut values, &mut waiting, *fuel)?;
    *fuel = left;
    gather_further(alloc, stack, store, env, gathering, values, waiting)
}

/// The arguments of a call that wait are evaluated behind these values; then the call itself.
pub fn call_within(
    alloc: Global,
    stack: &mut Vec<Frame>,
    store: &Store,
    texts: &[Program],
    env: Env,
    callee: Value,
    values: Items<Value>,
    waiting: Items<u32>,
    fuel: &mut u64,
) -> Result<Next, NoMemory>
    ensures means { IfOk result (λ next. MeansWithin texts.now store.now (evaluates_behind env values (reverse waiting) (calls callee)) stack.old.items (fuel.old - fuel.new) store.now next stack.new.items) }
    ensures light { IfOk result (λ next. IsWithin 12 stack.old.items fuel.old stack.new.items next fuel.new) }
    ensures spent { fuel.new ≤ fuel.old }
{
    let mut values = values;
    let mut waiting = waiting;
    let left = evaluate_waiting(alloc, store, texts, env, &mut values, &mut waiting, *fuel)?;
    *fuel = left;
    gather_arguments(stack, env, callee, values, waiting)
}

/// Evaluates the expressions that wait as far as that is to be had at once, and tells the units that are left.
fn evaluate_waiting(
    alloc: Global,
    store: &Store,
    texts: &[Program],
    env: Env,
    values: &mut Items<Value>,
    waiting: &mut Items<u32>,
    units: u64,
) -> Result<u64, NoMemory>
    ensures goes { IfOk result (λ left. (f : List Value → RuleTree) → GoesOnAs texts.now store.now (evaluates_behind env values.old (reverse waiting.old) f) (units - left) store.now (evaluates_behind env values.new (reverse waiting.new) f)) }
    ensures spent { IfOk result (λ left. left ≤ units) }
{
    let mut left = units;
    'operands: loop {
        match waiting.pop() {
            Some(number) => match evaluate(alloc, store, texts, env, number, left, DEPTH) {
                Some(evaluated) => {
                    values.push(evaluated.value)?;
                    left = evaluated.left;
                }
                None => {
                    waiting.push(number)?;
                    return Ok(left);
                }
            },
            None => return Ok(left),
        }
    }
}
