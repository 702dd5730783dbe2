ghost use Rattle.std.specs.Prelude.{IfOk, List, None, Some, reverse};
ghost use Rattle.py_ast.specs.declared.program.Program.{Program};
ghost use Rattle.side_trees.specs.Trees.{Return};
ghost use Rattle.eval_frames.specs.declared.frame.Frame.{Frame};
ghost use Rattle.eval_frames.specs.declared.frame.Gathering.TheVariants as gathering;
ghost use Rattle.eval_frames.specs.Meaning.{IsLight, Means, MeansIn, gathers, handling_in};
ghost use Rattle.language_rules.specs.Codes.{Raises};
ghost use Rattle.language_rules.specs.Going.{evaluates_all};
ghost use Rattle.language_rules.specs.Handlers.{handled_or, on_handled};
ghost use Rattle.language_rules.specs.Raising.{raise_again_rule, raise_call_rule, raise_name_rule, raise_with};
ghost use Rattle.language_rules.specs.States.{State};

use crate::classes::class_named;
use crate::handled::{current, named};
use crate::naming::unbound;
use eval_frames::{ExpressionFrame, Frame, Gathering, Next, enter_over, waiting_numbers};
use object_operations::{Completion, Env, Handling};
use rp_base::{Beyond, ExcKind, NoMemory, Raised};
use sqlite_items::Items;
use std::alloc::Global;

/// `raise` alone: the exception that this run of code handles is raised again (Python Language Reference, "The raise
/// statement").
pub fn raise_again(alloc: Global, handled: &[Handling], env: Env) -> Result<Next, NoMemory>
    ensures means { IfOk result (λ next. (fixed : State) (texts : List Program) (stack : List Frame) → MeansIn (handling_in fixed texts handled.now) stack next (raise_again_rule env) stack) }
    ensures light { IfOk result (λ next. (stack : List Frame) → IsLight stack next stack) }
{
    match current(handled, env) {
        Some(handling) => Ok(Next::Give(Completion::Raises(handling.raised.copy(alloc)?))),
        None => Ok(Next::Leave(Beyond::NotYet)),
    }
}

/// `raise` of a class, or of the name that a handler gives its exception.
pub fn raise_name(
    alloc: Global,
    handled: &[Handling],
    env: Env,
    name: &str,
) -> Result<Next, NoMemory>
    ensures means { IfOk result (λ next. (fixed : State) (texts : List Program) (stack : List Frame) → MeansIn (handling_in fixed texts handled.now) stack next (raise_name_rule env name.now) stack) }
    ensures light { IfOk result (λ next. (stack : List Frame) → IsLight stack next stack) }
{
    match class_named(name) {
        Some(kind) => Ok(Next::Give(Completion::Raises(Raised {
            kind,
            args: Items::new(alloc),
        }))),
        None => raise_named(alloc, handled, env, name),
    }
}

/// `raise` of the name that a handler gives its exception.
fn raise_named(alloc: Global, handled: &[Handling], env: Env, name: &str) -> Result<Next, NoMemory>
    ensures means { IfOk result (λ next. (fixed : State) (texts : List Program) (stack : List Frame) → MeansIn (handling_in fixed texts handled.now) stack next (on_handled env name.now (λ r. Return (Raises r))) stack) }
    ensures light { IfOk result (λ next. (stack : List Frame) → IsLight stack next stack) }
{
    match named(handled, env, name) {
        Some(handling) => raise_handling(alloc, env, name, handling),
        None => Ok(Next::Leave(Beyond::NotYet)),
    }
}

fn raise_handling(
    alloc: Global,
    env: Env,
    name: &str,
    handling: &Handling,
) -> Result<Next, NoMemory>
    ensures means { IfOk result (λ next. (stack : List Frame) → Means stack next (handled_or env name.now (λ r. Return (Raises r)) (Some handling.now)) stack) }
    ensures light { IfOk result (λ next. (stack : List Frame) → IsLight stack next stack) }
{
    if !handling.bound {
        return unbound(alloc, env, name);
    }
    Ok(Next::Give(Completion::Raises(handling.raised.copy(alloc)?)))
}

/// `raise` of a class with arguments, maybe none. That arguments stand behind a name that is no class, as in no accepted
/// text, is not built.
pub fn begin_raise_call(
    alloc: Global,
    stack: &mut Vec<Frame>,
    env: Env,
    name: &str,
    arguments: &[u32],
) -> Result<Next, NoMemory>
    ensures means { IfOk result (λ next. Means stack.new.items next (raise_call_rule env name.now arguments.now) stack.old.items) }
    ensures light { IfOk result (λ next. IsLight stack.new.items next stack.old.items) }
{
    match class_named(name) {
        Some(kind) => raise_class(alloc, stack, env, kind, arguments),
        None => raise_nothing(arguments),
    }
}

/// What is no class is not raised.
fn raise_nothing(arguments: &[u32]) -> Result<Next, NoMemory>
    ensures means { IfOk result (λ next. (env : Env) (stack : List Frame) → Means stack next (evaluates_all env arguments.now (raise_with None)) stack) }
    ensures light { IfOk result (λ next. (stack : List Frame) → IsLight stack next stack) }
{
    match arguments {
        [] => Ok(Next::Leave(Beyond::NotYet)),
        _ => Err(NoMemory),
    }
}

/// The arguments of an exception are evaluated, from the left, and then it is raised.
fn raise_class(
    alloc: Global,
    stack: &mut Vec<Frame>,
    env: Env,
    kind: ExcKind,
    arguments: &[u32],
) -> Result<Next, NoMemory>
    ensures means { IfOk result (λ next. Means stack.new.items next (evaluates_all env arguments.now (gathers (gathering.Raise kind))) stack.old.items) }
    ensures light { IfOk result (λ next. IsLight stack.new.items next stack.old.items) }
{
    let waiting = waiting_numbers(alloc, arguments)?;
    evaluate_first(alloc, stack, env, kind, waiting)
}

/// The arguments that wait, the next one at the end.
fn evaluate_first(
    alloc: Global,
    stack: &mut Vec<Frame>,
    env: Env,
    kind: ExcKind,
    mut waiting: Items<u32>,
) -> Result<Next, NoMemory>
    ensures means { IfOk result (λ next. Means stack.new.items next (evaluates_all env (reverse waiting) (gathers (gathering.Raise kind))) stack.old.items) }
    ensures light { IfOk result (λ next. IsLight stack.new.items next stack.old.items) }
{
    match waiting.pop() {
        Some(argument) => {
            let frame = ExpressionFrame::Operands {
                env,
                gathering: Gathering::Raise(kind),
                values: Items::new(alloc),
                waiting,
            };
            enter_over(stack, Frame::Expression(frame), env, argument)
        }
        None => Ok(Next::Give(Completion::Raises(Raised {
            kind,
            args: Items::new(alloc),
        }))),
    }
}
