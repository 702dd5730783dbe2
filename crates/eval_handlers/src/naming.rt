ghost use Rattle.std.specs.Prelude.{◌≡◌, ◌∷◌, [], IfOk, List, Some};
ghost use Rattle.rp_base.specs.declared.plain.Plain.TheVariants as plain;
ghost use Rattle.py_ast.specs.declared.program.Program.{Program};
ghost use Rattle.eval_frames.specs.declared.frame.Frame.{Frame};
ghost use Rattle.eval_frames.specs.HandlerFrames.{reads_handler};
ghost use Rattle.eval_frames.specs.Meaning.{IsLight, Means, MeansIn, handling_in};
ghost use Rattle.language_rules.specs.Going.{fails, raised};
ghost use Rattle.language_rules.specs.Handlers.{handled_or, unbound_handler};
ghost use Rattle.language_rules.specs.States.{State};
ghost use Rattle.eval_handlers.specs.Telling.{tells};

use crate::handled::named;
use crate::telling::tell;
use eval_frames::{HandlerReading, Next};
use object_operations::{Completion, Env, Handling};
use rp_base::{Beyond, ExcKind, NoMemory, Plain, Raised, Text};
use sqlite_items::Items;
use std::alloc::Global;

/// What is asked of the exception that the name stands for.
pub(crate) fn read_handler(
    alloc: Global,
    handled: &[Handling],
    env: Env,
    name: &str,
    reading: HandlerReading,
) -> Result<Next, NoMemory>
    ensures means { IfOk result (λ next. (fixed : State) (texts : List Program) (stack : List Frame) → MeansIn (handling_in fixed texts handled.now) stack next (reads_handler reading env name.now) stack) }
    ensures light { IfOk result (λ next. (stack : List Frame) → IsLight stack next stack) }
{
    match named(handled, env, name) {
        Some(handling) => read_handling(alloc, env, name, handling, reading),
        None => Ok(Next::Leave(Beyond::NotYet)),
    }
}

fn read_handling(
    alloc: Global,
    env: Env,
    name: &str,
    handling: &Handling,
    reading: HandlerReading,
) -> Result<Next, NoMemory>
    ensures means { IfOk result (λ next. (stack : List Frame) → Means stack next (handled_or env name.now (tells reading) (Some handling.now)) stack) }
    ensures light { IfOk result (λ next. (stack : List Frame) → IsLight stack next stack) }
{
    if !handling.bound {
        return unbound(alloc, env, name);
    }
    tell(alloc, &handling.raised, reading)
}

/// The name no longer stands for an exception: it is an unbound variable of a function, or an unbound global name.
pub(crate) fn unbound(alloc: Global, env: Env, name: &str) -> Result<Next, NoMemory>
    ensures means { IfOk result (λ next. (stack : List Frame) → Means stack next (unbound_handler env.function name.now) stack) }
    ensures light { IfOk result (λ next. (stack : List Frame) → IsLight stack next stack) }
{
    match env.function {
        Some(_) => fail(alloc, ExcKind::UnboundLocalError, name),
        None => fail(alloc, ExcKind::NameError, name),
    }
}

fn fail(alloc: Global, kind: ExcKind, text: &str) -> Result<Next, NoMemory>
    ensures means { IfOk result (λ next. (stack : List Frame) → Means stack next (fails kind text.now) stack) }
    ensures light { IfOk result (λ next. (stack : List Frame) → IsLight stack next stack) }
{
    let raised = exception(alloc, kind, text)?;
    Ok(Next::Give(Completion::Raises(raised)))
}

fn exception(alloc: Global, kind: ExcKind, text: &str) -> Result<Raised, NoMemory>
    ensures { IfOk result (λ r. r ≡ raised kind (plain.Text text.now ∷ [])) }
{
    let mut args = Items::new(alloc);
    args.push(Plain::Text(Text::from_str(alloc, text)?))?;
    Ok(Raised { kind, args })
}
