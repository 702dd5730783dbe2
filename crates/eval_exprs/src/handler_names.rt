ghost use Rattle.std.specs.Prelude.{◌≡◌, IfOk, None, Some, if◌then◌else◌, option_copied, slice_get};
ghost use Rattle.eval_frames.specs.HandlerFrames.{reads_handler};
ghost use Rattle.eval_frames.specs.Meaning.{IsLight, Means};
ghost use Rattle.language_rules.specs.Expressions.{behind_name};
ghost use Rattle.language_rules.specs.Texts.{handler_names_of, has_name};
ghost use Rattle.eval_exprs.specs.Callees.{handler_in, only_handler};

use eval_frames::{Frame, HandlerFrame, HandlerReading, Next, node_at};
use eval_names::has_name;
use object_operations::Env;
use py_ast::{Expression, Node, Program};
use rp_base::{NoMemory, Text};
use std::alloc::Global;

/// The name of a handler that is the only argument (Python Language Reference, "The try statement": it stands for an
/// exception, which is no value).
pub(crate) fn handler_argument(
    alloc: Global,
    texts: &[Program],
    env: Env,
    arguments: &[u32],
) -> Result<Option<Text>, NoMemory>
    ensures { IfOk result (λ name. name ≡ only_handler (slice_get texts.now env.text) arguments.now) }
{
    match arguments {
        [argument] => handler_at(alloc, texts, env, *argument),
        _ => Ok(None),
    }
}

/// The name of a handler that the node of this number is.
pub(crate) fn handler_at(
    alloc: Global,
    texts: &[Program],
    env: Env,
    number: u32,
) -> Result<Option<Text>, NoMemory>
    ensures { IfOk result (λ name. name ≡ handler_in (slice_get texts.now env.text) number) }
{
    match node_at(texts, env, number) {
        Some(Node::Expression(Expression::Name(name))) => {
            known(alloc, name, handler_names(texts, env))
        }
        _ => Ok(None),
    }
}

/// The name, where it is among these.
fn known(alloc: Global, name: &Text, names: &[Text]) -> Result<Option<Text>, NoMemory>
    ensures { IfOk result (λ found. found ≡ (if has_name name.now names.now then Some name.now else None)) }
{
    if has_name(name.as_str(), names) {
        Ok(Some(name.copy(alloc)?))
    } else {
        Ok(None)
    }
}

/// The names after `as` in a text.
fn handler_names(texts: &[Program], env: Env) -> &[Text]
    ensures { result.now ≡ handler_names_of (slice_get texts.now env.text) }
{
    match text_at(texts, env) {
        Some(program) => program.handler_names.as_slice(),
        None => &[],
    }
}

fn text_at(texts: &[Program], env: Env) -> Option<&Program>
    ensures { option_copied result ≡ slice_get texts.now env.text }
{
    texts.get(env.text as usize)
}

/// The unit of a handler's name, and then what is asked of its exception.
pub(crate) fn begin_handler_name(
    stack: &mut Vec<Frame>,
    env: Env,
    name: Text,
    reading: HandlerReading,
) -> Result<Next, NoMemory>
    ensures means { IfOk result (λ next. Means stack.new.items next (behind_name (reads_handler reading env name)) stack.old.items) }
    ensures light { IfOk result (λ next. IsLight stack.new.items next stack.old.items) }
{
    stack.push(Frame::Handler(HandlerFrame::Name { env, name, reading }))?;
    Ok(Next::HandlerName)
}
