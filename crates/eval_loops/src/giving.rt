ghost use Rattle.std.specs.Prelude.{IfOk};
ghost use Rattle.eval_frames.specs.LoopFrames.{through_for};
ghost use Rattle.eval_frames.specs.declared.loop_frames.ForFrame.TheVariants as for_frame;
ghost use Rattle.eval_frames.specs.Meaning.{IsLight, Means, MeansIn, MeansOver};
ghost use Rattle.language_rules.specs.AtOnce.{stated};
ghost use Rattle.language_rules.specs.Beginnings.{for_begins};
ghost use Rattle.language_rules.specs.States.{State};

use crate::items::give_item;
use crate::turns::{ask_next, end_target, end_turn};
use eval_frames::{ForFrame, Frame, Next, enter_over, operate_over, special};
use object_operations::{Completion, Env, Special};
use py_ast::Program;
use py_store::Store;
use rp_base::NoMemory;
use std::alloc::Global;

/// A `for` begins with what it goes over (Python Language Reference, "The for statement").
pub fn begin_for(
    stack: &mut Vec<Frame>,
    env: Env,
    target: u32,
    source: u32,
    body: u32,
) -> Result<Next, NoMemory>
    ensures means { IfOk result (λ next. Means stack.new.items next (for_begins env target source body) stack.old.items) }
    ensures light { IfOk result (λ next. IsLight stack.new.items next stack.old.items) }
{
    enter_over(
        stack,
        Frame::For(ForFrame::Source { env, target, body }),
        env,
        source,
    )
}

/// A `for` goes on with the end that it waited for.
pub fn give_for(
    alloc: Global,
    stack: &mut Vec<Frame>,
    store: &mut Store,
    texts: &[Program],
    frame: ForFrame,
    completion: Completion,
) -> Result<Next, NoMemory>
    ensures means { IfOk result (λ next. (fixed : State) → MeansOver (stated fixed store.old.cells texts.now) (stated fixed store.new.cells texts.now) stack.new.items next (through_for frame completion) stack.old.items) }
    ensures light { IfOk result (λ next. IsLight stack.new.items next stack.old.items) }
{
    match frame {
        ForFrame::Source { env, target, body } => {
            give_source(alloc, stack, env, target, body, completion)
        }
        ForFrame::Iterator { env, target, body } => {
            give_iterator(alloc, stack, env, target, body, completion)
        }
        ForFrame::Item {
            env,
            target,
            body,
            iterator,
        } => give_item(
            alloc, stack, store, texts, env, target, body, iterator, completion,
        ),
        ForFrame::Target {
            env,
            target,
            body,
            iterator,
        } => end_target(alloc, stack, texts, env, target, body, iterator, completion),
        ForFrame::Body {
            env,
            target,
            body,
            iterator,
        } => end_turn(alloc, stack, env, target, body, iterator, completion),
    }
}

/// What is gone over is asked for its iterator, once.
fn give_source(
    alloc: Global,
    stack: &mut Vec<Frame>,
    env: Env,
    target: u32,
    body: u32,
    completion: Completion,
) -> Result<Next, NoMemory>
    ensures means { IfOk result (λ next. Means stack.new.items next (through_for (for_frame.Source env target body) completion) stack.old.items) }
    ensures light { IfOk result (λ next. IsLight stack.new.items next stack.old.items) }
{
    match completion {
        Completion::Gives(source) => operate_over(
            stack,
            Frame::For(ForFrame::Iterator { env, target, body }),
            special(alloc, source, Special::Iter),
        ),
        Completion::Raises(raised) => Ok(Next::Give(Completion::Raises(raised))),
        Completion::Returns(value) => Ok(Next::Give(Completion::Returns(value))),
        Completion::Breaks => Ok(Next::Give(Completion::Breaks)),
        Completion::Continues => Ok(Next::Give(Completion::Continues)),
        Completion::Drained(values) => Ok(Next::Give(Completion::Drained(values))),
    }
}

/// The iterator is asked for the first item.
fn give_iterator(
    alloc: Global,
    stack: &mut Vec<Frame>,
    env: Env,
    target: u32,
    body: u32,
    completion: Completion,
) -> Result<Next, NoMemory>
    ensures means { IfOk result (λ next. (s : State) → MeansIn s stack.new.items next (through_for (for_frame.Iterator env target body) completion) stack.old.items) }
    ensures light { IfOk result (λ next. IsLight stack.new.items next stack.old.items) }
{
    match completion {
        Completion::Gives(iterator) => ask_next(alloc, stack, env, target, body, iterator),
        Completion::Raises(raised) => Ok(Next::Give(Completion::Raises(raised))),
        Completion::Returns(value) => Ok(Next::Give(Completion::Returns(value))),
        Completion::Breaks => Ok(Next::Give(Completion::Breaks)),
        Completion::Continues => Ok(Next::Give(Completion::Continues)),
        Completion::Drained(values) => Ok(Next::Give(Completion::Drained(values))),
    }
}
