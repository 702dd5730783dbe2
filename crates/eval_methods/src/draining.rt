ghost use Rattle.std.specs.Prelude.{IfOk, List, false};
ghost use Rattle.py_ast.specs.declared.program.Program.{Program};
ghost use Rattle.eval_frames.specs.LoopFrames.{drained};
ghost use Rattle.eval_frames.specs.Meaning.{IsLight, Means, MeansIn};
ghost use Rattle.eval_frames.specs.declared.loop_frames.Draining.TheVariants as draining;
ghost use Rattle.language_rules.specs.AtOnce.{stated};
ghost use Rattle.language_rules.specs.Codes.{AList};
ghost use Rattle.language_rules.specs.Draining.{drains_kind, goes_over};
ghost use Rattle.language_rules.specs.Kinds.{on_kind};
ghost use Rattle.language_rules.specs.States.{State};

use eval_exprs::{is_gone_over, refuse_kind};
use eval_frames::{Collection, DrainFrame, Draining, Frame, Next, operate_over, special};
use eval_ranges::kind_of_value;
use object_operations::Special;
use py_store::Store;
use rp_base::{NoMemory, Text, Value};
use std::alloc::Global;

/// A value that has no items at hand is gone over, and its items go behind those of a list.
pub(crate) fn extend_by_asking(
    alloc: Global,
    stack: &mut Vec<Frame>,
    store: &Store,
    list: u32,
    more: &Value,
) -> Result<Next, NoMemory>
    ensures means { IfOk result (λ next. (fixed : State) (texts : List Program) → MeansIn (stated fixed store.now.cells texts) stack.new.items next (on_kind more.now (drains_kind (goes_over AList more.now (drained (draining.Extend list false))))) stack.old.items) }
    ensures light { IfOk result (λ next. IsLight stack.new.items next stack.old.items) }
{
    let kind = kind_of_value(store, more);
    if is_gone_over(kind) {
        let more = more.copy(alloc)?;
        go_over(
            alloc,
            stack,
            more,
            Draining::Extend {
                list,
                is_answer: false,
            },
        )
    } else {
        refuse_kind(alloc, kind)
    }
}

/// A value that has no items at hand is gone over, and its items are joined by a text.
pub(crate) fn join_by_asking(
    alloc: Global,
    stack: &mut Vec<Frame>,
    store: &Store,
    text: &str,
    parts: &Value,
) -> Result<Next, NoMemory>
    ensures means { IfOk result (λ next. (fixed : State) (texts : List Program) → MeansIn (stated fixed store.now.cells texts) stack.new.items next (on_kind parts.now (drains_kind (goes_over AList parts.now (drained (draining.Join text.now))))) stack.old.items) }
    ensures light { IfOk result (λ next. IsLight stack.new.items next stack.old.items) }
{
    let kind = kind_of_value(store, parts);
    if is_gone_over(kind) {
        let parts = parts.copy(alloc)?;
        let text = Text::from_str(alloc, text)?;
        go_over(alloc, stack, parts, Draining::Join(text))
    } else {
        refuse_kind(alloc, kind)
    }
}

fn go_over(
    alloc: Global,
    stack: &mut Vec<Frame>,
    value: Value,
    draining: Draining,
) -> Result<Next, NoMemory>
    ensures means { IfOk result (λ next. Means stack.new.items next (goes_over AList value (drained draining)) stack.old.items) }
    ensures light { IfOk result (λ next. IsLight stack.new.items next stack.old.items) }
{
    let frame = DrainFrame::Iterator {
        collection: Collection::List,
        draining,
    };
    operate_over(
        stack,
        Frame::Drain(frame),
        special(alloc, value, Special::Iter),
    )
}
