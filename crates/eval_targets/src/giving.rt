ghost use Rattle.std.specs.Prelude.{IfOk};
ghost use Rattle.eval_frames.specs.Meaning.{IsLight, Means, MeansOver};
ghost use Rattle.eval_frames.specs.TargetFrames.{through_target};
ghost use Rattle.language_rules.specs.AtOnce.{stated};
ghost use Rattle.language_rules.specs.States.{State};

use crate::assigning::assign_each;
use crate::augmenting::{augment_attribute, augment_item, enter_right, store_augmented};
use crate::deleting::{delete_attribute, delete_item};
use crate::storing::store_value;
use eval_frames::{Destination, Frame, Next, TargetFrame, enter_over};
use object_operations::Completion;
use py_ast::Program;
use py_store::Store;
use rp_base::{NoMemory, Plain, Value};
use std::alloc::Global;

/// An assignment, an augmented assignment or a `del` goes on with the value that it waited for.
pub fn give_target(
    alloc: Global,
    stack: &mut Vec<Frame>,
    store: &mut Store,
    texts: &[Program],
    frame: TargetFrame,
    value: Value,
) -> Result<Next, NoMemory>
    ensures means { IfOk result (λ next. (fixed : State) → MeansOver (stated fixed store.old.cells texts.now) (stated fixed store.new.cells texts.now) stack.new.items next (through_target frame value) stack.old.items) }
    ensures light { IfOk result (λ next. IsLight stack.new.items next stack.old.items) }
{
    match frame {
        TargetFrame::AttributeReceiver {
            name,
            value: stored,
        } => {
            let receiver = value;
            let destination = Destination::Attribute { receiver, name };
            store_value(alloc, stack, destination, stored)
        }
        TargetFrame::ItemReceiver {
            env,
            key,
            value: stored,
        } => {
            let frame = TargetFrame::ItemKey {
                receiver: value,
                value: stored,
            };
            enter_over(stack, Frame::Target(frame), env, key)
        }
        TargetFrame::ItemKey {
            receiver,
            value: stored,
        } => {
            let destination = Destination::Item {
                receiver,
                key: value,
            };
            store_value(alloc, stack, destination, stored)
        }
        TargetFrame::Done => Ok(Next::Give(Completion::Gives(Value::Plain(Plain::None)))),
        TargetFrame::Each {
            env,
            targets,
            values,
        } => { assign_each(alloc, stack, store, texts, env, targets, values) }
        TargetFrame::AugmentedReceiver {
            env,
            op,
            right,
            name,
        } => { augment_attribute(alloc, stack, env, op, right, value, name) }
        TargetFrame::AugmentedItemReceiver {
            env,
            op,
            right,
            key,
        } => {
            let frame = TargetFrame::AugmentedKey {
                env,
                op,
                right,
                receiver: value,
            };
            enter_over(stack, Frame::Target(frame), env, key)
        }
        TargetFrame::AugmentedKey {
            env,
            op,
            right,
            receiver,
        } => { augment_item(alloc, stack, env, op, right, receiver, value) }
        TargetFrame::AugmentedOld {
            env,
            op,
            right,
            destination,
        } => { enter_right(stack, env, op, right, destination, value) }
        TargetFrame::AugmentedRight {
            op,
            old,
            destination,
        } => { store_augmented(alloc, stack, store, op, destination, old, value) }
        TargetFrame::Store(destination) => store_value(alloc, stack, destination, value),
        TargetFrame::DeletedReceiver { name } => delete_attribute(stack, value, name),
        TargetFrame::DeletedItemReceiver { env, key } => {
            let frame = TargetFrame::DeletedKey { receiver: value };
            enter_over(stack, Frame::Target(frame), env, key)
        }
        TargetFrame::DeletedKey { receiver } => delete_item(alloc, stack, receiver, value),
    }
}
