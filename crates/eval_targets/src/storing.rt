ghost use Rattle.std.specs.Prelude.{◌≡◌, IfOk};
ghost use Rattle.eval_frames.specs.Meaning.{IsLight, Means};
ghost use Rattle.eval_frames.specs.TargetFrames.{stores};
ghost use Rattle.eval_targets.specs.Settled.{storing};

use eval_frames::{Destination, Frame, Next, TargetFrame, operate_over};
use object_operations::{Operation, Special};
use rp_base::{NoMemory, Value};
use sqlite_items::Items;
use std::alloc::Global;

/// The value goes to an attribute or an item: its object is asked.
pub(crate) fn store_value(
    alloc: Global,
    stack: &mut Vec<Frame>,
    destination: Destination,
    value: Value,
) -> Result<Next, NoMemory>
    ensures means { IfOk result (λ next. Means stack.new.items next (stores destination value) stack.old.items) }
    ensures light { IfOk result (λ next. IsLight stack.new.items next stack.old.items) }
{
    let operation = storing(alloc, destination, value)?;
    operate_over(stack, Frame::Target(TargetFrame::Done), operation)
}

fn storing(alloc: Global, destination: Destination, value: Value) -> Result<Operation, NoMemory>
    ensures { IfOk result (λ o. o ≡ storing destination value) }
{
    match destination {
        Destination::Attribute { receiver, name } => Ok(Operation::SetAttr {
            receiver,
            name,
            value,
        }),
        Destination::Item { receiver, key } => {
            let mut arguments = Items::new(alloc);
            arguments.push(key)?;
            arguments.push(value)?;
            Ok(Operation::Special {
                receiver,
                special: Special::SetItem,
                arguments,
            })
        }
    }
}
