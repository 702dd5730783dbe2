ghost use Rattle.std.specs.Prelude.{◌∷◌, [], IfOk, List};
ghost use Rattle.object_operations.specs.declared.operation.Operation.TheVariants as operation;
ghost use Rattle.object_operations.specs.declared.special.Special.TheVariants as special;
ghost use Rattle.py_store.specs.declared.cell.Cell.{Cell};
ghost use Rattle.side_trees.specs.Trees.{Return};
ghost use Rattle.eval_frames.specs.Meaning.{IsLight, Means, MeansIn};
ghost use Rattle.language_rules.specs.AtOnce.{stated};
ghost use Rattle.language_rules.specs.Going.{asks, done};
ghost use Rattle.language_rules.specs.States.{State};
ghost use Rattle.language_rules.specs.Targets.{delete_rule, deletes_target};

use eval_frames::{Frame, Next, TargetFrame, enter_over, node_at, operate_over, special_with};
use object_operations::{Env, Operation, Special};
use py_ast::{Node, Program, Target};
use rp_base::{Beyond, NoMemory, Text, Value};
use std::alloc::Global;

/// A `del` begins with the receiver of its target, an attribute or an item.
pub fn begin_delete(
    alloc: Global,
    stack: &mut Vec<Frame>,
    texts: &[Program],
    env: Env,
    target: u32,
) -> Result<Next, NoMemory>
    ensures means { IfOk result (λ next. (fixed : State) (cells : List Cell) → MeansIn (stated fixed cells texts.now) stack.new.items next (delete_rule env target) stack.old.items) }
    ensures light { IfOk result (λ next. IsLight stack.new.items next stack.old.items) }
{
    let Some(Node::Target(found)) = node_at(texts, env, target) else {
        return Ok(Next::Leave(Beyond::NotYet));
    };
    delete_target(alloc, stack, env, found)
}

fn delete_target(
    alloc: Global,
    stack: &mut Vec<Frame>,
    env: Env,
    target: &Target,
) -> Result<Next, NoMemory>
    ensures means { IfOk result (λ next. Means stack.new.items next (deletes_target env target.now) stack.old.items) }
    ensures light { IfOk result (λ next. IsLight stack.new.items next stack.old.items) }
{
    match target {
        Target::Attribute { receiver, name } => {
            let name = name.copy(alloc)?;
            enter_over(
                stack,
                Frame::Target(TargetFrame::DeletedReceiver { name }),
                env,
                *receiver,
            )
        }
        Target::Item { receiver, key } => enter_over(
            stack,
            Frame::Target(TargetFrame::DeletedItemReceiver { env, key: *key }),
            env,
            *receiver,
        ),
        Target::Name(_) => Ok(Next::Leave(Beyond::NotYet)),
        Target::Tuple(_) => Ok(Next::Leave(Beyond::NotYet)),
    }
}

/// An attribute is taken out: its object is asked.
pub(crate) fn delete_attribute(
    stack: &mut Vec<Frame>,
    receiver: Value,
    name: Text,
) -> Result<Next, NoMemory>
    ensures means { IfOk result (λ next. Means stack.new.items next (asks (operation.DelAttr receiver name) (λ a. Return done)) stack.old.items) }
    ensures light { IfOk result (λ next. IsLight stack.new.items next stack.old.items) }
{
    operate_over(
        stack,
        Frame::Target(TargetFrame::Done),
        Operation::DelAttr { receiver, name },
    )
}

/// An item is taken out: its object is asked.
pub(crate) fn delete_item(
    alloc: Global,
    stack: &mut Vec<Frame>,
    receiver: Value,
    key: Value,
) -> Result<Next, NoMemory>
    ensures means { IfOk result (λ next. Means stack.new.items next (asks (operation.Special receiver special.DelItem (key ∷ [])) (λ a. Return done)) stack.old.items) }
    ensures light { IfOk result (λ next. IsLight stack.new.items next stack.old.items) }
{
    let operation = special_with(alloc, receiver, Special::DelItem, key)?;
    operate_over(stack, Frame::Target(TargetFrame::Done), operation)
}
