ghost use Rattle.std.specs.Prelude.{◌∷◌, [], IfOk, List};
ghost use Rattle.object_operations.specs.declared.operation.Operation.TheVariants as operation;
ghost use Rattle.object_operations.specs.declared.special.Special.TheVariants as special;
ghost use Rattle.py_ast.specs.declared.program.Program.{Program};
ghost use Rattle.side_trees.specs.Trees.{Return, bind};
ghost use Rattle.eval_frames.specs.Meaning.{IsLight, Means, MeansIn, MeansOver};
ghost use Rattle.eval_frames.specs.TargetFrames.{stores};
ghost use Rattle.language_rules.specs.AtOnce.{stated};
ghost use Rattle.language_rules.specs.Going.{asks, done, on_value};
ghost use Rattle.language_rules.specs.Names.{binds_name, reads_name};
ghost use Rattle.language_rules.specs.Operators.{augmented_rule};
ghost use Rattle.language_rules.specs.PlainItems.{item_of};
ghost use Rattle.language_rules.specs.States.{State};
ghost use Rattle.language_rules.specs.Targets.{augmented_assignment_rule, augments, augments_target, stores_attribute, stores_item};

use crate::assigning::bind_value;
use crate::kinds::kind_of_value;
use crate::operands::{Outcome, augmented};
use crate::storing::store_value;
use eval_frames::{
    Destination, Frame, Next, StatementFrame, TargetFrame, answered, enter_over, is_reference,
    node_at, operate_over, special_with,
};
use eval_names::read_name;
use object_operations::{Env, Operation, Special};
use py_ast::{Node, Program, Target};
use py_store::Store;
use rp_base::{Beyond, BinaryOp, NoMemory, Text, Value};
use std::alloc::Global;
use value_operators::item;

/// An augmented assignment begins with the value that its name has, or with the receiver of its attribute or item.
pub fn begin_augmented(
    alloc: Global,
    stack: &mut Vec<Frame>,
    store: &Store,
    texts: &[Program],
    env: Env,
    target: u32,
    op: BinaryOp,
    right: u32,
) -> Result<Next, NoMemory>
    ensures means { IfOk result (λ next. (fixed : State) → MeansIn (stated fixed store.now.cells texts.now) stack.new.items next (augmented_assignment_rule env target op right) stack.old.items) }
    ensures light { IfOk result (λ next. IsLight stack.new.items next stack.old.items) }
{
    let Some(Node::Target(found)) = node_at(texts, env, target) else {
        return Ok(Next::Leave(Beyond::NotYet));
    };
    augment_target(alloc, stack, store, texts, env, found, op, right)
}

fn augment_target(
    alloc: Global,
    stack: &mut Vec<Frame>,
    store: &Store,
    texts: &[Program],
    env: Env,
    target: &Target,
    op: BinaryOp,
    right: u32,
) -> Result<Next, NoMemory>
    ensures means { IfOk result (λ next. (fixed : State) → MeansIn (stated fixed store.now.cells texts.now) stack.new.items next (augments_target env op right target.now) stack.old.items) }
    ensures light { IfOk result (λ next. IsLight stack.new.items next stack.old.items) }
{
    match target {
        Target::Name(name) => augment_name(alloc, stack, store, texts, env, name, op, right),
        Target::Attribute { receiver, name } => {
            let name = name.copy(alloc)?;
            let waits = TargetFrame::AugmentedReceiver {
                env,
                op,
                right,
                name,
            };
            enter_over(stack, Frame::Target(waits), env, *receiver)
        }
        Target::Item { receiver, key } => {
            let frame = TargetFrame::AugmentedItemReceiver {
                env,
                op,
                right,
                key: *key,
            };
            enter_over(stack, Frame::Target(frame), env, *receiver)
        }
        Target::Tuple(_) => Ok(Next::Leave(Beyond::NotYet)),
    }
}

/// An augmented assignment to a name begins with the value of the name.
fn augment_name(
    alloc: Global,
    stack: &mut Vec<Frame>,
    store: &Store,
    texts: &[Program],
    env: Env,
    name: &Text,
    op: BinaryOp,
    right: u32,
) -> Result<Next, NoMemory>
    ensures means { IfOk result (λ next. (fixed : State) → MeansIn (stated fixed store.now.cells texts.now) stack.new.items next (reads_name env name.now (λ old. augments env op right old (λ v. binds_name env name.now v (Return done)))) stack.old.items) }
    ensures light { IfOk result (λ next. IsLight stack.new.items next stack.old.items) }
{
    match read_name(alloc, store, texts, env, name.as_str()) {
        Ok(old) => {
            let name = name.copy(alloc)?;
            enter_over(
                stack,
                Frame::Statement(StatementFrame::AugmentName { env, op, name, old }),
                env,
                right,
            )
        }
        Err(end) => answered(Err(end)),
    }
}

/// The old value of an attribute is asked of its object, in front of the right side.
pub(crate) fn augment_attribute(
    alloc: Global,
    stack: &mut Vec<Frame>,
    env: Env,
    op: BinaryOp,
    right: u32,
    receiver: Value,
    name: Text,
) -> Result<Next, NoMemory>
    ensures means { IfOk result (λ next. Means stack.new.items next (asks (operation.GetAttr receiver name) (λ old. augments env op right old (stores_attribute receiver name))) stack.old.items) }
    ensures light { IfOk result (λ next. IsLight stack.new.items next stack.old.items) }
{
    let asked = receiver.copy(alloc)?;
    let spelled = name.copy(alloc)?;
    let operation = Operation::GetAttr {
        receiver: asked,
        name: spelled,
    };
    let destination = Destination::Attribute { receiver, name };
    ask_old(stack, env, op, right, destination, operation)
}

/// The old value of an item, in front of the right side: it is asked of an object.
pub(crate) fn augment_item(
    alloc: Global,
    stack: &mut Vec<Frame>,
    env: Env,
    op: BinaryOp,
    right: u32,
    receiver: Value,
    key: Value,
) -> Result<Next, NoMemory>
    ensures means { IfOk result (λ next. (s : State) → MeansIn s stack.new.items next (bind (item_of receiver key) (on_value (λ old. augments env op right old (stores_item receiver key)))) stack.old.items) }
    ensures light { IfOk result (λ next. IsLight stack.new.items next stack.old.items) }
{
    if is_reference(&receiver) {
        return ask_item(alloc, stack, env, op, right, receiver, key);
    }
    match item(alloc, &receiver, &key) {
        Ok(Some(old)) => {
            let destination = Destination::Item { receiver, key };
            enter_right(stack, env, op, right, destination, old)
        }
        Ok(None) => Err(NoMemory),
        Err(end) => answered(Err(end)),
    }
}

/// The old value of an item is asked of its object.
fn ask_item(
    alloc: Global,
    stack: &mut Vec<Frame>,
    env: Env,
    op: BinaryOp,
    right: u32,
    receiver: Value,
    key: Value,
) -> Result<Next, NoMemory>
    ensures means { IfOk result (λ next. Means stack.new.items next (asks (operation.Special receiver special.GetItem (key ∷ [])) (λ old. augments env op right old (stores_item receiver key))) stack.old.items) }
    ensures light { IfOk result (λ next. IsLight stack.new.items next stack.old.items) }
{
    let asked = receiver.copy(alloc)?;
    let wanted = key.copy(alloc)?;
    let operation = special_with(alloc, asked, Special::GetItem, wanted)?;
    let destination = Destination::Item { receiver, key };
    ask_old(stack, env, op, right, destination, operation)
}

/// An operation gives the old value of what is augmented.
fn ask_old(
    stack: &mut Vec<Frame>,
    env: Env,
    op: BinaryOp,
    right: u32,
    destination: Destination,
    operation: Operation,
) -> Result<Next, NoMemory>
    ensures means { IfOk result (λ next. Means stack.new.items next (asks operation (λ old. augments env op right old (stores destination))) stack.old.items) }
    ensures light { IfOk result (λ next. IsLight stack.new.items next stack.old.items) }
{
    let frame = TargetFrame::AugmentedOld {
        env,
        op,
        right,
        destination,
    };
    operate_over(stack, Frame::Target(frame), operation)
}

/// The right side begins, behind the old value.
pub(crate) fn enter_right(
    stack: &mut Vec<Frame>,
    env: Env,
    op: BinaryOp,
    right: u32,
    destination: Destination,
    old: Value,
) -> Result<Next, NoMemory>
    ensures means { IfOk result (λ next. Means stack.new.items next (augments env op right old (stores destination)) stack.old.items) }
    ensures light { IfOk result (λ next. IsLight stack.new.items next stack.old.items) }
{
    let frame = TargetFrame::AugmentedRight {
        op,
        old,
        destination,
    };
    enter_over(stack, Frame::Target(frame), env, right)
}

/// What the operator makes of the old value and the right side goes to the attribute or the item.
pub(crate) fn store_augmented(
    alloc: Global,
    stack: &mut Vec<Frame>,
    store: &Store,
    op: BinaryOp,
    destination: Destination,
    old: Value,
    right: Value,
) -> Result<Next, NoMemory>
    ensures means { IfOk result (λ next. (fixed : State) (texts : List Program) → MeansIn (stated fixed store.now.cells texts) stack.new.items next (bind (augmented_rule op old right) (on_value (stores destination))) stack.old.items) }
    ensures light { IfOk result (λ next. IsLight stack.new.items next stack.old.items) }
{
    let old_kind = kind_of_value(store, &old);
    let right_kind = kind_of_value(store, &right);
    match augmented(alloc, op, &old, old_kind, &right, right_kind) {
        Ok(Outcome::Made(value)) => store_value(alloc, stack, destination, value),
        Ok(Outcome::Asked(special)) => {
            ask_for_place(alloc, stack, destination, old, special, right)
        }
        Err(end) => answered(Err(end)),
    }
}

/// What the operator makes of the old value and the right side is bound to the name.
pub fn bind_augmented(
    alloc: Global,
    stack: &mut Vec<Frame>,
    store: &mut Store,
    texts: &[Program],
    env: Env,
    op: BinaryOp,
    name: Text,
    old: Value,
    right: Value,
) -> Result<Next, NoMemory>
    ensures means { IfOk result (λ next. (fixed : State) → MeansOver (stated fixed store.old.cells texts.now) (stated fixed store.new.cells texts.now) stack.new.items next (bind (augmented_rule op old right) (on_value (λ w. binds_name env name w (Return done)))) stack.old.items) }
    ensures light { IfOk result (λ next. IsLight stack.new.items next stack.old.items) }
{
    let old_kind = kind_of_value(store, &old);
    let right_kind = kind_of_value(store, &right);
    match augmented(alloc, op, &old, old_kind, &right, right_kind) {
        Ok(Outcome::Made(value)) => bind_value(alloc, store, texts, env, name, value),
        Ok(Outcome::Asked(special)) => ask_for_name(alloc, stack, env, name, old, special, right),
        Err(end) => answered(Err(end)),
    }
}

/// The operator is asked of the old value, and its answer goes to the name.
fn ask_for_name(
    alloc: Global,
    stack: &mut Vec<Frame>,
    env: Env,
    name: Text,
    receiver: Value,
    special: Special,
    argument: Value,
) -> Result<Next, NoMemory>
    ensures means { IfOk result (λ next. Means stack.new.items next (asks (operation.Special receiver special (argument ∷ [])) (λ w. binds_name env name w (Return done))) stack.old.items) }
    ensures light { IfOk result (λ next. IsLight stack.new.items next stack.old.items) }
{
    let operation = special_with(alloc, receiver, special, argument)?;
    let frame = Frame::Statement(StatementFrame::BindName { env, name });
    operate_over(stack, frame, operation)
}

/// The operator is asked of the old value, and its answer goes to the attribute or the item.
fn ask_for_place(
    alloc: Global,
    stack: &mut Vec<Frame>,
    destination: Destination,
    receiver: Value,
    special: Special,
    argument: Value,
) -> Result<Next, NoMemory>
    ensures means { IfOk result (λ next. Means stack.new.items next (asks (operation.Special receiver special (argument ∷ [])) (stores destination)) stack.old.items) }
    ensures light { IfOk result (λ next. IsLight stack.new.items next stack.old.items) }
{
    let operation = special_with(alloc, receiver, special, argument)?;
    let frame = Frame::Target(TargetFrame::Store(destination));
    operate_over(stack, frame, operation)
}
