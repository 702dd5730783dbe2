ghost use Rattle.std.specs.Prelude.{◌≡◌, IfOk, List, reverse};
ghost use Rattle.side_trees.specs.Trees.{Return, bind};
ghost use Rattle.eval_frames.specs.declared.frame.Frame.{Frame};
ghost use Rattle.eval_frames.specs.Meaning.{IsLight, MeansOver};
ghost use Rattle.eval_frames.specs.TargetFrames.{through_target};
ghost use Rattle.language_rules.specs.AtOnce.{stated};
ghost use Rattle.language_rules.specs.Going.{RuleTree, done, evaluates, on_value};
ghost use Rattle.language_rules.specs.Names.{binds_name};
ghost use Rattle.language_rules.specs.States.{State};
ghost use Rattle.language_rules.specs.Targets.{assigns, assigns_each, assigns_place, assigns_target};
ghost use Rattle.eval_targets.specs.Settled.{GoesOnAs, Placed, settled};

use crate::places::{Place, place_at, place_value};
use crate::settled::{Assigning, Waiting, failed, go_on};
use crate::unpacking::unpack;
use eval_frames::{Frame, Next, answered, node_at};
use eval_names::bind_name;
use object_operations::{Completion, Env};
use py_ast::{Node, Program, Target};
use py_store::Store;
use rp_base::{Beyond, NoMemory, OpEnd, Plain, Text, Value};
use sqlite_items::Items;
use std::alloc::Global;

/// The name stands for the value from now on.
pub fn bind_value(
    alloc: Global,
    store: &mut Store,
    texts: &[Program],
    env: Env,
    name: Text,
    value: Value,
) -> Result<Next, NoMemory>
    ensures means { IfOk result (λ next. (fixed : State) (stack : List Frame) → MeansOver (stated fixed store.old.cells texts.now) (stated fixed store.new.cells texts.now) stack next (binds_name env name value (Return done)) stack) }
    ensures light { IfOk result (λ next. (stack : List Frame) → IsLight stack next stack) }
{
    match bind_name(alloc, store, texts, env, name, value) {
        Ok(()) => Ok(Next::Give(Completion::Gives(Value::Plain(Plain::None)))),
        Err(end) => answered(Err(end)),
    }
}

/// The value goes to the target of this number.
pub fn assign(
    alloc: Global,
    stack: &mut Vec<Frame>,
    store: &mut Store,
    texts: &[Program],
    env: Env,
    target: u32,
    value: Value,
) -> Result<Next, NoMemory>
    ensures means { IfOk result (λ next. (fixed : State) → MeansOver (stated fixed store.old.cells texts.now) (stated fixed store.new.cells texts.now) stack.new.items next (assigns env target value) stack.old.items) }
    ensures light { IfOk result (λ next. IsLight stack.new.items next stack.old.items) }
{
    let assigning = settle(alloc, store, texts, env, target, value)?;
    go_on(alloc, stack, assigning)
}

/// The values go to the targets, both the last first.
pub fn assign_each(
    alloc: Global,
    stack: &mut Vec<Frame>,
    store: &mut Store,
    texts: &[Program],
    env: Env,
    targets: Items<u32>,
    values: Items<Value>,
) -> Result<Next, NoMemory>
    ensures means { IfOk result (λ next. (fixed : State) → MeansOver (stated fixed store.old.cells texts.now) (stated fixed store.new.cells texts.now) stack.new.items next (assigns_each env (reverse targets) (reverse values)) stack.old.items) }
    ensures light { IfOk result (λ next. IsLight stack.new.items next stack.old.items) }
{
    let assigning = settle_each(alloc, store, texts, env, targets, values)?;
    go_on(alloc, stack, assigning)
}

/// The value goes to the target of this number, as far as nothing is evaluated or asked first.
pub fn settle(
    alloc: Global,
    store: &mut Store,
    texts: &[Program],
    env: Env,
    target: u32,
    value: Value,
) -> Result<Assigning, NoMemory>
    ensures settles { IfOk result (λ assigning. (fixed : State) → GoesOnAs (stated fixed store.old.cells texts.now) (assigns env target value) (stated fixed store.new.cells texts.now) (settled assigning)) }
{
    let Some(Node::Target(found)) = node_at(texts, env, target) else {
        return Ok(Assigning::Left(Beyond::NotYet));
    };
    settle_target(alloc, store, texts, env, found, value)
}

/// The same, at this target.
fn settle_target(
    alloc: Global,
    store: &mut Store,
    texts: &[Program],
    env: Env,
    target: &Target,
    value: Value,
) -> Result<Assigning, NoMemory>
    ensures settles { IfOk result (λ assigning. (fixed : State) → GoesOnAs (stated fixed store.old.cells texts.now) (assigns_target env value target.now) (stated fixed store.new.cells texts.now) (settled assigning)) }
{
    match target {
        Target::Tuple(targets) => unpack(alloc, store, texts, env, targets.as_slice(), value),
        Target::Name(_) => settle_place(alloc, store, texts, env, target, value),
        Target::Attribute { .. } => settle_place(alloc, store, texts, env, target, value),
        Target::Item { .. } => settle_place(alloc, store, texts, env, target, value),
    }
}

/// The value goes to a target that is no tuple.
fn settle_place(
    alloc: Global,
    store: &mut Store,
    texts: &[Program],
    env: Env,
    target: &Target,
    value: Value,
) -> Result<Assigning, NoMemory>
    ensures settles { IfOk result (λ assigning. (fixed : State) → GoesOnAs (stated fixed store.old.cells texts.now) (assigns_place env value target.now) (stated fixed store.new.cells texts.now) (settled assigning)) }
{
    let placed = place_at(alloc, store, texts, env, target, value);
    placed_at(env, placed)
}

/// How far an assignment comes with a target that is no tuple.
fn placed_at(env: Env, placed: Result<Option<Place>, OpEnd>) -> Result<Assigning, NoMemory>
    ensures settles { IfOk result (λ assigning. (s s' : State) (t : RuleTree) → Placed env s t s' placed → GoesOnAs s t s' (settled assigning)) }
{
    match placed {
        Ok(None) => Ok(Assigning::Ended(Completion::Gives(Value::Plain(Plain::None)))),
        Ok(Some(place)) => Ok(Assigning::Waits(Waiting::Receiver {
            env,
            number: place.number,
            frame: place.frame,
        })),
        Err(OpEnd::Raise(raised)) => Ok(Assigning::Ended(Completion::Raises(raised))),
        Err(OpEnd::Beyond(beyond)) => Ok(Assigning::Left(beyond)),
        Err(OpEnd::NoMemory) => Err(NoMemory),
    }
}

/// The values go to the targets, both the last first, as far as nothing is evaluated or asked first.
pub(crate) fn settle_each(
    alloc: Global,
    store: &mut Store,
    texts: &[Program],
    env: Env,
    mut targets: Items<u32>,
    mut values: Items<Value>,
) -> Result<Assigning, NoMemory>
    ensures settles { IfOk result (λ assigning. (fixed : State) → GoesOnAs (stated fixed store.old.cells texts.now) (assigns_each env (reverse targets) (reverse values)) (stated fixed store.new.cells texts.now) (settled assigning)) }
{
    'targets: while let Some(target) = targets.pop() {
        let Some(value) = values.pop() else {
            return Ok(Assigning::Ended(Completion::Gives(Value::Plain(Plain::None))));
        };
        match place_value(alloc, store, texts, env, target, value) {
            Ok(None) => {}
            Ok(Some(place)) => return Ok(wait_before(env, place, targets, values)),
            Err(end) => return failed(end),
        }
    }
    Ok(Assigning::Ended(Completion::Gives(Value::Plain(Plain::None))))
}

/// The receiver of an attribute or an item, in front of further targets.
fn wait_before(env: Env, place: Place, targets: Items<u32>, values: Items<Value>) -> Assigning
    ensures { settled result ≡ bind (evaluates env place.number (through_target place.frame)) (on_value (λ a. assigns_each env (reverse targets) (reverse values))) }
{
    Assigning::Waits(Waiting::ReceiverOfEach {
        env,
        number: place.number,
        frame: place.frame,
        targets,
        values,
    })
}
