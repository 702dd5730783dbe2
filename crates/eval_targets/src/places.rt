ghost use Rattle.side_trees.specs.Trees.{Return};
ghost use Rattle.language_rules.specs.AtOnce.{stated};
ghost use Rattle.language_rules.specs.Going.{done};
ghost use Rattle.language_rules.specs.Names.{binds_name};
ghost use Rattle.language_rules.specs.States.{State};
ghost use Rattle.language_rules.specs.Targets.{assigns_place};
ghost use Rattle.language_rules.specs.Texts.{on_target};
ghost use Rattle.eval_targets.specs.Settled.{Placed};

use eval_frames::{TargetFrame, node_at};
use eval_names::bind_name;
use object_operations::Env;
use py_ast::{Node, Program, Target};
use py_store::Store;
use rp_base::{Beyond, OpEnd, Text, Value};
use std::alloc::Global;

/// The receiver of an attribute or an item, by the number of its expression, and what waits for its value.
#[derive(Drop)]
pub(crate) struct Place {
    pub(crate) number: u32,
    pub(crate) frame: TargetFrame,
}

/// The value goes to the target of this number, which is no tuple. A name is bound at once; the receiver of an attribute or
/// an item is evaluated first.
pub(crate) fn place_value(
    alloc: Global,
    store: &mut Store,
    texts: &[Program],
    env: Env,
    target: u32,
    value: Value,
) -> Result<Option<Place>, OpEnd>
    ensures placed { (fixed : State) → Placed env (stated fixed store.old.cells texts.now) (on_target env target (assigns_place env value)) (stated fixed store.new.cells texts.now) result }
{
    let Some(Node::Target(found)) = node_at(texts, env, target) else {
        return Err(OpEnd::Beyond(Beyond::NotYet));
    };
    place_at(alloc, store, texts, env, found, value)
}

/// The same, at this target.
pub(crate) fn place_at(
    alloc: Global,
    store: &mut Store,
    texts: &[Program],
    env: Env,
    target: &Target,
    value: Value,
) -> Result<Option<Place>, OpEnd>
    ensures placed { (fixed : State) → Placed env (stated fixed store.old.cells texts.now) (assigns_place env value target.now) (stated fixed store.new.cells texts.now) result }
{
    match target {
        Target::Name(name) => place_name(alloc, store, texts, env, name.copy(alloc)?, value),
        Target::Attribute { receiver, name } => Ok(Some(Place {
            number: *receiver,
            frame: TargetFrame::AttributeReceiver {
                name: name.copy(alloc)?,
                value,
            },
        })),
        Target::Item { receiver, key } => Ok(Some(Place {
            number: *receiver,
            frame: TargetFrame::ItemReceiver {
                env,
                key: *key,
                value,
            },
        })),
        Target::Tuple(_) => Err(OpEnd::Beyond(Beyond::NotYet)),
    }
}

/// The name stands for the value from now on.
fn place_name(
    alloc: Global,
    store: &mut Store,
    texts: &[Program],
    env: Env,
    name: Text,
    value: Value,
) -> Result<Option<Place>, OpEnd>
    ensures placed { (fixed : State) → Placed env (stated fixed store.old.cells texts.now) (binds_name env name value (Return done)) (stated fixed store.new.cells texts.now) result }
{
    match bind_name(alloc, store, texts, env, name, value) {
        Ok(()) => Ok(None),
        Err(end) => Err(end),
    }
}
