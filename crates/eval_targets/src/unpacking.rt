ghost use Rattle.std.specs.Prelude.{◌≡◌, IfOk, length, reverse};
ghost use Rattle.language_rules.specs.AtOnce.{stated};
ghost use Rattle.language_rules.specs.Codes.{AList};
ghost use Rattle.language_rules.specs.Draining.{counted, goes_over, unpacks, unpacks_kind};
ghost use Rattle.language_rules.specs.Going.{fails};
ghost use Rattle.language_rules.specs.States.{State};
ghost use Rattle.language_rules.specs.Targets.{assigns_each};
ghost use Rattle.eval_targets.specs.Settled.{GoesOnAs, settled};

use crate::assigning::settle_each;
use crate::exceptions::exception;
use crate::kinds::kind_of_value;
use crate::settled::{Assigning, Waiting};
use builtin_functions::items_at_hand;
use eval_frames::waiting_numbers;
use object_operations::{Completion, Env};
use py_ast::Program;
use py_store::{Store, Values};
use rp_base::{Beyond, ExcKind, Kind, NoMemory, Value};
use sqlite_items::Items;
use std::alloc::Global;

/// The items of the value go to the targets, from the left. A list is asked for its items first.
pub(crate) fn unpack(
    alloc: Global,
    store: &mut Store,
    texts: &[Program],
    env: Env,
    targets: &[u32],
    value: Value,
) -> Result<Assigning, NoMemory>
    ensures settles { IfOk result (λ assigning. (fixed : State) → GoesOnAs (stated fixed store.old.cells texts.now) (unpacks value (length targets.now) (assigns_each env targets.now)) (stated fixed store.new.cells texts.now) (settled assigning)) }
{
    let Some(items) = items_at_hand(alloc, &value)? else {
        let kind = kind_of_value(store, &value);
        return unpack_by_kind(alloc, kind, env, targets, value);
    };
    settle_items(alloc, store, texts, env, targets, turned(items))
}

/// All items of a value, the last first, go to the targets, in written order. ValueError for another number of items.
fn settle_items(
    alloc: Global,
    store: &mut Store,
    texts: &[Program],
    env: Env,
    targets: &[u32],
    values: Items<Value>,
) -> Result<Assigning, NoMemory>
    ensures settles { IfOk result (λ assigning. (fixed : State) → GoesOnAs (stated fixed store.old.cells texts.now) (counted (length targets.now) (assigns_each env targets.now) (reverse values)) (stated fixed store.new.cells texts.now) (settled assigning)) }
{
    if values.len() != targets.len() {
        return refuse(alloc, ExcKind::ValueError, "wrong number of values");
    }
    let waiting = waiting_numbers(alloc, targets)?;
    settle_each(alloc, store, texts, env, waiting, values)
}

/// An object of this kind is unpacked, or what is none.
fn unpack_by_kind(
    alloc: Global,
    kind: Option<Kind>,
    env: Env,
    targets: &[u32],
    value: Value,
) -> Result<Assigning, NoMemory>
    ensures { IfOk result (λ assigning. settled assigning ≡ unpacks_kind (goes_over AList value (counted (length targets.now) (assigns_each env targets.now))) kind) }
{
    match kind {
        Some(Kind::List) => unpack_list(alloc, env, targets, value),
        Some(_) => Ok(Assigning::Left(Beyond::Drain)),
        None => refuse(alloc, ExcKind::TypeError, "not iterable"),
    }
}

/// A list is asked for its items first.
fn unpack_list(alloc: Global, env: Env, targets: &[u32], list: Value) -> Result<Assigning, NoMemory>
    ensures { IfOk result (λ assigning. settled assigning ≡ goes_over AList list (counted (length targets.now) (assigns_each env targets.now))) }
{
    let targets = Items::from_slice(alloc, targets)?;
    Ok(Assigning::Waits(Waiting::Items { env, list, targets }))
}

/// An exception of this kind, with this text.
fn refuse(alloc: Global, kind: ExcKind, text: &str) -> Result<Assigning, NoMemory>
    ensures { IfOk result (λ assigning. settled assigning ≡ fails kind text.now) }
{
    let raised = exception(alloc, kind, text)?;
    Ok(Assigning::Ended(Completion::Raises(raised)))
}

/// The values, the last first. It takes no memory.
fn turned(values: Values) -> Items<Value>
    ensures { reverse result ≡ values }
{
    let mut turned = values.into_vec();
    turned.reverse();
    Items::from_vec(turned)
}
