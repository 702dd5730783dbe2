ghost use Rattle.std.specs.Prelude.{◌≡◌, ◌∷◌, [], IfOk, IfSome, List, false, true};
ghost use Rattle.py_ast.specs.declared.builtin.Builtin.{Builtin};
ghost use Rattle.eval_frames.specs.declared.frame.Frame.{Frame};
ghost use Rattle.eval_frames.specs.Meaning.{IsLight, Means};
ghost use Rattle.language_rules.specs.Builtins.{builtin_rule};
ghost use Rattle.eval_frames.specs.LoopFrames.{container, drained};
ghost use Rattle.eval_frames.specs.declared.loop_frames.Draining.TheVariants as draining;
ghost use Rattle.language_rules.specs.Draining.{drains_kind, goes_over, not_iterable};
ghost use Rattle.language_rules.specs.Going.{RuleTree};
ghost use Rattle.language_rules.specs.Kinds.{is_reference};
ghost use Rattle.language_rules.specs.Printing.{gives_text, on_repr};
ghost use Rattle.eval_exprs.specs.Steps.{IsOnlyReference, IsOnlyTuple, MeansAnywhere, MeansAt, collection_for, drains_object, is_gone_over, takes_no_object};

use crate::kinds::kind_of;
use crate::making::{dict, list, range, sorted};
use crate::testing::ask_truth;
use builtin_functions::builtin;
use eval_frames::{
    Collection, Decision, DrainFrame, Draining, Frame, Next, OperationFrame, computed, fail,
    is_reference, operate, operate_over, special,
};
use eval_tuple_texts::begin_text;
use object_operations::{Operation, Special};
use py_ast::Builtin;
use py_store::Store;
use rp_base::{Beyond, ExcKind, Kind, NoMemory, Value};
use sqlite_items::Items;
use std::alloc::Global;

/// A builtin function with its arguments (Python Library Reference, "Built-in Functions").
pub(crate) fn call_function(
    alloc: Global,
    stack: &mut Vec<Frame>,
    store: &Store,
    function: Builtin,
    arguments: Items<Value>,
) -> Result<Next, NoMemory>
    ensures means { IfOk result (λ next. MeansAt store.now.cells stack.new.items next (builtin_rule function arguments) stack.old.items) }
    ensures light { IfOk result (λ next. IsLight stack.new.items next stack.old.items) }
{
    match only_reference(alloc, arguments.as_slice())? {
        Some(value) => call_of_object(alloc, stack, store, function, value),
        None => call_without_object(alloc, stack, function, arguments.as_slice()),
    }
}

/// A builtin function of values that are no objects by themselves, but may hold some.
fn call_without_object(
    alloc: Global,
    stack: &mut Vec<Frame>,
    function: Builtin,
    arguments: &[Value],
) -> Result<Next, NoMemory>
    ensures means { IfOk result (λ next. MeansAnywhere stack.new.items next (builtin_rule function arguments.now) stack.old.items) }
    ensures light { IfOk result (λ next. IsLight stack.new.items next stack.old.items) }
{
    match tuple_to_show(alloc, function, arguments)? {
        Some(tuple) => begin_text(alloc, stack, tuple),
        None => call_at_hand(alloc, function, arguments),
    }
}

/// The only argument of `str` or `repr`, where it is a tuple.
fn tuple_to_show(
    alloc: Global,
    function: Builtin,
    arguments: &[Value],
) -> Result<Option<Value>, NoMemory>
    ensures { IfOk result (λ found. IfSome found (λ v. builtin_rule function arguments.now ≡ on_repr v gives_text)) }
{
    match function {
        Builtin::Str => only_tuple(alloc, arguments),
        Builtin::Repr => only_tuple(alloc, arguments),
        _ => Ok(None),
    }
}

/// The only value, where it is a tuple.
fn only_tuple(alloc: Global, values: &[Value]) -> Result<Option<Value>, NoMemory>
    ensures { IfOk result (λ found. IfSome found (λ v. IsOnlyTuple values.now v)) }
{
    match values {
        [value] => copy_of_tuple(alloc, value),
        _ => Ok(None),
    }
}

fn copy_of_tuple(alloc: Global, value: &Value) -> Result<Option<Value>, NoMemory>
    ensures { IfOk result (λ found. IfSome found (λ v. IsOnlyTuple (value.now ∷ []) v)) }
{
    match value {
        Value::Tuple(_) => Ok(Some(value.copy(alloc)?)),
        _ => Ok(None),
    }
}

/// A builtin function that asks no object.
fn call_at_hand(alloc: Global, function: Builtin, arguments: &[Value]) -> Result<Next, NoMemory>
    ensures means { IfOk result (λ next. (stack : List Frame) → Means stack next (builtin_rule function arguments.now) stack) }
    ensures light { IfOk result (λ next. (stack : List Frame) → IsLight stack next stack) }
{
    match function {
        Builtin::List => list(alloc, arguments),
        Builtin::Dict => dict(alloc, arguments),
        Builtin::Range => range(alloc, arguments),
        Builtin::Sorted => sorted(alloc, arguments),
        _ => computed(builtin(alloc, function, arguments)),
    }
}

/// The only argument, where it refers to an object.
fn only_reference(alloc: Global, arguments: &[Value]) -> Result<Option<Value>, NoMemory>
    ensures { IfOk result (λ found. IsOnlyReference arguments.now found) }
{
    match arguments {
        [value] => copy_of_reference(alloc, value),
        _ => Ok(None),
    }
}

fn copy_of_reference(alloc: Global, value: &Value) -> Result<Option<Value>, NoMemory>
    ensures { IfOk result (λ found. IsOnlyReference (value.now ∷ []) found) }
{
    if is_reference(value) {
        Ok(Some(value.copy(alloc)?))
    } else {
        Ok(None)
    }
}

/// A builtin function of an object.
fn call_of_object(
    alloc: Global,
    stack: &mut Vec<Frame>,
    store: &Store,
    function: Builtin,
    value: Value,
) -> Result<Next, NoMemory>
    requires { is_reference value ≡ true }
    ensures means { IfOk result (λ next. MeansAt store.now.cells stack.new.items next (builtin_rule function (value ∷ [])) stack.old.items) }
    ensures light { IfOk result (λ next. IsLight stack.new.items next stack.old.items) }
{
    match function {
        Builtin::Len => Ok(length(alloc, value)),
        Builtin::Str => text(stack, value),
        Builtin::Repr => shown(stack, value),
        Builtin::Bool => bool(alloc, stack, value),
        Builtin::Tuple => drain(alloc, stack, store, Builtin::Tuple, value),
        Builtin::Min => drain(alloc, stack, store, Builtin::Min, value),
        Builtin::Max => drain(alloc, stack, store, Builtin::Max, value),
        Builtin::Sum => drain(alloc, stack, store, Builtin::Sum, value),
        Builtin::List => drain(alloc, stack, store, Builtin::List, value),
        Builtin::Sorted => drain(alloc, stack, store, Builtin::Sorted, value),
        Builtin::Int => Ok(refuse(Builtin::Int, value)),
        Builtin::Abs => Ok(refuse(Builtin::Abs, value)),
        Builtin::Ord => Ok(refuse(Builtin::Ord, value)),
        Builtin::Chr => Ok(refuse(Builtin::Chr, value)),
        Builtin::Dict => Ok(refuse(Builtin::Dict, value)),
        Builtin::Range => Ok(refuse(Builtin::Range, value)),
        Builtin::Print => Err(NoMemory),
    }
}

/// `len` of an object.
fn length(alloc: Global, value: Value) -> Next
    requires { is_reference value ≡ true }
    ensures means { (stack : List Frame) → Means stack result (builtin_rule Builtin.Len (value ∷ [])) stack }
    ensures light { (stack : List Frame) → IsLight stack result stack }
{
    operate(special(alloc, value, Special::Len))
}

/// `str` of an object.
fn text(stack: &mut Vec<Frame>, value: Value) -> Result<Next, NoMemory>
    requires { is_reference value ≡ true }
    ensures means { IfOk result (λ next. Means stack.new.items next (builtin_rule Builtin.Str (value ∷ [])) stack.old.items) }
    ensures light { IfOk result (λ next. IsLight stack.new.items next stack.old.items) }
{
    operate_over(
        stack,
        Frame::Operation(OperationFrame::Text),
        Operation::Str(value),
    )
}

/// `repr` of an object.
fn shown(stack: &mut Vec<Frame>, value: Value) -> Result<Next, NoMemory>
    requires { is_reference value ≡ true }
    ensures means { IfOk result (λ next. Means stack.new.items next (builtin_rule Builtin.Repr (value ∷ [])) stack.old.items) }
    ensures light { IfOk result (λ next. IsLight stack.new.items next stack.old.items) }
{
    operate_over(
        stack,
        Frame::Operation(OperationFrame::Text),
        Operation::Repr(value),
    )
}

/// `bool` of an object.
#[tactic(auto, unfolding(language_rules::specs::Builtins::builtin_rule))]
fn bool(alloc: Global, stack: &mut Vec<Frame>, value: Value) -> Result<Next, NoMemory>
    requires { is_reference value ≡ true }
    ensures means { IfOk result (λ next. Means stack.new.items next (builtin_rule Builtin.Bool (value ∷ [])) stack.old.items) }
    ensures light { IfOk result (λ next. IsLight stack.new.items next stack.old.items) }
{
    ask_truth(alloc, stack, Decision::Bool, value)
}

/// A function that takes no object leaves the subset.
fn refuse(function: Builtin, value: Value) -> Next
    requires object { is_reference value ≡ true }
    requires refused { takes_no_object function ≡ true }
    ensures means { (stack : List Frame) → Means stack result (builtin_rule function (value ∷ [])) stack }
    ensures light { (stack : List Frame) → IsLight stack result stack }
{
    Next::Leave(Beyond::Arguments)
}

/// A function that goes over an object, by the object's kind.
fn drain(
    alloc: Global,
    stack: &mut Vec<Frame>,
    store: &Store,
    function: Builtin,
    value: Value,
) -> Result<Next, NoMemory>
    requires object { is_reference value ≡ true }
    requires drained { drains_object function ≡ true }
    ensures means { IfOk result (λ next. MeansAt store.now.cells stack.new.items next (builtin_rule function (value ∷ [])) stack.old.items) }
    ensures light { IfOk result (λ next. IsLight stack.new.items next stack.old.items) }
{
    let kind = kind_of(store, &value);
    if is_gone_over(kind) {
        go_over(alloc, stack, function, value)
    } else {
        refuse_kind(alloc, kind)
    }
}

/// Whether an object of this kind is gone over.
pub fn is_gone_over(kind: Option<Kind>) -> bool
    ensures { result ≡ is_gone_over kind }
{
    match kind {
        Some(Kind::List) => true,
        Some(Kind::Dict) => true,
        Some(Kind::Range) => true,
        Some(Kind::View) => true,
        _ => false,
    }
}

/// An object is gone over, for what the function makes of its items.
fn go_over(
    alloc: Global,
    stack: &mut Vec<Frame>,
    function: Builtin,
    value: Value,
) -> Result<Next, NoMemory>
    ensures means { IfOk result (λ next. Means stack.new.items next (goes_over (container (collection_for function)) value (drained (draining.Builtin function))) stack.old.items) }
    ensures light { IfOk result (λ next. IsLight stack.new.items next stack.old.items) }
{
    let frame = DrainFrame::Iterator {
        collection: collection_for(function),
        draining: Draining::Builtin(function),
    };
    let operation = special(alloc, value, Special::Iter);
    operate_over(stack, Frame::Drain(frame), operation)
}

/// What the items go into, whose limit is judged.
fn collection_for(function: Builtin) -> Collection
    ensures { result ≡ collection_for function }
{
    match function {
        Builtin::Tuple => Collection::Tuple,
        _ => Collection::List,
    }
}

/// An object of any other kind is not gone over.
pub fn refuse_kind(alloc: Global, kind: Option<Kind>) -> Result<Next, NoMemory>
    requires { is_gone_over kind ≡ false }
    ensures means { IfOk result (λ next. (over : RuleTree) (stack : List Frame) → Means stack next (drains_kind over kind) stack) }
    ensures light { IfOk result (λ next. (stack : List Frame) → IsLight stack next stack) }
{
    match kind {
        Some(Kind::Instance) => Ok(Next::Leave(Beyond::Drain)),
        Some(Kind::Iter) => Ok(Next::Leave(Beyond::Drain)),
        Some(Kind::Namespace) => Ok(Next::Leave(Beyond::Namespace)),
        _ => refuse_items(alloc),
    }
}

fn refuse_items(alloc: Global) -> Result<Next, NoMemory>
    ensures means { IfOk result (λ next. (stack : List Frame) → Means stack next not_iterable stack) }
    ensures light { IfOk result (λ next. (stack : List Frame) → IsLight stack next stack) }
{
    fail(alloc, ExcKind::TypeError, "not iterable")
}
