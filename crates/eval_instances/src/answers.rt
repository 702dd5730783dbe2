ghost use Rattle.std.specs.Prelude.{◌≡◌, ℕ, IfOk, List, true};
ghost use Rattle.py_ast.specs.declared.program.Program.{Program};
ghost use Rattle.rp_base.specs.declared.value.Value.{Value};
ghost use Rattle.rp_base.specs.declared.value.Value.TheVariants as value;
ghost use Rattle.eval_frames.specs.declared.frame.Frame.{Frame};
ghost use Rattle.eval_frames.specs.declared.frame.Decision.TheVariants as decision;
ghost use Rattle.eval_frames.specs.Meaning.{IsLight, Means, MeansIn, decides};
ghost use Rattle.eval_frames.specs.MethodFrames.{through_method};
ghost use Rattle.language_rules.specs.Arithmetic.{gives_result};
ghost use Rattle.language_rules.specs.AtOnce.{stated};
ghost use Rattle.language_rules.specs.Calls.{initialised};
ghost use Rattle.language_rules.specs.CellComparing.{turned};
ghost use Rattle.language_rules.specs.Iterating.{gives_iterator};
ghost use Rattle.language_rules.specs.Kinds.{is_reference, on_kind};
ghost use Rattle.language_rules.specs.Lengths.{gives_truth};
ghost use Rattle.language_rules.specs.Printing.{text_result};
ghost use Rattle.language_rules.specs.States.{State};
ghost use Rattle.language_rules.specs.Truth.{on_truth};
ghost use Rattle.eval_instances.specs.Methods.{AtOnce, initialised_if, iterator_if, result_if, text_if, truth_told, turned_if};

use crate::lengths::give_length;
use eval_frames::{Decision, Frame, MethodFrame, Next, operate_over, special};
use eval_ranges::{give, give_truth, kind_of_value, refuse};
use object_operations::{Completion, Special};
use py_store::Store;
use rp_base::{Kind, NoMemory, OpEnd, Plain, Value};
use std::alloc::Global;
use value_operators::truth;

/// What waits for a method of an instance's class goes on with what it gave.
pub fn give_method(
    alloc: Global,
    stack: &mut Vec<Frame>,
    store: &Store,
    frame: MethodFrame,
    value: Value,
) -> Result<Next, NoMemory>
    ensures means { IfOk result (λ next. (fixed : State) (texts : List Program) → MeansIn (stated fixed store.now.cells texts) stack.new.items next (through_method frame value) stack.old.items) }
    ensures light { IfOk result (λ next. IsLight stack.new.items next stack.old.items) }
{
    match frame {
        MethodFrame::Initialised { instance } => give_instance(alloc, instance, &value),
        MethodFrame::Length => give_length(alloc, &value, false),
        MethodFrame::Filled => give_length(alloc, &value, true),
        MethodFrame::Truth => give_bool(alloc, &value),
        MethodFrame::Iterator => give_iterator(alloc, store, value),
        MethodFrame::Opposite => give_opposite(alloc, stack, value),
        MethodFrame::Text => give_text(alloc, value),
        MethodFrame::Operator => give_result(alloc, value),
    }
}

/// `__init__` gives None.
fn give_instance(alloc: Global, instance: u32, value: &Value) -> Result<Next, NoMemory>
    ensures means { IfOk result (λ next. (stack : List Frame) → Means stack next (initialised instance value.now) stack) }
    ensures light { IfOk result (λ next. (stack : List Frame) → IsLight stack next stack) }
{
    if is_none(value) {
        Ok(give(Value::Own(instance)))
    } else {
        refuse(alloc, "wrong result kind")
    }
}

fn is_none(value: &Value) -> bool
    ensures { (instance : ℕ) → initialised instance value.now ≡ initialised_if instance result }
{
    match value {
        Value::Plain(Plain::None) => true,
        _ => false,
    }
}

/// `__bool__` gives a bool.
fn give_bool(alloc: Global, value: &Value) -> Result<Next, NoMemory>
    ensures means { IfOk result (λ next. (stack : List Frame) → Means stack next (gives_truth value.now) stack) }
    ensures light { IfOk result (λ next. (stack : List Frame) → IsLight stack next stack) }
{
    match bool_of(value) {
        Some(truth) => Ok(give_truth(truth)),
        None => refuse(alloc, "wrong result kind"),
    }
}

fn bool_of(value: &Value) -> Option<bool>
    ensures { gives_truth value.now ≡ truth_told result }
{
    match value {
        Value::Plain(Plain::Bool(truth)) => Some(*truth),
        _ => None,
    }
}

/// `__str__` and `__repr__` give a text.
fn give_text(alloc: Global, value: Value) -> Result<Next, NoMemory>
    ensures means { IfOk result (λ next. (stack : List Frame) → Means stack next (text_result value) stack) }
    ensures light { IfOk result (λ next. (stack : List Frame) → IsLight stack next stack) }
{
    if is_text(&value) {
        Ok(give(value))
    } else {
        refuse(alloc, "wrong result kind")
    }
}

fn is_text(value: &Value) -> bool
    ensures { text_result value.now ≡ text_if value.now result }
{
    match value {
        Value::Plain(Plain::Text(_)) => true,
        _ => false,
    }
}

/// `__iter__` gives an instance or an iterator.
fn give_iterator(alloc: Global, store: &Store, value: Value) -> Result<Next, NoMemory>
    ensures means { IfOk result (AtOnce store.now.cells (on_kind value (gives_iterator value))) }
    ensures light { IfOk result (λ next. (stack : List Frame) → IsLight stack next stack) }
{
    let kind = kind_of_value(store, &value);
    iterator_of_kind(alloc, kind, value)
}

fn iterator_of_kind(alloc: Global, kind: Option<Kind>, value: Value) -> Result<Next, NoMemory>
    ensures means { IfOk result (λ next. (stack : List Frame) → Means stack next (gives_iterator value kind) stack) }
    ensures light { IfOk result (λ next. (stack : List Frame) → IsLight stack next stack) }
{
    if may_iterate(kind) {
        Ok(give(value))
    } else {
        refuse(alloc, "wrong result kind")
    }
}

fn may_iterate(kind: Option<Kind>) -> bool
    ensures { (v : Value) → gives_iterator v kind ≡ iterator_if v result }
{
    match kind {
        None => false,
        Some(Kind::List) => false,
        Some(Kind::Range) => false,
        Some(Kind::Function) => false,
        Some(Kind::Bound) => false,
        Some(Kind::Dict) => false,
        Some(Kind::Namespace) => false,
        Some(Kind::Iter) => true,
        Some(Kind::View) => false,
        Some(Kind::Class) => false,
        Some(Kind::Instance) => true,
        Some(Kind::Host) => false,
        Some(Kind::HostFunc) => false,
        Some(Kind::Root) => false,
        Some(Kind::Conn) => false,
        Some(Kind::Modules) => false,
    }
}

/// `__eq__` gave this for `!=`: NotImplemented stays, and else the opposite of its truth is the answer.
fn give_opposite(alloc: Global, stack: &mut Vec<Frame>, value: Value) -> Result<Next, NoMemory>
    ensures means { IfOk result (λ next. Means stack.new.items next (turned value) stack.old.items) }
    ensures light { IfOk result (λ next. IsLight stack.new.items next stack.old.items) }
{
    if is_unknown(&value) {
        Ok(give(Value::Plain(Plain::NotImpl)))
    } else {
        opposite(alloc, stack, value)
    }
}

fn is_unknown(value: &Value) -> bool
    ensures turned { turned value.now ≡ turned_if value.now result }
    ensures gives { gives_result value.now ≡ result_if value.now result }
{
    match value {
        Value::Plain(plain) => is_not_implemented(plain),
        Value::Tuple(_) => false,
        Value::Own(_) => false,
        Value::Proxy(_) => false,
    }
}

fn is_not_implemented(plain: &Plain) -> bool
    ensures turned { turned (value.Plain plain.now) ≡ turned_if (value.Plain plain.now) result }
    ensures gives { gives_result (value.Plain plain.now) ≡ result_if (value.Plain plain.now) result }
{
    match plain {
        Plain::NotImpl => true,
        Plain::None => false,
        Plain::Bool(_) => false,
        Plain::Int(_) => false,
        Plain::Text(_) => false,
        Plain::Bytes(_) => false,
        Plain::Ellipsis => false,
        Plain::Tuple(_) => false,
    }
}

/// What an arithmetic method gave, unless it is NotImplemented.
fn give_result(alloc: Global, value: Value) -> Result<Next, NoMemory>
    ensures means { IfOk result (λ next. (stack : List Frame) → Means stack next (gives_result value) stack) }
    ensures light { IfOk result (λ next. (stack : List Frame) → IsLight stack next stack) }
{
    if is_unknown(&value) {
        refuse(alloc, "unsupported operand")
    } else {
        Ok(give(value))
    }
}

/// The opposite of the truth of a value, for which an object is asked.
fn opposite(alloc: Global, stack: &mut Vec<Frame>, value: Value) -> Result<Next, NoMemory>
    ensures means { IfOk result (λ next. Means stack.new.items next (on_truth value (decides decision.Not value)) stack.old.items) }
    ensures light { IfOk result (λ next. IsLight stack.new.items next stack.old.items) }
{
    match truth(&value) {
        Ok(Some(holds)) => Ok(give_truth(!holds)),
        Ok(None) => ask_opposite(alloc, stack, value),
        Err(OpEnd::Raise(raised)) => Ok(Next::Give(Completion::Raises(raised))),
        Err(OpEnd::Beyond(beyond)) => Ok(Next::Leave(beyond)),
        Err(OpEnd::NoMemory) => Err(NoMemory),
    }
}

fn ask_opposite(alloc: Global, stack: &mut Vec<Frame>, value: Value) -> Result<Next, NoMemory>
    requires { is_reference value ≡ true }
    ensures means { IfOk result (λ next. Means stack.new.items next (on_truth value (decides decision.Not value)) stack.old.items) }
    ensures light { IfOk result (λ next. IsLight stack.new.items next stack.old.items) }
{
    let operation = special(alloc, value.copy(alloc)?, Special::Bool);
    let decision = Decision::Not;
    operate_over(stack, Frame::Truth { decision, value }, operation)
}
