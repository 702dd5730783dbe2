ghost use Rattle.std.specs.Prelude.{◌≡◌, ℕ, IfOk, List, Option, Some};
ghost use Rattle.py_ast.specs.declared.program.Program.{Program};
ghost use Rattle.rp_base.specs.declared.value.Value.{Value};
ghost use Rattle.py_store.specs.Attributes.{attribute_value};
ghost use Rattle.eval_frames.specs.declared.frame.Frame.{Frame};
ghost use Rattle.eval_frames.specs.Meaning.{IsLight, Means, MeansIn};
ghost use Rattle.language_rules.specs.AtOnce.{stated};
ghost use Rattle.language_rules.specs.Attributes.{class_attribute, found_in_class, instance_attribute, missing_in_class};
ghost use Rattle.language_rules.specs.Kinds.{kind_of};
ghost use Rattle.language_rules.specs.States.{State};
ghost use Rattle.eval_instances.specs.Methods.{bound_if};

use eval_frames::{Next, fail};
use eval_ranges::{give, kind_of_value};
use py_store::{Cell, Method, Store};
use rp_base::{Beyond, ExcKind, Kind, NoMemory, Value};
use std::alloc::Global;

/// An attribute of an instance: its own, or that of its class, or that of the base. A function of a class is bound to
/// the instance (Python Language Reference, "The standard type hierarchy", "Instance methods").
pub fn attribute_of_instance(
    alloc: Global,
    store: &Store,
    number: u32,
    name: &str,
) -> Result<Next, NoMemory>
    ensures means { IfOk result (λ next. (fixed : State) (texts : List Program) (stack : List Frame) → MeansIn (stated fixed store.now.cells texts) stack next (instance_attribute (stated fixed store.now.cells texts) number name.now (attribute_value store.now.cells number name.now)) stack) }
    ensures light { IfOk result (λ next. (stack : List Frame) → IsLight stack next stack) }
{
    match store.get_attr(number, name) {
        Some((holder, value)) => {
            let value = value.copy(alloc)?;
            Ok(found(store, number, holder, value))
        }
        None => fail(alloc, ExcKind::AttributeError, name),
    }
}

/// What the first of the cells has that has the attribute.
fn found(store: &Store, number: u32, holder: u32, value: Value) -> Next
    ensures means { (name : List ℕ) (fixed : State) (texts : List Program) (stack : List Frame) → MeansIn (stated fixed store.now.cells texts) stack result (instance_attribute (stated fixed store.now.cells texts) number name (Some (holder, value))) stack }
    ensures light { (stack : List Frame) → IsLight stack result stack }
{
    if holder == number {
        give(value)
    } else {
        let kind = kind_of_value(store, &value);
        found_in_class(number, value, kind)
    }
}

/// What is found in a class, for an instance.
fn found_in_class(number: u32, value: Value, kind: Option<Kind>) -> Next
    ensures means { (stack : List Frame) → Means stack result (found_in_class number value kind) stack }
    ensures light { (stack : List Frame) → IsLight stack result stack }
{
    if is_function(kind) {
        Next::Make(Cell::Bound {
            receiver: Value::Own(number),
            method: Method::Function(value),
        })
    } else {
        give(value)
    }
}

fn is_function(kind: Option<Kind>) -> bool
    ensures { (number : ℕ) (v : Value) → found_in_class number v kind ≡ bound_if number v result }
{
    match kind {
        None => false,
        Some(Kind::List) => false,
        Some(Kind::Range) => false,
        Some(Kind::Function) => true,
        Some(Kind::Bound) => false,
        Some(Kind::Dict) => false,
        Some(Kind::Namespace) => false,
        Some(Kind::Iter) => false,
        Some(Kind::View) => false,
        Some(Kind::Class) => false,
        Some(Kind::Instance) => false,
        Some(Kind::Host) => false,
        Some(Kind::HostFunc) => false,
        Some(Kind::Root) => false,
        Some(Kind::Conn) => false,
        Some(Kind::Modules) => false,
    }
}

/// An attribute of a class: its own, or that of the base.
pub fn attribute_of_class(
    alloc: Global,
    store: &Store,
    number: u32,
    name: &str,
) -> Result<Next, NoMemory>
    ensures means { IfOk result (λ next. (stack : List Frame) → Means stack next (class_attribute name.now (attribute_value store.now.cells number name.now)) stack) }
    ensures light { IfOk result (λ next. (stack : List Frame) → IsLight stack next stack) }
{
    match store.get_attr(number, name) {
        Some((_, value)) => Ok(give(value.copy(alloc)?)),
        None => missing_in_class(alloc, name),
    }
}

/// A class's `mro` is a method of its type, which is left out.
fn missing_in_class(alloc: Global, name: &str) -> Result<Next, NoMemory>
    ensures means { IfOk result (λ next. (stack : List Frame) → Means stack next (missing_in_class name.now) stack) }
    ensures light { IfOk result (λ next. (stack : List Frame) → IsLight stack next stack) }
{
    if name == "mro" {
        Ok(Next::Leave(Beyond::Attribute))
    } else {
        fail(alloc, ExcKind::AttributeError, name)
    }
}
