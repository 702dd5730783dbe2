ghost use Rattle.std.specs.Prelude.{◌≡◌, ℕ, IfOk, List};
ghost use Rattle.rp_base.specs.declared.value.Value.TheVariants as variant;
ghost use Rattle.py_ast.specs.declared.program.Program.{Program};
ghost use Rattle.eval_frames.specs.declared.frame.Frame.{Frame};
ghost use Rattle.eval_frames.specs.Meaning.{IsLight, Means, MeansIn, MeansOver};
ghost use Rattle.language_rules.specs.AtOnce.{stated};
ghost use Rattle.language_rules.specs.Attributes.{attribute_of, cell_attribute, delete_attribute, deletes_in, get_attribute, is_private, set_attribute, sets_in};
ghost use Rattle.language_rules.specs.States.{State};
ghost use Rattle.eval_instances.specs.Owners.{IsOwner};
ghost use Rattle.eval_objects.specs.Receivers.{OwnsOrNot, OwnsOrNotCell};

use crate::exceptions::no_attribute;
use crate::methods::{bind_method, dict_method, list_method, text_method};
use eval_frames::Next;
use eval_instances::{attribute_of_class, attribute_of_instance, delete_own, set_own};
use py_store::{Cell, Store};
use rp_base::{Beyond, NoMemory, Plain, Text, Value};
use std::alloc::Global;

/// Whether the name begins with two underscores: no attribute has such a name.
#[tactic(auto, using(crate::proofs::PrivateNames::begins_so))]
fn is_private(name: &str) -> bool
    ensures { result ≡ is_private name.now }
{
    name.as_bytes().starts_with(b"__")
}

/// `receiver.name`. Attributes of the namespace and of what a connection has come with the connection.
pub(crate) fn get_attribute(
    alloc: Global,
    store: &Store,
    receiver: &Value,
    name: &str,
) -> Result<Next, NoMemory>
    ensures means { IfOk result (λ next. (fixed : State) (texts : List Program) (stack : List Frame) → MeansIn (stated fixed store.now.cells texts) stack next (get_attribute receiver.now name.now) stack) }
    ensures light { IfOk result (λ next. (stack : List Frame) → IsLight stack next stack) }
{
    if is_private(name) {
        no_attribute(alloc, name)
    } else {
        attribute_of(alloc, store, receiver, name)
    }
}

fn attribute_of(
    alloc: Global,
    store: &Store,
    receiver: &Value,
    name: &str,
) -> Result<Next, NoMemory>
    ensures means { IfOk result (λ next. (fixed : State) (texts : List Program) (stack : List Frame) → MeansIn (stated fixed store.now.cells texts) stack next (attribute_of receiver.now name.now) stack) }
    ensures light { IfOk result (λ next. (stack : List Frame) → IsLight stack next stack) }
{
    match receiver {
        Value::Own(number) => attribute_of_object(alloc, store, *number, name),
        Value::Plain(plain) => attribute_of_plain(alloc, plain, name),
        Value::Tuple(_) => Ok(Next::Leave(Beyond::Attribute)),
        Value::Proxy(_) => Ok(Next::Leave(Beyond::Attribute)),
    }
}

fn attribute_of_object(
    alloc: Global,
    store: &Store,
    number: u32,
    name: &str,
) -> Result<Next, NoMemory>
    ensures means { IfOk result (λ next. (fixed : State) (texts : List Program) (stack : List Frame) → MeansIn (stated fixed store.now.cells texts) stack next (attribute_of (variant.Own number) name.now) stack) }
    ensures light { IfOk result (λ next. (stack : List Frame) → IsLight stack next stack) }
{
    match store.get(number) {
        Some(cell) => attribute_of_cell(alloc, store, number, cell, name),
        None => Ok(Next::Leave(Beyond::NotYet)),
    }
}

/// By the kind of the cell of this number.
fn attribute_of_cell(
    alloc: Global,
    store: &Store,
    number: u32,
    cell: &Cell,
    name: &str,
) -> Result<Next, NoMemory>
    ensures means { IfOk result (λ next. (fixed : State) (texts : List Program) (stack : List Frame) → MeansIn (stated fixed store.now.cells texts) stack next (cell_attribute (stated fixed store.now.cells texts) number name.now cell.now) stack) }
    ensures light { IfOk result (λ next. (stack : List Frame) → IsLight stack next stack) }
{
    match cell {
        Cell::Instance { .. } => attribute_of_instance(alloc, store, number, name),
        Cell::Class { .. } => attribute_of_class(alloc, store, number, name),
        Cell::List(_) => Ok(bind_method(Value::Own(number), list_method(name))),
        Cell::Dict { .. } => Ok(bind_method(Value::Own(number), dict_method(name))),
        Cell::Namespace { .. } => Err(NoMemory),
        Cell::Conn { .. } => Err(NoMemory),
        Cell::Modules { .. } => Err(NoMemory),
        Cell::Host(_) => Err(NoMemory),
        Cell::Root => Err(NoMemory),
        Cell::Function { .. } => Ok(Next::Leave(Beyond::Attribute)),
        Cell::Bound { .. } => Ok(Next::Leave(Beyond::Attribute)),
        Cell::Iter { .. } => Ok(Next::Leave(Beyond::Attribute)),
        Cell::View { .. } => Ok(Next::Leave(Beyond::Attribute)),
        Cell::Range { .. } => Ok(Next::Leave(Beyond::Attribute)),
        Cell::HostFunc { .. } => Ok(Next::Leave(Beyond::Attribute)),
        Cell::Scope { .. } => Ok(Next::Leave(Beyond::Attribute)),
    }
}

/// Of what is no object only texts have attributes, which are methods.
fn attribute_of_plain(alloc: Global, receiver: &Plain, name: &str) -> Result<Next, NoMemory>
    ensures means { IfOk result (λ next. (stack : List Frame) → Means stack next (attribute_of (variant.Plain receiver.now) name.now) stack) }
    ensures light { IfOk result (λ next. (stack : List Frame) → IsLight stack next stack) }
{
    match receiver {
        Plain::Text(text) => {
            let receiver = Value::Plain(Plain::Text(text.copy(alloc)?));
            Ok(bind_method(receiver, text_method(name)))
        }
        Plain::None => Ok(Next::Leave(Beyond::Attribute)),
        Plain::Bool(_) => Ok(Next::Leave(Beyond::Attribute)),
        Plain::Int(_) => Ok(Next::Leave(Beyond::Attribute)),
        Plain::Bytes(_) => Ok(Next::Leave(Beyond::Attribute)),
        Plain::NotImpl => Ok(Next::Leave(Beyond::Attribute)),
        Plain::Ellipsis => Ok(Next::Leave(Beyond::Attribute)),
        Plain::Tuple(_) => Ok(Next::Leave(Beyond::Attribute)),
    }
}

/// `receiver.name = value`: only instances and classes have attributes that can be set.
pub(crate) fn set_attribute(
    alloc: Global,
    store: &mut Store,
    receiver: &Value,
    name: &str,
    value: &Value,
) -> Result<Next, NoMemory>
    ensures means { IfOk result (λ next. (fixed : State) (texts : List Program) (stack : List Frame) → MeansOver (stated fixed store.old.cells texts) (stated fixed store.new.cells texts) stack next (set_attribute receiver.now name.now value.now) stack) }
    ensures light { IfOk result (λ next. (stack : List Frame) → IsLight stack next stack) }
{
    if is_private(name) {
        no_attribute(alloc, name)
    } else {
        set_in(alloc, store, receiver, name, value)
    }
}

fn set_in(
    alloc: Global,
    store: &mut Store,
    receiver: &Value,
    name: &str,
    value: &Value,
) -> Result<Next, NoMemory>
    ensures means { IfOk result (λ next. (fixed : State) (texts : List Program) (stack : List Frame) → MeansOver (stated fixed store.old.cells texts) (stated fixed store.new.cells texts) stack next (sets_in receiver.now name.now value.now) stack) }
    ensures light { IfOk result (λ next. (stack : List Frame) → IsLight stack next stack) }
{
    match receiver {
        Value::Own(number) => set_in_object(alloc, store, *number, name, value),
        Value::Plain(_) => Ok(Next::Leave(Beyond::Attribute)),
        Value::Tuple(_) => Ok(Next::Leave(Beyond::Attribute)),
        Value::Proxy(_) => Ok(Next::Leave(Beyond::Attribute)),
    }
}

#[tactic(auto, using(crate::proofs::AttributeLemmas::owner_told))]
fn set_in_object(
    alloc: Global,
    store: &mut Store,
    number: u32,
    name: &str,
    value: &Value,
) -> Result<Next, NoMemory>
    ensures means { IfOk result (λ next. (fixed : State) (texts : List Program) (stack : List Frame) → MeansOver (stated fixed store.old.cells texts) (stated fixed store.new.cells texts) stack next (sets_in (variant.Own number) name.now value.now) stack) }
    ensures light { IfOk result (λ next. (stack : List Frame) → IsLight stack next stack) }
{
    match owner_at(store, number) {
        Some(true) => set_in_owner(alloc, store, number, name, value),
        Some(false) => Ok(Next::Leave(Beyond::Attribute)),
        None => Ok(Next::Leave(Beyond::NotYet)),
    }
}

fn set_in_owner(
    alloc: Global,
    store: &mut Store,
    number: u32,
    name: &str,
    value: &Value,
) -> Result<Next, NoMemory>
    requires { IsOwner store.old.cells number }
    ensures means { IfOk result (λ next. (fixed : State) (texts : List Program) (stack : List Frame) → MeansOver (stated fixed store.old.cells texts) (stated fixed store.new.cells texts) stack next (sets_in (variant.Own number) name.now value.now) stack) }
    ensures light { IfOk result (λ next. (stack : List Frame) → IsLight stack next stack) }
{
    let name = Text::from_str(alloc, name)?;
    let value = value.copy(alloc)?;
    set_own(store, number, name, value)
}

/// Whether the cell of this number is an instance or a class, if there is one.
fn owner_at(store: &Store, number: u32) -> Option<bool>
    ensures { OwnsOrNot store.now.cells number result }
{
    match store.get(number) {
        Some(cell) => Some(is_owner(cell)),
        None => None,
    }
}

fn is_owner(cell: &Cell) -> bool
    ensures { OwnsOrNotCell cell.now result }
{
    match cell {
        Cell::Instance { .. } => true,
        Cell::Class { .. } => true,
        Cell::List(_) => false,
        Cell::Dict { .. } => false,
        Cell::Namespace { .. } => false,
        Cell::Conn { .. } => false,
        Cell::Modules { .. } => false,
        Cell::Host(_) => false,
        Cell::Root => false,
        Cell::Function { .. } => false,
        Cell::Bound { .. } => false,
        Cell::Iter { .. } => false,
        Cell::View { .. } => false,
        Cell::Range { .. } => false,
        Cell::HostFunc { .. } => false,
        Cell::Scope { .. } => false,
    }
}

/// `del receiver.name`.
pub(crate) fn delete_attribute(
    alloc: Global,
    store: &mut Store,
    receiver: &Value,
    name: &str,
) -> Result<Next, NoMemory>
    ensures means { IfOk result (λ next. (fixed : State) (texts : List Program) (stack : List Frame) → MeansOver (stated fixed store.old.cells texts) (stated fixed store.new.cells texts) stack next (delete_attribute receiver.now name.now) stack) }
    ensures light { IfOk result (λ next. (stack : List Frame) → IsLight stack next stack) }
{
    if is_private(name) {
        no_attribute(alloc, name)
    } else {
        delete_in(alloc, store, receiver, name)
    }
}

fn delete_in(
    alloc: Global,
    store: &mut Store,
    receiver: &Value,
    name: &str,
) -> Result<Next, NoMemory>
    ensures means { IfOk result (λ next. (fixed : State) (texts : List Program) (stack : List Frame) → MeansOver (stated fixed store.old.cells texts) (stated fixed store.new.cells texts) stack next (deletes_in receiver.now name.now) stack) }
    ensures light { IfOk result (λ next. (stack : List Frame) → IsLight stack next stack) }
{
    match receiver {
        Value::Own(number) => delete_in_object(alloc, store, *number, name),
        Value::Plain(_) => Ok(Next::Leave(Beyond::Attribute)),
        Value::Tuple(_) => Ok(Next::Leave(Beyond::Attribute)),
        Value::Proxy(_) => Ok(Next::Leave(Beyond::Attribute)),
    }
}

#[tactic(auto, using(crate::proofs::AttributeLemmas::owner_told))]
fn delete_in_object(
    alloc: Global,
    store: &mut Store,
    number: u32,
    name: &str,
) -> Result<Next, NoMemory>
    ensures means { IfOk result (λ next. (fixed : State) (texts : List Program) (stack : List Frame) → MeansOver (stated fixed store.old.cells texts) (stated fixed store.new.cells texts) stack next (deletes_in (variant.Own number) name.now) stack) }
    ensures light { IfOk result (λ next. (stack : List Frame) → IsLight stack next stack) }
{
    match owner_at(store, number) {
        Some(true) => delete_own(alloc, store, number, name),
        Some(false) => Ok(Next::Leave(Beyond::Attribute)),
        None => Ok(Next::Leave(Beyond::NotYet)),
    }
}
