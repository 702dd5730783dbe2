ghost use Rattle.std.specs.Prelude.{◌≡◌, IfOk, List};
ghost use Rattle.rp_base.specs.declared.value.Value.{Value};
ghost use Rattle.rp_base.specs.declared.value.Value.TheVariants as value;
ghost use Rattle.object_operations.specs.declared.method.BuiltinMethod.TheVariants as method;
ghost use Rattle.py_ast.specs.declared.program.Program.{Program};
ghost use Rattle.py_lists.specs.Lists.{IsDirect, IsList};
ghost use Rattle.eval_frames.specs.Meaning.{IsLight, MeansIn, MeansOver};
ghost use Rattle.eval_frames.specs.declared.frame.Frame.{Frame};
ghost use Rattle.language_rules.specs.Arithmetic.{extends};
ghost use Rattle.language_rules.specs.AtOnce.{stated};
ghost use Rattle.language_rules.specs.Calls.{method_rule};
ghost use Rattle.language_rules.specs.Going.{done};
ghost use Rattle.language_rules.specs.ListMethods.{list_method};
ghost use Rattle.language_rules.specs.States.{State};
ghost use Rattle.side_trees.specs.Trees.{Return};
ghost use Rattle.eval_methods.specs.Kinds.{IsListMethod};

use crate::draining::extend_by_asking;
use builtin_functions::items_at_hand;
use eval_draining::extend;
use eval_frames::{Frame, Next, answered};
use eval_searching::{index_list, remove_from_list};
use object_operations::BuiltinMethod;
use py_lists::list_method;
use py_store::{Store, Values};
use rp_base::{Beyond, NoMemory, Value};
use sqlite_items::Items;
use std::alloc::Global;

/// What a method is to a list.
#[derive(Clone, Copy, Debug, PartialEq, Eq)]
pub(crate) enum ListMethod {
    /// It neither searches nor drains.
    Direct,
    Extend,
    Index,
    Remove,
    /// Lists have no such method.
    Other,
}

/// A method of the list of this number. `Leave(Arguments)` for what is no method of lists, and for a wrong number of
/// arguments.
pub(crate) fn method_of_list(
    alloc: Global,
    stack: &mut Vec<Frame>,
    store: &mut Store,
    number: u32,
    method: BuiltinMethod,
    arguments: &[Value],
) -> Result<Next, NoMemory>
    requires { IsList store.old.cells number }
    ensures means { IfOk result (λ next. (fixed : State) (texts : List Program) → MeansOver (stated fixed store.old.cells texts) (stated fixed store.new.cells texts) stack.new.items next (method_rule (value.Own number) method arguments.now) stack.old.items) }
    ensures light { IfOk result (λ next. IsLight stack.new.items next stack.old.items) }
{
    match list_method_of(method) {
        ListMethod::Direct => direct(alloc, store, number, method, arguments),
        ListMethod::Extend => extend_with(alloc, stack, store, number, arguments),
        ListMethod::Index => index_with(alloc, stack, store, number, arguments),
        ListMethod::Remove => remove_with(alloc, stack, store, number, arguments),
        ListMethod::Other => Ok(Next::Leave(Beyond::Arguments)),
    }
}

fn list_method_of(method: BuiltinMethod) -> ListMethod
    ensures { IsListMethod method result }
{
    match method {
        BuiltinMethod::Append
        | BuiltinMethod::Clear
        | BuiltinMethod::Insert
        | BuiltinMethod::Pop
        | BuiltinMethod::Reverse => ListMethod::Direct,
        BuiltinMethod::Extend => ListMethod::Extend,
        BuiltinMethod::Index => ListMethod::Index,
        BuiltinMethod::Remove => ListMethod::Remove,
        BuiltinMethod::Get
        | BuiltinMethod::Items
        | BuiltinMethod::Keys
        | BuiltinMethod::SetDefault
        | BuiltinMethod::Values
        | BuiltinMethod::EndsWith
        | BuiltinMethod::Find
        | BuiltinMethod::Join
        | BuiltinMethod::Replace
        | BuiltinMethod::Split
        | BuiltinMethod::StartsWith
        | BuiltinMethod::Strip
        | BuiltinMethod::Eval
        | BuiltinMethod::Execute
        | BuiltinMethod::GetModule => ListMethod::Other,
    }
}

/// A method that neither searches nor drains.
fn direct(
    alloc: Global,
    store: &mut Store,
    number: u32,
    method: BuiltinMethod,
    arguments: &[Value],
) -> Result<Next, NoMemory>
    requires list { IsList store.old.cells number }
    requires direct { IsDirect method }
    ensures means { IfOk result (λ next. (fixed : State) (texts : List Program) (stack : List Frame) → MeansOver (stated fixed store.old.cells texts) (stated fixed store.new.cells texts) stack next (method_rule (value.Own number) method arguments.now) stack) }
    ensures light { IfOk result (λ next. (stack : List Frame) → IsLight stack next stack) }
{
    answered(list_method(alloc, store, number, method, arguments))
}

/// `extend`: the items of another value go behind those of the list.
fn extend_with(
    alloc: Global,
    stack: &mut Vec<Frame>,
    store: &mut Store,
    number: u32,
    arguments: &[Value],
) -> Result<Next, NoMemory>
    ensures means { IfOk result (λ next. (items : List Value) (fixed : State) (texts : List Program) → MeansOver (stated fixed store.old.cells texts) (stated fixed store.new.cells texts) stack.new.items next (list_method number items method.Extend arguments.now) stack.old.items) }
    ensures light { IfOk result (λ next. IsLight stack.new.items next stack.old.items) }
{
    match arguments {
        [more] => extend_by(alloc, stack, store, number, more),
        _ => Ok(Next::Leave(Beyond::Arguments)),
    }
}

fn extend_by(
    alloc: Global,
    stack: &mut Vec<Frame>,
    store: &mut Store,
    number: u32,
    more: &Value,
) -> Result<Next, NoMemory>
    ensures means { IfOk result (λ next. (fixed : State) (texts : List Program) → MeansOver (stated fixed store.old.cells texts) (stated fixed store.new.cells texts) stack.new.items next (extends number more.now (Return done)) stack.old.items) }
    ensures light { IfOk result (λ next. IsLight stack.new.items next stack.old.items) }
{
    match items_at_hand(alloc, more)? {
        Some(items) => extend(alloc, store, number, false, items_of(items)),
        None => extend_by_asking(alloc, stack, store, number, more),
    }
}

fn items_of(values: Values) -> Items<Value>
    ensures { result ≡ values }
{
    Items::from_vec(values.into_vec())
}

/// `index`: the first position of a value.
fn index_with(
    alloc: Global,
    stack: &mut Vec<Frame>,
    store: &Store,
    number: u32,
    arguments: &[Value],
) -> Result<Next, NoMemory>
    requires { IsList store.now.cells number }
    ensures means { IfOk result (λ next. (items : List Value) (fixed : State) (texts : List Program) → MeansIn (stated fixed store.now.cells texts) stack.new.items next (list_method number items method.Index arguments.now) stack.old.items) }
    ensures light { IfOk result (λ next. IsLight stack.new.items next stack.old.items) }
{
    match arguments {
        [wanted] => index_list(alloc, stack, store, number, wanted.copy(alloc)?),
        _ => Ok(Next::Leave(Beyond::Arguments)),
    }
}

/// `remove`: the first item in which a value is found is taken out.
fn remove_with(
    alloc: Global,
    stack: &mut Vec<Frame>,
    store: &mut Store,
    number: u32,
    arguments: &[Value],
) -> Result<Next, NoMemory>
    requires { IsList store.old.cells number }
    ensures means { IfOk result (λ next. (items : List Value) (fixed : State) (texts : List Program) → MeansOver (stated fixed store.old.cells texts) (stated fixed store.new.cells texts) stack.new.items next (list_method number items method.Remove arguments.now) stack.old.items) }
    ensures light { IfOk result (λ next. IsLight stack.new.items next stack.old.items) }
{
    match arguments {
        [wanted] => remove_from_list(alloc, stack, store, number, wanted.copy(alloc)?),
        _ => Ok(Next::Leave(Beyond::Arguments)),
    }
}
