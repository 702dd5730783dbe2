ghost use Rattle.std.specs.Prelude.{IfOk, List, ℕ};
ghost use Rattle.rp_base.specs.declared.value.Value.TheVariants as value;
ghost use Rattle.py_ast.specs.declared.program.Program.{Program};
ghost use Rattle.py_dicts.specs.DictCells.{IsDict, IsDirect, view_method};
ghost use Rattle.py_store.specs.EntryLists.{EntryList};
ghost use Rattle.eval_frames.specs.declared.frame.Frame.{Frame};
ghost use Rattle.eval_frames.specs.Meaning.{IsLight, Means, MeansOver};
ghost use Rattle.language_rules.specs.AtOnce.{stated};
ghost use Rattle.language_rules.specs.Calls.{method_rule};
ghost use Rattle.language_rules.specs.DictMethods.{dict_method};
ghost use Rattle.language_rules.specs.States.{State};
ghost use Rattle.eval_methods.specs.Kinds.{IsDictMethod};

use eval_frames::{Next, answered};
use object_operations::BuiltinMethod;
use py_dicts::dict_method;
use py_store::{Cell, Store, Which};
use rp_base::{Beyond, NoMemory, Value};
use std::alloc::Global;

/// What a method is to a dict.
#[derive(Clone, Copy, Debug, PartialEq, Eq)]
pub(crate) enum DictMethod {
    /// It makes no view.
    Direct,
    View(Which),
    /// Dicts have no such method.
    Other,
}

/// A method of the dict of this number. `Leave(Arguments)` for what is no method of dicts, and for a wrong number of
/// arguments.
pub(crate) fn method_of_dict(
    alloc: Global,
    store: &mut Store,
    number: u32,
    method: BuiltinMethod,
    arguments: &[Value],
) -> Result<Next, NoMemory>
    requires { IsDict store.old.cells number }
    ensures means { IfOk result (λ next. (fixed : State) (texts : List Program) (stack : List Frame) → MeansOver (stated fixed store.old.cells texts) (stated fixed store.new.cells texts) stack next (method_rule (value.Own number) method arguments.now) stack) }
    ensures light { IfOk result (λ next. (stack : List Frame) → IsLight stack next stack) }
{
    match dict_method_of(method) {
        DictMethod::Direct => direct(alloc, store, number, method, arguments),
        DictMethod::View(which) => Ok(view_with(number, which, arguments)),
        DictMethod::Other => Ok(Next::Leave(Beyond::Arguments)),
    }
}

fn dict_method_of(method: BuiltinMethod) -> DictMethod
    ensures { IsDictMethod method result }
{
    match method {
        BuiltinMethod::Clear
        | BuiltinMethod::Get
        | BuiltinMethod::Pop
        | BuiltinMethod::SetDefault => DictMethod::Direct,
        BuiltinMethod::Items => DictMethod::View(Which::Items),
        BuiltinMethod::Keys => DictMethod::View(Which::Keys),
        BuiltinMethod::Values => DictMethod::View(Which::Values),
        BuiltinMethod::Append
        | BuiltinMethod::Extend
        | BuiltinMethod::Index
        | BuiltinMethod::Insert
        | BuiltinMethod::Remove
        | BuiltinMethod::Reverse
        | BuiltinMethod::EndsWith
        | BuiltinMethod::Find
        | BuiltinMethod::Join
        | BuiltinMethod::Replace
        | BuiltinMethod::Split
        | BuiltinMethod::StartsWith
        | BuiltinMethod::Strip
        | BuiltinMethod::Eval
        | BuiltinMethod::Execute
        | BuiltinMethod::GetModule => DictMethod::Other,
    }
}

/// A method that makes no view.
fn direct(
    alloc: Global,
    store: &mut Store,
    number: u32,
    method: BuiltinMethod,
    arguments: &[Value],
) -> Result<Next, NoMemory>
    requires dict { IsDict store.old.cells number }
    requires direct { IsDirect method }
    ensures means { IfOk result (λ next. (fixed : State) (texts : List Program) (stack : List Frame) → MeansOver (stated fixed store.old.cells texts) (stated fixed store.new.cells texts) stack next (method_rule (value.Own number) method arguments.now) stack) }
    ensures light { IfOk result (λ next. (stack : List Frame) → IsLight stack next stack) }
{
    answered(dict_method(alloc, store, number, method, arguments))
}

/// A new view of the dict.
fn view_with(number: u32, which: Which, arguments: &[Value]) -> Next
    ensures means { (entries : EntryList) (shape : ℕ) (stack : List Frame) → Means stack result (dict_method number entries shape (view_method which) arguments.now) stack }
    ensures light { (stack : List Frame) → IsLight stack result stack }
{
    match arguments {
        [] => Next::Make(Cell::View {
            dict: number,
            which,
        }),
        _ => Next::Leave(Beyond::Arguments),
    }
}
