ghost use Rattle.std.specs.Prelude.{◌≡◌, ◌-◌, [], IfOk, List, slice_set};
ghost use Rattle.py_ast.specs.declared.program.Program.{Program};
ghost use Rattle.py_store.specs.declared.cell.Cell.TheVariants as cell;
ghost use Rattle.side_trees.specs.Trees.{Return};
ghost use Rattle.eval_frames.specs.declared.frame.Frame.{Frame};
ghost use Rattle.eval_frames.specs.Meaning.{IsLight, Means, MeansOver};
ghost use Rattle.language_rules.specs.AtOnce.{stated};
ghost use Rattle.language_rules.specs.Functions.{ends_call, returned};
ghost use Rattle.language_rules.specs.Going.{sets_cell};
ghost use Rattle.language_rules.specs.States.{State};

use eval_frames::Next;
use object_operations::Completion;
use py_ast::FunctionInfo;
use py_store::{Cell, Store};
use rp_base::NoMemory;
use sqlite_items::Items;
use std::alloc::Global;

/// A call ends with the value of a `return`, and with any other end as it is.
pub fn end_call(completion: Completion) -> Next
    ensures means { (stack : List Frame) → Means stack result (Return (returned completion)) stack }
    ensures light { (stack : List Frame) → IsLight stack result stack }
{
    match completion {
        Completion::Returns(value) => Next::Give(Completion::Gives(value)),
        ending => Next::Give(ending),
    }
}

/// A call ends whose variables nothing can read any more.
pub fn empty_call(
    alloc: Global,
    store: &mut Store,
    scope: u32,
    parent: u32,
    completion: Completion,
) -> Result<Next, NoMemory>
    ensures means { IfOk result (λ next. (fixed : State) (texts : List Program) (stack : List Frame) → MeansOver (stated fixed store.old.cells texts) (stated fixed store.new.cells texts) stack next (sets_cell scope (cell.Scope [] parent) (Return (returned completion))) stack) }
    ensures light { IfOk result (λ next. (stack : List Frame) → IsLight stack next stack) }
{
    empty_scope(alloc, store, scope, parent);
    Ok(end_call(completion))
}

/// The scope of this number has no variables from now on. As in the rules, number 0 stands for the first cell.
fn empty_scope(alloc: Global, store: &mut Store, scope: u32, parent: u32)
    ensures { store.new.cells ≡ slice_set store.old.cells (scope - 1) (cell.Scope [] parent) }
{
    let at = scope.saturating_sub(1);
    if at < store.size() {
        let names = Items::new(alloc);
        store.replace(at + 1, Cell::Scope { names, parent });
    }
}

/// The end of a function's body is the end of its call.
pub(crate) fn end_body(
    alloc: Global,
    store: &mut Store,
    info: &FunctionInfo,
    scope: u32,
    parent: u32,
    completion: Completion,
) -> Result<Next, NoMemory>
    ensures means { IfOk result (λ next. (fixed : State) (texts : List Program) (stack : List Frame) → MeansOver (stated fixed store.old.cells texts) (stated fixed store.new.cells texts) stack next (ends_call info.now scope parent completion) stack) }
    ensures light { IfOk result (λ next. (stack : List Frame) → IsLight stack next stack) }
{
    if info.has_inner {
        Ok(end_call(completion))
    } else {
        empty_call(alloc, store, scope, parent, completion)
    }
}
