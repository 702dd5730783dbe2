ghost use Rattle.std.specs.Prelude.{Bool, IfOk, List, ◌≡◌, Option};
ghost use Rattle.rp_base.specs.declared.identity.Kind.{Kind};
ghost use Rattle.rp_base.specs.declared.value.Value.{Value};
ghost use Rattle.py_ast.specs.declared.program.Program.{Program};
ghost use Rattle.eval_frames.specs.declared.frame.Frame.{Frame};
ghost use Rattle.eval_frames.specs.Meaning.{IsLight, Means, MeansIn};
ghost use Rattle.language_rules.specs.Answers.{gives};
ghost use Rattle.language_rules.specs.Arithmetic.{less_view};
ghost use Rattle.language_rules.specs.AtOnce.{stated};
ghost use Rattle.language_rules.specs.Going.{boolean, type_error};
ghost use Rattle.language_rules.specs.Kinds.{on_kind};
ghost use Rattle.language_rules.specs.Operators.{is_view};
ghost use Rattle.language_rules.specs.States.{State};

use crate::kinds::kind_of_value;
use eval_frames::{Next, fail};
use object_operations::Completion;
use py_store::Store;
use rp_base::{Beyond, ExcKind, Kind, NoMemory, Plain, Value};
use std::alloc::Global;

/// A `TypeError` with this text.
pub fn refuse(alloc: Global, text: &str) -> Result<Next, NoMemory>
    ensures means { IfOk result (λ next. (stack : List Frame) → Means stack next (type_error text.now) stack) }
    ensures light { IfOk result (λ next. (stack : List Frame) → IsLight stack next stack) }
{
    fail(alloc, ExcKind::TypeError, text)
}

/// The value is the answer.
pub fn give(value: Value) -> Next
    ensures means { (stack : List Frame) → Means stack result (gives value) stack }
    ensures light { (stack : List Frame) → IsLight stack result stack }
{
    Next::Give(Completion::Gives(value))
}

/// The bool is the answer.
pub fn give_truth(truth: bool) -> Next
    ensures means { (stack : List Frame) → Means stack result (gives (boolean truth)) stack }
    ensures light { (stack : List Frame) → IsLight stack result stack }
{
    give(Value::Plain(Plain::Bool(truth)))
}

/// What has items, less another value: differences with the keys of a view are left out, and there are no others.
pub fn less_view(alloc: Global, store: &Store, other: &Value) -> Result<Next, NoMemory>
    ensures means { IfOk result (λ next. (fixed : State) (texts : List Program) (stack : List Frame) → MeansIn (stated fixed store.now.cells texts) stack next (on_kind other.now less_view) stack) }
    ensures light { IfOk result (λ next. (stack : List Frame) → IsLight stack next stack) }
{
    less_kind(alloc, kind_of_value(store, other))
}

fn less_kind(alloc: Global, kind: Option<Kind>) -> Result<Next, NoMemory>
    ensures means { IfOk result (λ next. (stack : List Frame) → Means stack next (less_view kind) stack) }
    ensures light { IfOk result (λ next. (stack : List Frame) → IsLight stack next stack) }
{
    if is_view(kind) {
        Ok(Next::Leave(Beyond::Operator))
    } else {
        refuse(alloc, "unsupported operand")
    }
}

fn is_view(kind: Option<Kind>) -> bool
    ensures { (v : Value) → result ≡ is_view (v, kind) }
{
    matches!(kind, Some(Kind::View))
}
