ghost use Rattle.std.specs.Prelude.{IfOk, List};
ghost use Rattle.py_ast.specs.declared.program.Program.{Program};
ghost use Rattle.eval_frames.specs.declared.frame.Frame.{Frame};
ghost use Rattle.eval_frames.specs.Meaning.{IsLight, MeansIn};
ghost use Rattle.language_rules.specs.AtOnce.{stated};
ghost use Rattle.language_rules.specs.Perform.{repr_rule, str_rule};
ghost use Rattle.language_rules.specs.States.{State};

use crate::functions::of_function;
use eval_frames::Next;
use py_store::Store;
use rp_base::{Beyond, NoMemory, Value};

/// `str` of an object: that of a function would show an address.
pub(crate) fn str_of(store: &Store, receiver: &Value) -> Result<Next, NoMemory>
    ensures means { IfOk result (λ next. (fixed : State) (texts : List Program) (stack : List Frame) → MeansIn (stated fixed store.now.cells texts) stack next (str_rule receiver.now) stack) }
    ensures light { IfOk result (λ next. (stack : List Frame) → IsLight stack next stack) }
{
    match receiver {
        Value::Own(number) => of_function(store, *number, Next::Leave(Beyond::Address)),
        Value::Plain(_) => Ok(Next::Leave(Beyond::NotYet)),
        Value::Tuple(_) => Ok(Next::Leave(Beyond::NotYet)),
        Value::Proxy(_) => Ok(Next::Leave(Beyond::NotYet)),
    }
}

/// `repr` of an object.
pub(crate) fn repr_of(store: &Store, receiver: &Value) -> Result<Next, NoMemory>
    ensures means { IfOk result (λ next. (fixed : State) (texts : List Program) (stack : List Frame) → MeansIn (stated fixed store.now.cells texts) stack next (repr_rule receiver.now) stack) }
    ensures light { IfOk result (λ next. (stack : List Frame) → IsLight stack next stack) }
{
    match receiver {
        Value::Own(number) => of_function(store, *number, Next::Leave(Beyond::Address)),
        Value::Plain(_) => Ok(Next::Leave(Beyond::NotYet)),
        Value::Tuple(_) => Ok(Next::Leave(Beyond::NotYet)),
        Value::Proxy(_) => Ok(Next::Leave(Beyond::NotYet)),
    }
}
