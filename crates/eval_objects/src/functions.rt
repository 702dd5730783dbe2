ghost use Rattle.std.specs.Prelude.{IfOk, List};
ghost use Rattle.py_ast.specs.declared.program.Program.{Program};
ghost use Rattle.py_store.specs.declared.cell.Cell.{Cell};
ghost use Rattle.eval_frames.specs.declared.frame.Frame.{Frame};
ghost use Rattle.eval_frames.specs.Meaning.{IsLight, MeansIn};
ghost use Rattle.language_rules.specs.AtOnce.{stated};
ghost use Rattle.language_rules.specs.Going.{RuleTree, reads_cell};
ghost use Rattle.language_rules.specs.States.{State};
ghost use Rattle.eval_objects.specs.Receivers.{IsOfFunctions};

use eval_frames::Next;
use py_store::{Cell, Store};
use rp_base::{Beyond, NoMemory};

/// What a function answers, where the cell of this number is one. Any other object is not built yet.
pub(crate) fn of_function(store: &Store, number: u32, answer: Next) -> Result<Next, NoMemory>
    ensures means { IfOk result (λ next. (f : Cell → RuleTree) → IsOfFunctions f answer → (fixed : State) (texts : List Program) (stack : List Frame) → MeansIn (stated fixed store.now.cells texts) stack next (reads_cell number f) stack) }
    ensures light { IfOk result (λ next. ((stack : List Frame) → IsLight stack answer stack) → (stack : List Frame) → IsLight stack next stack) }
{
    match store.get(number) {
        Some(Cell::Function { .. }) => Ok(answer),
        Some(_) => Err(NoMemory),
        None => Ok(Next::Leave(Beyond::NotYet)),
    }
}
