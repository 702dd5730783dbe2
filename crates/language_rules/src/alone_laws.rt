ghost use Rattle.std.specs.Prelude.{ℕ, []};
ghost use Rattle.py_ast.specs.declared.program.Program.{Program};
ghost use Rattle.language_rules.specs.OneInterpreter.{solo_course};
ghost use Rattle.language_rules.specs.Running.{IsRunOfOne, runs};
ghost use Rattle.language_rules.specs.Starting.{Reader, first_state, text_of};

/// A script alone, as the one interpreter over the shared heap runs it, is the run of one side by itself: the same end,
/// the same output and the same units left. Of a script that asks the other side nothing is claimed.
pub fn a_script_alone_is_one_side()
    ensures { (reader : Reader) (program : Program) (units : ℕ) → IsRunOfOne (solo_course reader program units) (runs units (text_of program) (first_state reader []) []) }
{}
