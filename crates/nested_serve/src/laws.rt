ghost use Rattle.std.specs.Prelude.{◌≡◌, ℕ, List, [], ◌∷◌, ◌+◌, Some};
ghost use Rattle.py_ast.specs.declared.program.Program.{Program};
ghost use Rattle.language_rules.specs.Going.{executes_all};
ghost use Rattle.language_rules.specs.Programs.{top_of};
ghost use Rattle.eval_frames.specs.declared.next.Next.{Next};
ghost use Rattle.eval_frames.specs.Meaning.{Means};
ghost use Rattle.rp_base.specs.declared.exceptions.Beyond.{Beyond};
ghost use Rattle.nested_serve.specs.declared.alone.AloneEnd.TheVariants as alone_end;
ghost use Rattle.nested_serve.specs.declared.endpoint.Endpoint.{Endpoint};
ghost use Rattle.nested_serve.specs.declared.endpoint.StepEnd.TheVariants as step;
ghost use Rattle.nested_serve.specs.declared.endpoint.TextEnd.{TextEnd};
ghost use Rattle.nested_serve.specs.declared.machine.Machine.{Machine};
ghost use Rattle.nested_serve.specs.Alone.{IsRunAlone};
ghost use Rattle.nested_serve.specs.Endpoints.{IsAt, answer_of, run_of, text_end_of, told_end};
ghost use Rattle.nested_serve.specs.Machines.{Begins, IsScriptOf, printed_by};
ghost use Rattle.slave_service.specs.FirstCells.{first_cells_of};

/// A machine with the first cells and this one text, which is about to execute its statements, begins that script.
pub fn a_script_begins_with_its_statements()
    ensures { (program : Program) (statements : List ℕ) (m : Machine) (n : Next) → IsScriptOf program statements → m.store.cells ≡ first_cells_of program.handler_names [] → m.texts.items ≡ program ∷ [] → m.handled ≡ [] → m.printing ≡ [] → m.classes ≡ [] → printed_by m ≡ [] → Means m.stack.items n (executes_all (top_of 0) statements) [] → Begins program m n }
{}

/// What an endpoint tells of its script's end is what a run of that script alone tells: once the text has ended, or the
/// subset was left, within the units that it spent and any more; out of fuel, within just these. Every step is idle where,
/// and only where, the text has ended.
pub fn an_endpoint_ends_as_a_run_alone()
    ensures ended { (program : Program) (spent more : ℕ) (e : Endpoint) (end : TextEnd) → IsAt program spent e → text_end_of e ≡ Some end → IsRunAlone program (spent + more) (run_of (told_end end) e spent) }
    ensures no_fuel { (program : Program) (spent : ℕ) (e : Endpoint) → IsAt program spent e → answer_of e ≡ Some step.NoFuel → IsRunAlone program spent (run_of alone_end.OutOfFuel e spent) }
    ensures beyond { (program : Program) (spent more : ℕ) (e : Endpoint) (b : Beyond) → IsAt program spent e → answer_of e ≡ Some (step.Beyond b) → IsRunAlone program (spent + more) (run_of (alone_end.Beyond b) e spent) }
    ensures idle { (e : Endpoint) → answer_of e ≡ Some step.Idle → (end : TextEnd) × (text_end_of e ≡ Some end) }
    ensures only_idle { (e : Endpoint) (end : TextEnd) → text_end_of e ≡ Some end → answer_of e ≡ Some step.Idle }
{}
