ghost use Rattle.std.specs.Prelude.{◌≡◌, ℕ, List};
ghost use Rattle.rp_base.specs.declared.rules.Refused.{Refused};
ghost use Rattle.py_ast.specs.declared.program.Program.{Program};
ghost use Rattle.py_grammar.specs.declared.symbol.Start.{Start};
ghost use Rattle.py_mentions.specs.Worst.{IsWorst};
ghost use Rattle.py_scope.specs.Accepting.{Accepted, RefusedAt};

/// Of what a script breaks, one place is the first.
pub fn one_is_first()
    ensures { (rs : List Refused) → (a : Refused) → (b : Refused) → IsWorst rs a → IsWorst rs b → a ≡ b }
{}

/// A text is accepted with one tree, or refused at one line by one rule, and never both.
pub fn a_text_has_one_judgement()
    ensures accepted { (s : Start) → (t : List ℕ) → (p : Program) → (q : Program) → Accepted s t p → Accepted s t q → p ≡ q }
    ensures refused { (s : Start) → (t : List ℕ) → (q : Refused) → (r : Refused) → RefusedAt s t q → RefusedAt s t r → q ≡ r }
    ensures never_both { (s : Start) → (t : List ℕ) → (p : Program) → (r : Refused) → Accepted s t p → RefusedAt s t r → ⊥ }
{}
