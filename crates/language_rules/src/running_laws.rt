ghost use Rattle.std.specs.Prelude.{◌≡◌, ℕ, List, Some, Ok, Err};
ghost use Rattle.rp_base.specs.declared.exceptions.Beyond.{Beyond};
ghost use Rattle.language_rules.specs.Codes.{Code, Completion};
ghost use Rattle.language_rules.specs.Going.{RuleTree};
ghost use Rattle.language_rules.specs.States.{State};
ghost use Rattle.side_trees.specs.Trees.{bind, run, Stopped};
ghost use Rattle.language_rules.specs.AtOnce.{at_once};

/// What ends at once does so in every run, with any units: what waits for it goes on, or the subset is left.
pub fn what_ends_at_once_goes_on()
    ensures goes_on { (expand : Code → RuleTree) (emit : List ℕ → List ℕ → List ℕ) (units : ℕ) (t : RuleTree) (k : Completion → RuleTree) (s now : State) (w : List ℕ) (a : Completion) → at_once t s ≡ Some (Ok a, now) → run expand emit units (bind t k) s w ≡ run expand emit units (k a) now w }
    ensures leaves { (expand : Code → RuleTree) (emit : List ℕ → List ℕ → List ℕ) (units : ℕ) (t : RuleTree) (k : Completion → RuleTree) (s now : State) (w : List ℕ) (x : Beyond) → at_once t s ≡ Some (Err x, now) → run expand emit units (bind t k) s w ≡ Stopped x now units w }
{}
