ghost use Rattle.std.specs.Prelude.{Bool, List, ℕ};
ghost use Rattle.side_trees.specs.Counts.{Counted};
ghost use Rattle.side_trees.specs.FreeMessages.{FreeOfCost};
ghost use Rattle.side_trees.specs.Numbers.{ByNumbers, StacksFit};
ghost use Rattle.side_trees.specs.Sides.{Message};
ghost use Rattle.side_trees.specs.Toy.{toy};

/// Releases, pings, their answers, sweeps and what stands behind a close change nothing in a side or in what it says: at the toy language.
pub fn free_messages_change_nothing()
    ensures { FreeOfCost toy ℕ }
{}

/// Export and proxy counts follow from what was written and read, and those of two sides balance: at the toy language.
pub fn references_balance()
    ensures { (same : ℕ → ℕ → Bool) (given : Message toy → List ℕ) → Counted toy ℕ same given }
{}

/// Over messages numbered by place a numbered side is the side itself, with another number it breaks, and its own requests are numbered 0, 1, 2 and on.
/// It keeps a number for each question without an answer, and for each request that it serves: at the toy language.
pub fn numbers_go_by_place()
    ensures places { ByNumbers toy }
    ensures stacks { StacksFit toy }
{}
