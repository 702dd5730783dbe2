ghost use Rattle.side_trees.specs.Growing.{Growth};
ghost use Rattle.side_trees.specs.Toy.{toy};

/// A side is a function of what it reads, and grows with it: at the toy language.
pub fn a_side_grows()
    ensures { Growth toy }
{}
