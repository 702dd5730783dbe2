ghost use Rattle.std.specs.Prelude.{◌≡◌};
ghost use Rattle.side_trees.specs.SharedRun.{Side, A, B};
ghost use Rattle.side_trees.specs.Toy.{toy, ToyTree, Outcome, cell_list};
ghost use Rattle.side_trees.specs.Trees.{Return, bind};

/// Binding a return does nothing, and binds group: at the toy language.
pub fn binds_group()
    ensures unit { (t : ToyTree) → bind t (λ a. Return a) ≡ t }
    ensures grouped { (t : ToyTree) (k j : Outcome → ToyTree) → bind (bind t k) j ≡ bind t (λ a. bind (k a) j) }
{}

/// What each side sees of one heap does not depend on the order in which both change their parts: at the toy language's list of cells.
pub fn changes_of_two_homes_commute()
    ensures { (k : Side) (g f : toy.S → toy.S) (w : cell_list.W) → cell_list.seen_by k (cell_list.changed_by A g (cell_list.changed_by B f w)) ≡ cell_list.seen_by k (cell_list.changed_by B f (cell_list.changed_by A g w)) }
{}
