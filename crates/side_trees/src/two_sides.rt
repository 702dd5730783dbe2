ghost use Rattle.side_trees.specs.Joining.{OneHeap, OneIsTwo};
ghost use Rattle.side_trees.specs.SharedRun.{two_parts};
ghost use Rattle.side_trees.specs.Toy.{cell_list, toy};

/// The one interpreter is two sides joined, each a fold over what the log has for it: at the toy
/// language, over two heaps side by side and over one list of cells with their homes.
pub fn one_is_two()
    ensures parts { OneIsTwo toy (two_parts toy) }
    ensures cells { OneIsTwo toy cell_list }
{}

/// The run over one heap is the run over its two parts: at the toy language, over one list of
/// cells with their homes.
pub fn one_heap()
    ensures { OneHeap toy cell_list }
{}
