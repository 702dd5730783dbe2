ghost use Rattle.side_trees.specs.SharedRun.{two_parts};
ghost use Rattle.side_trees.specs.Schedules.{OneIsPair, InTurn};
ghost use Rattle.side_trees.specs.Resting.{Resting};
ghost use Rattle.side_trees.specs.SharedUnits.{PairEndsAsOne, PairRests, PairComes};
ghost use Rattle.side_trees.specs.Toy.{toy, cell_list};

/// Two sides that read each other's messages in any order come to rest where the one interpreter does,
/// with its outcomes, states, messages and output; before that they follow it. At the toy language, over two parts and over one list of cells.
pub fn every_schedule_ends_as_one()
    ensures parts { OneIsPair toy (two_parts toy) }
    ensures cells { OneIsPair toy cell_list }
{}

/// The texts that are begun are the first of those given, in their order.
pub fn texts_begin_in_turn()
    ensures parts { InTurn toy (two_parts toy) }
    ensures cells { InTurn toy cell_list }
{}

/// Every schedule can be carried on until it rests; so each conversation ends, within its units and texts.
pub fn every_schedule_rests()
    ensures { Resting toy }
{}

/// Two sides that draw their units from one number, reading in any order, end as the one interpreter does with that number:
/// with its outcomes, states, messages, output and units left; before that they follow it.
pub fn pair_ends_as_one()
    ensures parts { PairEndsAsOne toy (two_parts toy) }
    ensures cells { PairEndsAsOne toy cell_list }
{}

/// Such a pair can always be carried on until it rests, and each course of the one interpreter has one.
pub fn pair_comes_to_rest()
    ensures rests { PairRests toy cell_list }
    ensures comes { PairComes toy cell_list }
{}
