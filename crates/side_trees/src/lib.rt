//! Two sides that converse, as trees: the definitions and their laws, for every language.
//!
//! There is no code to run here. Each function has an empty body, and its contract is a law.
#![tactic(auto)]

mod every_schedule;
mod growth;
mod heaps;
mod layers;
mod two_sides;

pub use every_schedule::{
    every_schedule_ends_as_one, every_schedule_rests, pair_comes_to_rest, pair_ends_as_one,
    texts_begin_in_turn,
};
pub use growth::a_side_grows;
pub use heaps::{binds_group, changes_of_two_homes_commute};
pub use layers::{free_messages_change_nothing, numbers_go_by_place, references_balance};
pub use two_sides::{one_heap, one_is_two};
