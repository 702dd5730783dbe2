//! Suites, branches and loops whose statements need no frame: as many as can be carried out at once are, in one step of the
//! machine with all their units, and the rest goes on by frames.
#![tactic(auto)]

mod branches;
mod operands;
mod returning;
mod suites;
mod testing;
mod turns;

pub use branches::branch;
pub use operands::{call_within, gather_within};
pub use returning::return_value;
pub use suites::execute_waiting;
pub use turns::begin_turn;
