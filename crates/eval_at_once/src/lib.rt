//! What needs no frame: expressions of names, constants, operators and comparisons of values at hand, and assignments of
//! such expressions to names, are carried out in one step of the machine with all their units.
#![tactic(auto)]

mod applying;
mod evaluating;
mod executing;

pub use evaluating::{Evaluated, evaluate};
pub use executing::{DEPTH, execute};
