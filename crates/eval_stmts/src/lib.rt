//! The steps of a machine at statements: how each begins, and how it goes on with the value or the end of a part.
#![tactic(auto)]

mod branches;
mod loops;
mod steps;
mod suites;

pub use branches::{begin_if, decide_if, execute_otherwise};
pub use loops::{begin_while, decide_while, end_turn};
pub use steps::{begin_statement, give_statement};
pub use suites::{execute_further, execute_suite};
