//! A side as it starts: its namespace, its root, and a cell for each module of the program around it.
#![tactic(auto)]

mod starting;

pub use starting::start;
