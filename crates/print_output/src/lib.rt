//! What `print` writes.
#![tactic(auto)]

mod pieces;
mod printing;
mod waiting;

pub use printing::{give_printing, print};
