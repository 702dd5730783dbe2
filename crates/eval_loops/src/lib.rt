//! The steps of a machine at `for`: how it begins, and how it goes on with the end of a part.
#![tactic(auto)]

mod giving;
mod items;
mod turns;

pub use giving::{begin_for, give_for};
