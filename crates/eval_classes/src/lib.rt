//! Class statements (Python Language Reference, "Class definitions").
#![tactic(auto)]

mod attributes;
mod bases;
mod making;
mod members;
mod statements;

pub use members::begin_member;
pub use statements::{begin_class, give_class};
