//! The rules on names, and the names that each function keeps.
#![tactic(auto)]

mod accepting;
mod classes;
mod ending;
mod facts;
mod finishing;
mod forms;
mod holding;
mod judging;
mod laws;
mod locals;
mod name_set;
mod names;
mod rules;
mod scopes;
#[cfg(test)]
mod tests;
mod words;

pub use accepting::{accept, accept_expr};
pub use ending::AcceptEnd;
pub use judging::judge;
pub use laws::{a_text_has_one_judgement, one_is_first};
