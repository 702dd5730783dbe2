//! What the program around a side offers to scripts: modules, each with a state and a rule.
#![tactic(auto)]

mod host;
mod list;
#[cfg(test)]
mod tests;

pub use host::{Host, HostAnswer};
pub use list::{call_at, has_at, name_at};
