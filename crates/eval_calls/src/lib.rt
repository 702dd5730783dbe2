//! Calls of functions, bound methods and classes: how a function is made, and how its call begins and ends.
#![tactic(auto)]

mod bodies;
mod calling;
mod defining;
mod endings;
mod exceptions;
mod making;
mod scopes;

pub use calling::call;
pub use defining::begin_def;
pub use endings::{empty_call, end_call};
