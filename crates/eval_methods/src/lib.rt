//! Methods of lists, dicts and texts (Python Library Reference, "Built-in Types").
#![tactic(auto)]

mod calling;
mod dicts;
mod draining;
mod lists;
mod texts;

pub use calling::call_method;
