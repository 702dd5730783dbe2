//! Reads a script's tokens by the grammar's table.
#![tactic(auto)]

mod builder;
mod laws;
mod parsing;
mod parts;
mod reading;
mod table;
mod terminals;

pub use laws::{a_text_has_one_answer, trees_are_numbered};
pub use parsing::{ParseEnd, parse, parse_expr};
