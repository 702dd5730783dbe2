//! The texts of tuples that hold objects (Python Library Reference, "Built-in Functions", `repr`).
#![tactic(auto)]

mod levels;
mod parts;
mod tuples;
mod waiting;

pub use tuples::{TupleText, tuple_text};
pub use waiting::{ask_text, begin_text, give_tuple_text};
