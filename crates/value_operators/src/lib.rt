//! Operators, items, membership and comparisons of values that no object has to be asked for.
#![tactic(auto)]

mod defined;
mod ends;
mod items;
mod links;
mod membership;
mod operators;
mod positions;
mod testing;
mod tuples;

pub use defined::is_defined;
pub use items::item;
pub use links::link;
pub use operators::{binary, unary};
pub use testing::truth;
