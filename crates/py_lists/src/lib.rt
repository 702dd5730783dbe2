//! The operations on lists that neither search, drain nor ask.
#![tactic(auto)]

mod ends;
mod items;
mod methods;
mod operations;
mod positions;

pub use methods::MOST_ITEMS;
pub use operations::{change_list, list_method, put_list, read_list, take_list};
