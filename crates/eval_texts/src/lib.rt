//! The texts of objects: `str` and `repr` of lists, dicts and ranges.
#![tactic(auto)]

mod dicts;
mod lists;
mod objects;
mod parts;
mod ranges;
mod waiting;

pub use objects::{repr_of, str_of};
pub use waiting::give_text;
