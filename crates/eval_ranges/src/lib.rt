//! Operations on ranges, behind their unit (Python Library Reference, "Ranges").
#![tactic(auto)]

mod answers;
mod kinds;
mod numbers;
mod operations;
mod specials;

pub use answers::{give, give_truth, less_view, refuse};
pub use kinds::kind_of_value;
pub use numbers::{as_int, range_item, range_length};
pub use specials::special_of_range;
