//! The order that `sorted` gives items (Python Library Reference, "Built-in Functions").
#![tactic(auto)]

mod items;
mod kinds;
mod orders;

pub use items::sorted_items;
