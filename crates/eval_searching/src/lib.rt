//! Searching for values in lists and in the values of dicts; comparison and addition of lists.
#![tactic(auto)]

mod adding;
mod asking;
mod comparing;
mod dicts;
mod found;
mod indexing;
mod lengths;
mod lists;
mod places;
mod searching;
mod values;

pub use adding::{add_lists, give_addition};
pub use comparing::{compare_lists, give_equality};
pub use dicts::search_values;
pub use indexing::{index_list, remove_from_list};
pub use searching::{give_search, search_list};
