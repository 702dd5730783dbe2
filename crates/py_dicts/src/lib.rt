//! The operations on dicts that draw no items and ask nothing.
#![tactic(auto)]

mod changing;
mod ends;
mod operations;
mod reading;

pub use operations::{MOST_ENTRIES, change_dict, dict_method, dict_view, read_dict};
