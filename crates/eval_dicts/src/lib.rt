//! Operations on dicts and their views, behind their unit (Python Library Reference, "Mapping Types").
#![tactic(auto)]

mod answers;
mod dicts;
mod views;

pub use dicts::special_of_dict;
pub use views::special_of_view;
