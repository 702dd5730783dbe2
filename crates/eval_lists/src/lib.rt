//! Operations on lists, behind their unit (Python Library Reference, "Sequence Types").
#![tactic(auto)]

mod copying;
mod draining;
mod extending;
mod specials;

pub use specials::special_of_list;
