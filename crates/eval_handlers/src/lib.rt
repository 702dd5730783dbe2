//! The steps of a machine at exceptions: `raise`, `try` and its handlers, and what the name of a handler stands for.
#![tactic(auto)]

mod classes;
mod handled;
mod handlers;
mod naming;
mod raising;
mod reserving;
mod steps;
mod suites;
mod telling;

pub use raising::{begin_raise_call, raise_again, raise_name};
pub use reserving::{a_first_text_reserves_its_names, reserved_names};
pub use steps::{begin_try, give_handler};
