//! Names: where each is, and its reading and binding.
#![tactic(auto)]

mod ends;
mod lookup;
mod names;
mod place;

pub use lookup::{function_at, has_name};
pub use names::{bind_name, read_name};
