//! Where a script's tree mentions a name, and where it breaks a rule that a place with its surroundings shows.
#![tactic(auto)]

mod breaking;
mod laws;
mod members;
mod mention;
mod mentioning;
mod names;
mod parts;
mod place;
mod surroundings;
mod walk;
mod worst;

pub use laws::{each_node_is_visited, nothing_precedes_the_worst};
pub use mention::{Form, Mention, Places};
pub use names::{exception_named, is_exception, is_reserved, takes};
pub use walk::places;
pub use worst::{precedes, rank, worse};
