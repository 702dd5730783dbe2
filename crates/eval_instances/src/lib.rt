//! Instances and classes: their attributes, calls, and the special methods of a class (Python Language Reference, "The
//! standard type hierarchy" and "Special method names").
#![tactic(auto)]

mod answers;
mod calling;
mod changing;
mod comparing;
mod lengths;
mod making;
mod methods;
mod operations;
mod printing;
mod reading;
mod specials;

pub use answers::give_method;
pub use changing::{delete_own, set_own};
pub use comparing::compare_instance;
pub use making::make_instance;
pub use printing::{repr_of_instance, str_of_instance};
pub use reading::{attribute_of_class, attribute_of_instance};
pub use specials::special_of_instance;
