//! What may be asked of an object: the operations that travel between sides, their special names, and the builtin
//! methods; where code runs, how it ends, and what is under way.
#![tactic(auto)]

mod ending;
mod method;
mod operation;
mod special;
mod under_way;

pub use ending::{Completion, Env};
pub use method::BuiltinMethod;
pub use operation::Operation;
pub use special::Special;
pub use under_way::{Handling, MadeClass};
