//! The tree of a script: expressions, targets and statements as numbered nodes, and the functions of the script.
#![tactic(auto)]

mod builtin;
mod copying;
mod expression;
mod name;
mod node;
mod program;
mod statement;
mod target;

pub use builtin::Builtin;
pub use expression::{Comparison, Expression, Link};
pub use name::Name;
pub use node::Node;
pub use program::{FunctionInfo, Program};
pub use statement::Statement;
pub use target::Target;
