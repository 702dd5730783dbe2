//! The methods of texts (Python Library Reference, "String Methods").
#![tactic(auto)]

mod answers;
mod changing;
mod ends;
mod joining;
mod methods;
mod searching;
mod splitting;

pub use answers::TextAnswer;
pub use joining::join;
pub use methods::text_method;
