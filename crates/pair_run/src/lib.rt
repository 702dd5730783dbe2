//! A run of two scripts of this stage as a pair over two byte wires: the scripts' lines, the messages of the
//! conversation, and what the run came to.
#![tactic(auto)]

mod delivery;
mod ends;
mod messages;
mod pair;
mod run;
mod scripts;

pub use ends::{PairEnd, RunEnd};
pub use run::{PairScripts, run_pair};
pub use scripts::{Binding, ScriptEnd, bindings, questions};
