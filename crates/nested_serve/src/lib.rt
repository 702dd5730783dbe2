//! A side that runs by itself: its machine, the steps, how far it gets within its units, and an endpoint that is stepped.
#![tactic(auto)]

mod alone;
mod at_once;
mod endpoint;
mod entering;
mod giving;
mod laws;
mod machine;
mod performing;
mod running;
mod starting;
mod within;

pub use alone::{AloneEnd, AloneRun, alone_run, run_alone};
pub use endpoint::{Endpoint, Role, StepEnd, TextEnd};
pub use entering::enter;
pub use giving::give;
pub use laws::{a_script_begins_with_its_statements, an_endpoint_ends_as_a_run_alone};
pub use machine::{Halt, Machine};
pub use running::run;
pub use starting::begin;
