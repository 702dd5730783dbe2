//! Messages as plain values, after RPyC's modules `protocol` and `consts`: requests, replies and exceptions, the arguments
//! that each handler takes, and the faults that a peer's bytes can show.
#![tactic(auto)]

mod arguments;
mod faults;
mod laws;
mod message;
mod reading;

pub use arguments::check_args;
pub use faults::{MsgFault, PeerFault, PeerKind};
pub use laws::{messages_are_read_back, values_are_one_message};
pub use message::{Message, spell};
pub use reading::read;
