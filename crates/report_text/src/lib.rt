//! Messages and streams of frames as printed text.
#![tactic(auto)]

mod dumped;
mod judging;
mod laws;
mod lines;
mod streams;

pub use dumped::Dump;
pub use laws::{
    frames_are_judged, messages_are_printed, reports_have_no_limit, streams_are_messages,
};
pub use lines::message_line;
pub use streams::dump;
