//! Frames of RPyC's channel, after RPyC's module `channel`: a frame is the length of its data in four bytes, the
//! highest first, a flag byte 0 (not compressed), the data, and a last byte 0x0a, the flusher.
#![tactic(auto)]

mod deframer;
mod fault;
mod framing;
mod laws;

pub use deframer::Deframer;
pub use fault::FrameFault;
pub use framing::{LONGEST, frame};
pub use laws::{
    all_frames_are_read, cutting_does_not_matter, faults_say_what_is_there, faults_stay,
    frames_are_read_in_order, fronts_of_frames_are_parts, more_bytes_go_on, only_frames_are_read,
    parts_are_begun_frames, streams_are_frames, whole_frames_are_read,
};
