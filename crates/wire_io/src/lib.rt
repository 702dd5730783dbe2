//! The outside of the product: files that are read, a sink for output, and the wire between the two sides.
//! Each is a trait, with a form in memory and a form over the system.
#![tactic(auto)]

mod calls;
mod ends;
mod files;
mod mem_files;
mod mem_sink;
mod mem_wire;
mod real;
mod sink;
mod wire;

pub use ends::WireEnd;
pub use files::{FileAnswer, Files};
pub use mem_files::MemFiles;
pub use mem_sink::MemSink;
pub use mem_wire::MemWire;
pub use real::{RealFiles, RealSink};
pub use sink::{Sink, write_all};
pub use wire::{Over, Wire};
