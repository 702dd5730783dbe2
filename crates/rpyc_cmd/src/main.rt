//! The program `rpyc`: runs two scripts as a pair over two byte wires, or one script alone, and reports what they did, or
//! writes a file of frames as text.
#![tactic(auto)]

mod alone_report;
mod decide;
mod report;
mod status;
#[cfg(test)]
mod tests;
mod words;

pub use decide::run_cmd;
use rp_base::NoMemory;
pub use status::Status;
use std::alloc::Global;
use std::env::{Env, FillError};
use std::process::ExitCode;
use wire_io::{MemWire, RealFiles, RealSink};

/// How many bytes a wire in memory holds at once.
const ROOM: usize = 65_536;

fn main(rt: HostRuntime) -> ExitCode {
    let status = run(&rt).unwrap_or(Status::NoMemory);
    ExitCode::from(status.code())
}

fn run(rt: &HostRuntime) -> Result<Status, NoMemory> {
    let alloc = rt.alloc();
    let words = command_words(rt, alloc)?;
    let mut files = RealFiles::new(rt.clone()?);
    let mut out = RealSink::new(rt.stdout());
    let mut ab = MemWire::new(alloc, ROOM, Vec::new(alloc));
    let mut ba = MemWire::new(alloc, ROOM, Vec::new(alloc));
    Ok(run_cmd(alloc, &words, &mut files, &mut out, &mut ab, &mut ba))
}

/// The words after the program's name. One that is not UTF-8 is taken as the empty word, which stands in no command line.
fn command_words(rt: &impl Env, alloc: Global) -> Result<Vec<String>, NoMemory> {
    let mut words = Vec::new(alloc);
    for i in 1..usize::MAX {
        match argument(rt, alloc, i)? {
            Some(bytes) => words.push(String::from_utf8(bytes).unwrap_or(String::new(alloc)))?,
            None => break,
        }
    }
    Ok(words)
}

/// The bytes of a word of the command line, or None past the last.
fn argument(rt: &impl Env, alloc: Global, i: usize) -> Result<Option<Vec<u8>>, NoMemory> {
    let mut capacity = 256usize;
    for _ in 0..usize::BITS {
        let mut bytes = vec![in alloc; 0u8; capacity]?;
        match rt.arg(i, bytes.as_mut_slice()) {
            Ok(n) => {
                bytes.truncate(n);
                return Ok(Some(bytes));
            }
            Err(FillError::NotPresent) => return Ok(None),
            Err(FillError::TooLong) => capacity = capacity.saturating_add(capacity),
        }
    }
    Err(NoMemory)
}
