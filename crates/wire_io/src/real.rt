ghost use Rattle.std.specs.Prelude.{◌≡◌, ◌≤◌, None, IfOk, length};

use crate::ends::WireEnd;
use crate::files::{FileAnswer, Files};
use crate::sink::Sink;
use rp_base::Blob;
use std::alloc::Global;
use std::fs::File;
use std::io;
use std::io::{ErrorKind, Read, Write};

/// The system's files. It does not tell what they hold, since others may change them.
#[derive(Drop)]
pub struct RealFiles<R> {
    rt: R,
    faults: u64,
}

impl<R: std::rt::Files> RealFiles<R> {
    pub fn new(rt: R) -> RealFiles<R>
        ensures held { ⟦<RealFiles<R> as Files>⟧.held result ≡ None }
        ensures faults { ⟦<RealFiles<R> as Files>⟧.fault_count result ≡ 0 }
    {
        RealFiles { rt, faults: 0 }
    }
}

fn read_file(rt: &impl std::rt::Files, alloc: Global, name: &str) -> io::Result<Vec<u8>> {
    let mut file = File::open(rt, name)?;
    let mut bytes = Vec::new(alloc);
    file.read_to_end(&mut bytes)?;
    Ok(bytes)
}

impl<R: std::rt::Files> Files for RealFiles<R> {
    ghost held = { λ s. None };

    ghost fault_count = { λ s. s.faults };

    fn faults(&self) -> u64 {
        self.faults
    }

    fn read(&mut self, alloc: Global, name: &str) -> FileAnswer {
        match read_file(&self.rt, alloc, name) {
            Ok(bytes) => FileAnswer::Bytes(Blob::from_vec(bytes)),
            Err(error) => match error.kind() {
                ErrorKind::NotFound => FileAnswer::NotThere,
                ErrorKind::OutOfMemory => FileAnswer::NoMemory,
                _ => {
                    self.faults = self.faults.saturating_add(1);
                    FileAnswer::Failed
                }
            },
        }
    }
}

/// A writer of the system, as the standard output. It does not tell what it took. Each write is flushed; where the
/// flush fails, some bytes may be out though the answer is `Failed`.
#[derive(Drop)]
pub struct RealSink<W> {
    out: W,
    faults: u64,
}

impl<W: Write> RealSink<W> {
    pub fn new(out: W) -> RealSink<W>
        ensures told { ⟦<RealSink<W> as Sink>⟧.told result ≡ None }
        ensures faults { ⟦<RealSink<W> as Sink>⟧.fault_count result ≡ 0 }
    {
        RealSink { out, faults: 0 }
    }
}

fn write_out<W: Write>(out: &mut W, piece: &[u8]) -> io::Result<usize>
    ensures { IfOk result (λ n. n ≤ length piece.now) }
{
    let n = out.write(piece)?;
    out.flush()?;
    Ok(n)
}

impl<W: Write> Sink for RealSink<W> {
    ghost told = { λ s. None };

    ghost fault_count = { λ s. s.faults };

    fn faults(&self) -> u64 {
        self.faults
    }

    fn write(&mut self, piece: &[u8]) -> Result<usize, WireEnd> {
        match write_out(&mut self.out, piece) {
            Ok(n) if 0 < n => Ok(n),
            _ => {
                self.faults = self.faults.saturating_add(1);
                Err(WireEnd::Failed)
            }
        }
    }
}
