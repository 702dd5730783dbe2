ghost use Rattle.std.specs.Prelude.{◌≡◌, Some, string_bytes};
ghost use Rattle.wire_io.specs.FileMaps.{first_named};

use crate::calls::Calls;
use crate::files::{FileAnswer, Files};
use rp_base::Blob;
use std::alloc::Global;

/// Files in memory. The reads whose numbers are listed fail.
#[derive(Drop)]
pub struct MemFiles {
    held: Vec<(String, Vec<u8>)>,
    calls: Calls,
}

impl MemFiles {
    /// Holds these names with their bytes; the first entry of a name counts. `failing` has the numbers of the reads
    /// that fail, from 1.
    pub fn new(held: Vec<(String, Vec<u8>)>, failing: Vec<u64>) -> MemFiles
        ensures held { ⟦<MemFiles as Files>⟧.held result ≡ Some (first_named (λ e. string_bytes e.0) (λ e. e.1.items) held.items) }
        ensures faults { ⟦<MemFiles as Files>⟧.fault_count result ≡ 0 }
    {
        MemFiles {
            held,
            calls: Calls::new(failing),
        }
    }
}

impl Files for MemFiles {
    ghost held = { λ s. Some (first_named (λ e. string_bytes e.0) (λ e. e.1.items) s.held.items) };

    ghost fault_count = { λ s. s.calls.faults };

    fn faults(&self) -> u64 {
        self.calls.faults
    }

    fn read(&mut self, alloc: Global, name: &str) -> FileAnswer {
        if self.calls.fails() {
            return FileAnswer::Failed;
        }
        for entry in &self.held {
            if entry.0.as_str() == name {
                return match Vec::from_slice(alloc, entry.1.as_slice()) {
                    Ok(bytes) => FileAnswer::Bytes(Blob::from_vec(bytes)),
                    Err(_) => FileAnswer::NoMemory,
                };
            }
        }
        FileAnswer::NotThere
    }
}
