ghost use Rattle.std.specs.Prelude.{◌≡◌, ◌<◌, [], Some};

use crate::calls::Calls;
use crate::ends::WireEnd;
use crate::sink::Sink;
use std::alloc::Global;

/// A sink over memory. The writes whose numbers are listed fail.
#[derive(Drop)]
pub struct MemSink {
    taken: Vec<u8>,
    most: usize,
    calls: Calls,
    ghost takes: { 0 < most },
}

impl MemSink {
    /// One write takes at most `most` bytes. `failing` has the numbers of the writes that fail, from 1.
    pub fn new(alloc: Global, most: usize, failing: Vec<u64>) -> MemSink
        requires { 0 < most }
        ensures told { ⟦<MemSink as Sink>⟧.told result ≡ Some [] }
        ensures faults { ⟦<MemSink as Sink>⟧.fault_count result ≡ 0 }
    {
        MemSink {
            taken: Vec::new(alloc),
            most,
            calls: Calls::new(failing),
        }
    }

    /// All bytes that it took.
    pub fn taken(&self) -> &[u8]
        ensures { ⟦<MemSink as Sink>⟧.told self.now ≡ Some result.now }
    {
        self.taken.as_slice()
    }
}

impl Sink for MemSink {
    ghost told = { λ s. Some s.taken.items };

    ghost fault_count = { λ s. s.calls.faults };

    fn faults(&self) -> u64 {
        self.calls.faults
    }

    fn write(&mut self, piece: &[u8]) -> Result<usize, WireEnd> {
        if self.calls.fails() {
            return Err(WireEnd::Failed);
        }
        let n = piece.len().min(self.most);
        match self.taken.extend_from_slice(&piece[..n]) {
            Ok(()) => Ok(n),
            Err(_) => Err(WireEnd::NoMemory),
        }
    }
}
