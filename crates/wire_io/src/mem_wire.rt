ghost use Rattle.std.specs.Prelude.{◌≡◌, ◌<◌, ◌≤◌, ◌-◌, ◌+◌, [], None, drop, length, vec_len};

use crate::calls::Calls;
use crate::ends::WireEnd;
use crate::wire::{Over, Wire};
use rp_base::Failed;
use std::alloc::Global;

/// A wire over memory, which keeps all bytes that were put. The puts and gets whose numbers are listed fail.
#[derive(Drop)]
pub struct MemWire {
    carried: Vec<u8>,
    given: usize,
    room: usize,
    begun: Option<Over>,
    calls: Calls,
    ghost within: { given ≤ length carried.items },
    ghost fits: { length carried.items ≤ given + room },
    ghost holds: { 0 < room },
}

impl MemWire {
    /// Queues at most `room` bytes. `failing` has the numbers of the puts and gets that fail, counted together
    /// from 1.
    pub fn new(alloc: Global, room: usize, failing: Vec<u64>) -> MemWire
        requires { 0 < room }
        ensures carried { ⟦<MemWire as Wire>⟧.carried result ≡ [] }
        ensures queue { ⟦<MemWire as Wire>⟧.queue result ≡ [] }
        ensures space { ⟦<MemWire as Wire>⟧.space result ≡ room }
        ensures begun { ⟦<MemWire as Wire>⟧.begun result ≡ None }
        ensures faults { ⟦<MemWire as Wire>⟧.fault_count result ≡ 0 }
    {
        MemWire {
            carried: Vec::new(alloc),
            given: 0,
            room,
            begun: None,
            calls: Calls::new(failing),
        }
    }

    /// All bytes that were ever put.
    pub fn carried(&self) -> &[u8]
        ensures { ⟦<MemWire as Wire>⟧.carried self.now ≡ result.now }
    {
        self.carried.as_slice()
    }

    /// The bytes that were put and not yet given.
    pub fn queue(&self) -> &[u8]
        ensures { ⟦<MemWire as Wire>⟧.queue self.now ≡ result.now }
    {
        &self.carried[self.given..]
    }

    /// How the sides were last joined.
    pub fn begun(&self) -> Option<Over>
        ensures { ⟦<MemWire as Wire>⟧.begun self.now ≡ result }
    {
        self.begun
    }
}

impl Wire for MemWire {
    ghost carried = { λ s. s.carried.items };

    ghost queue = { λ s. drop s.given s.carried.items };

    ghost space = { λ s. s.given + s.room - length s.carried.items };

    ghost begun = { λ s. s.begun };

    ghost fault_count = { λ s. s.calls.faults };

    fn faults(&self) -> u64 {
        self.calls.faults
    }

    fn begin(&mut self, over: Over) -> Result<(), Failed> {
        self.given = self.carried.len();
        self.begun = Some(over);
        Ok(())
    }

    fn room(&self) -> usize {
        self.room - self.queued()
    }

    fn queued(&self) -> usize {
        self.carried.len() - self.given
    }

    fn put(&mut self, piece: &[u8]) -> Result<usize, WireEnd> {
        if self.calls.fails() {
            return Err(WireEnd::Failed);
        }
        let n = piece.len().min(self.room());
        match self.carried.extend_from_slice(&piece[..n]) {
            Ok(()) => Ok(n),
            Err(_) => Err(WireEnd::NoMemory),
        }
    }

    fn get(&mut self, alloc: Global, max: usize) -> Result<Vec<u8>, WireEnd> {
        if self.calls.fails() {
            return Err(WireEnd::Failed);
        }
        let end = self.given + max.min(self.queued());
        match Vec::from_slice(alloc, &self.carried[self.given..end]) {
            Ok(bytes) => {
                self.given = end;
                Ok(bytes)
            }
            Err(_) => Err(WireEnd::NoMemory),
        }
    }
}
