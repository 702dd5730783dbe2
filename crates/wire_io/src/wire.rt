ghost use Rattle.std.specs.Prelude.{◌≡◌, ◌<◌, ◌≤◌, ℕ, List, [], ◌++◌, length, take, Option, Some, IfOk, OnOk, OnErr, IsErrOf};
ghost use Rattle.wire_io.specs.declared.wire.Over.{Over};
ghost use Rattle.wire_io.specs.Devices.{Rose};

use crate::ends::WireEnd;
use rp_base::Failed;
use std::alloc::Global;

/// How the two sides are joined.
#[derive(Clone, Copy, Debug, PartialEq, Eq)]
pub enum Over {
    Memory,
    Tcp,
}

/// A queue of bytes from one side to the other. Its meaning is all bytes that were ever put (`carried`), those of
/// them that were not yet given (`queue`), how many may be put at once (`space`), and how the sides were last joined
/// (`begun`).
pub trait Wire {
    ghost carried: { Self → List ℕ };

    ghost queue: { Self → List ℕ };

    ghost space: { Self → ℕ };

    ghost begun: { Self → Option Over };

    ghost fault_count: { Self → ℕ };

    /// How often a call failed so far. The count stays at its greatest number.
    fn faults(&self) -> u64
        ensures { result ≡ fault_count self.now };

    /// Begins anew with an empty queue.
    fn begin(&mut self, over: Over) -> Result<(), Failed>
        ensures empty { OnOk result (queue self.new ≡ []) }
        ensures kept { OnErr result (queue self.new ≡ queue self.old) }
        ensures begun { OnOk result (begun self.new ≡ Some over) }
        ensures unbegun { OnErr result (begun self.new ≡ begun self.old) }
        ensures same_carried { carried self.new ≡ carried self.old }
        ensures later { fault_count self.old ≤ fault_count self.new }
        ensures failed { OnErr result (Rose (fault_count self.old) (fault_count self.new)) };

    /// How many bytes it may take now. An empty wire has room.
    fn room(&self) -> usize
        ensures value { result ≡ space self.now }
        ensures vacant { queue self.now ≡ [] → 0 < result };

    /// How many bytes were put and not yet given.
    fn queued(&self) -> usize
        ensures { result ≡ length (queue self.now) };

    /// Ok(n) took the first n bytes, n at least 1. After an error nothing was taken.
    fn put(&mut self, piece: &[u8]) -> Result<usize, WireEnd>
        requires piece { 0 < length piece.now }
        requires room { 0 < space self.old }
        ensures taken { IfOk result (λ n. (0 < n) × (n ≤ length piece.now) × (n ≤ space self.old)) }
        ensures carried { IfOk result (λ n. carried self.new ≡ carried self.old ++ take n piece.now) }
        ensures queued { IfOk result (λ n. queue self.new ≡ queue self.old ++ take n piece.now) }
        ensures kept { OnErr result ((carried self.new ≡ carried self.old) × (queue self.new ≡ queue self.old)) }
        ensures same_begun { begun self.new ≡ begun self.old }
        ensures later { fault_count self.old ≤ fault_count self.new }
        ensures failed { IsErrOf result WireEnd.Failed → Rose (fault_count self.old) (fault_count self.new) };

    /// Gives the oldest bytes of the queue, at least 1 and at most `max`. After an error the queue is as before.
    fn get(&mut self, alloc: Global, max: usize) -> Result<Vec<u8>, WireEnd>
        requires most { 0 < max }
        requires queued { 0 < length (queue self.old) }
        ensures given { IfOk result (λ v. (0 < length v.items) × (length v.items ≤ max)) }
        ensures order { IfOk result (λ v. queue self.old ≡ v.items ++ queue self.new) }
        ensures same_carried { carried self.new ≡ carried self.old }
        ensures kept { OnErr result (queue self.new ≡ queue self.old) }
        ensures same_begun { begun self.new ≡ begun self.old }
        ensures later { fault_count self.old ≤ fault_count self.new }
        ensures failed { IsErrOf result WireEnd.Failed → Rose (fault_count self.old) (fault_count self.new) };
}
