ghost use Rattle.std.specs.Prelude.{◌≡◌, ◌≤◌, ℕ, List, Option};
ghost use Rattle.wire_io.specs.Devices.{Rose};
ghost use Rattle.wire_io.specs.FileMaps.{AnswersFrom};

use rp_base::Blob;
use std::alloc::Global;

/// What a read of a file gave.
#[derive(Drop)]
pub enum FileAnswer {
    /// All bytes of the file.
    Bytes(Blob),
    NotThere,
    Failed,
    NoMemory,
}

/// Files that are read whole. Where it tells, its meaning is a map from names to bytes.
pub trait Files {
    ghost held: { Self → Option (List ℕ → Option (List ℕ)) };

    ghost fault_count: { Self → ℕ };

    /// How often a read failed so far. The count stays at its greatest number.
    fn faults(&self) -> u64
        ensures { result ≡ fault_count self.now };

    /// Reads the whole file of this name.
    fn read(&mut self, alloc: Global, name: &str) -> FileAnswer
        ensures kept { held self.new ≡ held self.old }
        ensures answered { AnswersFrom (held self.old) name.now result }
        ensures later { fault_count self.old ≤ fault_count self.new }
        ensures failed { result ≡ FileAnswer.Failed → Rose (fault_count self.old) (fault_count self.new) };
}
