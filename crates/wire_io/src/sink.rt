ghost use Rattle.std.specs.Prelude.{◌≡◌, ◌<◌, ◌≤◌, ℕ, List, [], length, take, Option, IfOk, OnOk, OnErr, IsErrOf};
ghost use Rattle.wire_io.specs.Devices.{Rose, Wrote, IsPart};

use crate::ends::WireEnd;

/// Takes bytes. Where it tells, its meaning is all bytes that it took.
pub trait Sink {
    ghost told: { Self → Option (List ℕ) };

    ghost fault_count: { Self → ℕ };

    /// How often a write failed so far. The count stays at its greatest number.
    fn faults(&self) -> u64
        ensures { result ≡ fault_count self.now };

    /// Ok(n) took the first n bytes, n at least 1. After an error nothing was taken.
    fn write(&mut self, piece: &[u8]) -> Result<usize, WireEnd>
        requires { 0 < length piece.now }
        ensures taken { IfOk result (λ n. (0 < n) × (n ≤ length piece.now) × Wrote (told self.old) (take n piece.now) (told self.new)) }
        ensures kept { OnErr result (Wrote (told self.old) [] (told self.new)) }
        ensures later { fault_count self.old ≤ fault_count self.new }
        ensures failed { IsErrOf result WireEnd.Failed → Rose (fault_count self.old) (fault_count self.new) };
}

/// Writes all of a text. The sink took a front of it where it ended otherwise.
pub fn write_all<S: Sink>(sink: &mut S, text: &[u8]) -> Result<(), WireEnd>
    ensures whole { OnOk result (Wrote (S.told sink.old) text.now (S.told sink.new)) }
    ensures part { OnErr result (IsPart (S.told sink.old) text.now (S.told sink.new)) }
    ensures later { S.fault_count sink.old ≤ S.fault_count sink.new }
    ensures failed { IsErrOf result WireEnd.Failed → Rose (S.fault_count sink.old) (S.fault_count sink.new) }
{
    let mut done = 0;
    while done < text.len() {
        let n = sink.write(&text[done..])?;
        done += n;
    }
    Ok(())
}
