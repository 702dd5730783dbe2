ghost use Rattle.std.specs.Prelude.{min, ◌+◌, ◌-◌, ◌^◌, IfOk};
ghost use Rattle.wire_io.specs.Devices.{Rose};
ghost use Rattle.pair_run.specs.Running.{AreJoined};

use pair_run::{PairScripts, RunEnd, ScriptEnd, bindings, questions, run_pair};
use rp_base::Failed;
use std::alloc::Global;
use std::process::Abort;
use std::test::Fail;
use wire_io::{MemWire, Over, Wire, WireEnd};

const A: &[u8] = b"print(conn.namespace[\"x\"])\n";

const B: &[u8] = b"x = 5\n";

/// Reads and joins two scripts.
fn read(alloc: Global, a: &[u8], b: &[u8]) -> Result<PairScripts, ScriptEnd>
    ensures { IfOk result (λ s. AreJoined s.letters.items s.bindings.items s.namespace.items) }
{
    let letters = questions(alloc, a)?;
    let bindings = bindings(alloc, b)?;
    PairScripts::new(alloc, letters, bindings)
}

#[test]
fn the_first_pair_and_its_frames(rt: HostRuntime) -> Result<(), Fail> {
    let alloc = rt.alloc();
    let mut ab = MemWire::new(alloc, 64, Vec::new(alloc));
    let mut ba = MemWire::new(alloc, 64, Vec::new(alloc));
    let end = run_pair(alloc, read(alloc, A, B)?, &mut ab, &mut ba)?;
    assert_eq!(rt; end.end, RunEnd::Done);
    assert_eq!(rt; end.out_a.as_str(), "5\n");
    assert_eq!(rt; end.units, Some(12));
    assert_eq!(rt; end.tables, Some((0, 2)));
    let mut sent = Vec::new(alloc);
    sent.extend_from_slice(b"\x00\x00\x00\x08\x00\x12\x51\x50\x11\x53\x11\x51\x02\x0a")?;
    sent.extend_from_slice(
        b"\x00\x00\x00\x3c\x00\x12\x51\x51\x11\x54\x11\x52\x11\x11\x53\x12\x08\x0e\x1e",
    )?;
    sent.extend_from_slice(
        b"rpyc.core.service.SlaveService\x50\x52\x11\x51\x08\x0e\x09namespace\x0a",
    )?;
    sent.extend_from_slice(
        b"\x00\x00\x00\x36\x00\x12\x51\x52\x11\x58\x11\x52\x13\x11\x53\x12\x08\x0e\x0dbuiltins.dict\x50\x51",
    )?;
    sent.extend_from_slice(
        b"\x11\x51\x08\x0e\x0b__getitem__\x11\x51\x10\x08\x0a\x78\x11\x51\x02\x0a",
    )?;
    sent.extend_from_slice(b"\x00\x00\x00\x08\x00\x12\x51\x53\x11\x52\x11\x51\x02\x0a")?;
    assert_eq!(rt; ab.carried(), sent.as_slice());
    let mut answered = Vec::new(alloc);
    answered.extend_from_slice(
        b"\x00\x00\x00\x29\x00\x12\x52\x50\x11\x54\x12\x08\x0e\x1erpyc.core.service.SlaveService\x50\x52\x0a",
    )?;
    answered.extend_from_slice(
        b"\x00\x00\x00\x18\x00\x12\x52\x51\x11\x54\x12\x08\x0e\x0dbuiltins.dict\x50\x51\x0a",
    )?;
    answered.extend_from_slice(b"\x00\x00\x00\x06\x00\x12\x52\x52\x11\x51\x55\x0a")?;
    assert_eq!(rt; ba.carried(), answered.as_slice());
    Ok(())
}

/// Texts of A and of B, and how the reading of both ends where a line is refused.
type Refusal = (&'static [u8], &'static [u8], ScriptEnd);

const TWO: &[u8] = b"print(conn.namespace[\"y\"])\nprint(conn.namespace[\"x\"])";

const TOO_GREAT: &[u8] = b"x = 5\nx = 170141183460469231731687303715884105728\n";

#[test]
fn lines_and_refusals(rt: HostRuntime) -> Result<(), Fail> {
    let alloc = rt.alloc();
    let scripts = read(alloc, TWO, b"x = 0\ny = 159\nx = 10\n")?;
    assert_eq!(rt; scripts.letters.as_slice(), b"yx".as_slice());
    assert_eq!(rt; scripts.bindings.len(), 3);
    let refusals: [Refusal; 4] = [
        (b"print(1)\n", B, ScriptEnd::NotYet(1)),
        (A, b"x = 05\n", ScriptEnd::NotYet(1)),
        (A, TOO_GREAT, ScriptEnd::NotYet(2)),
        (TWO, b"y = 1\n", ScriptEnd::NotYet(2)),
    ];
    for (a, b, end) in refusals {
        assert_eq!(rt; read(alloc, a, b).err(), Some(end));
    }
    Ok(())
}

/// A wire in memory that may fail to begin.
#[derive(Drop)]
struct Beginning {
    wire: MemWire,
    begins: bool,
    failed: u64,
}

impl Wire for Beginning {
    ghost carried = { λ s. ⟦<MemWire as Wire>⟧.carried s.wire };

    ghost queue = { λ s. ⟦<MemWire as Wire>⟧.queue s.wire };

    ghost space = { λ s. ⟦<MemWire as Wire>⟧.space s.wire };

    ghost begun = { λ s. ⟦<MemWire as Wire>⟧.begun s.wire };

    ghost fault_count = { λ s. min (⟦<MemWire as Wire>⟧.fault_count s.wire + s.failed) (2 ^ 64 - 1) };

    fn faults(&self) -> u64 {
        self.wire.faults().saturating_add(self.failed)
    }

    fn begin(&mut self, over: Over) -> Result<(), Failed> {
        if self.begins {
            self.wire.begin(over)
        } else {
            self.failed = self.failed.saturating_add(1);
            Err(Failed)
        }
    }

    fn room(&self) -> usize {
        self.wire.room()
    }

    fn queued(&self) -> usize {
        self.wire.queued()
    }

    fn put(&mut self, piece: &[u8]) -> Result<usize, WireEnd> {
        self.wire.put(piece)
    }

    fn get(&mut self, alloc: Global, max: usize) -> Result<Vec<u8>, WireEnd> {
        self.wire.get(alloc, max)
    }
}

/// Runs the first pair over two wires, of which one or both begin.
fn run_over(
    rt: &impl Abort,
    alloc: Global,
    begins_ab: bool,
    begins_ba: bool,
) -> Result<(), ScriptEnd> {
    let mut ab = Beginning {
        wire: MemWire::new(alloc, 64, Vec::new(alloc)),
        begins: begins_ab,
        failed: 0,
    };
    let mut ba = Beginning {
        wire: MemWire::new(alloc, 64, Vec::new(alloc)),
        begins: begins_ba,
        failed: 0,
    };
    let end = run_pair(alloc, read(alloc, A, B)?, &mut ab, &mut ba)?;
    assert_eq!(rt; end.end, RunEnd::Wire);
    assert!(rt; ab.wire.carried().is_empty() && ba.wire.carried().is_empty());
    assert!(rt; ab.wire.begun().is_some() == begins_ab && ba.wire.begun().is_none());
    Ok(())
}

#[test]
fn wires_that_do_not_begin(rt: HostRuntime) -> Result<(), Fail> {
    let alloc = rt.alloc();
    run_over(&rt, alloc, false, true)?;
    run_over(&rt, alloc, true, false)?;
    Ok(())
}
