//! The forms in memory with calls that fail, and the real forms on a file of the system and the standard output.
use std::test::Fail;
use wire_io::*;

fn is_bytes(answer: &FileAnswer, bytes: &[u8]) -> bool {
    match answer {
        FileAnswer::Bytes(held) => held.as_slice() == bytes,
        _ => false,
    }
}

#[test]
fn wire_keeps_the_order(rt: HostRuntime) -> Result<(), Fail> {
    let alloc = rt.alloc();
    let mut wire = MemWire::new(alloc, 3, vec![in alloc; 3]?);
    assert_eq!(rt; wire.put(b"abcd"), Ok(3));
    assert_eq!(rt; wire.room(), 0);
    assert!(rt; wire.queued() > 0);
    let first = wire.get(alloc, 2)?;
    assert_eq!(rt; first.as_slice(), b"ab".as_slice());
    assert!(rt; wire.room() > 0);
    assert_eq!(rt; wire.put(b"xyz"), Err(WireEnd::Failed));
    assert_eq!(rt; wire.faults(), 1);
    assert!(rt; wire.room() > 0);
    assert_eq!(rt; wire.put(b"xyz"), Ok(2));
    assert_eq!(rt; wire.queue(), b"cxy".as_slice());
    wire.begin(Over::Memory)?;
    assert_eq!(rt; wire.queued(), 0);
    assert_eq!(rt; wire.carried(), b"abcxy".as_slice());
    Ok(())
}

fn say<S: Sink>(sink: &mut S, text: &[u8]) -> Result<(), WireEnd> {
    write_all(sink, text)
}

#[test]
fn sink_takes_pieces(rt: HostRuntime) -> Result<(), Fail> {
    let alloc = rt.alloc();
    let mut sink = MemSink::new(alloc, 2, vec![in alloc; 5]?);
    assert_eq!(rt; say(&mut sink, b"hello"), Ok(()));
    assert_eq!(rt; sink.faults(), 0);
    assert_eq!(rt; say(&mut sink, b"there"), Err(WireEnd::Failed));
    assert_eq!(rt; sink.faults(), 1);
    assert_eq!(rt; sink.taken(), b"helloth".as_slice());
    Ok(())
}

#[test]
fn files_answer_by_name(rt: HostRuntime) -> Result<(), Fail> {
    let alloc = rt.alloc();
    let mut held = Vec::new(alloc);
    for (name, bytes) in [("a.py", "one"), ("b.py", "two"), ("a.py", "three")] {
        let bytes = Vec::from_slice(alloc, bytes.as_bytes())?;
        held.push((String::from_str(alloc, name)?, bytes))?;
    }
    let mut files = MemFiles::new(held, vec![in alloc; 4]?);
    assert!(rt; is_bytes(&files.read(alloc, "a.py"), b"one"));
    assert!(rt; is_bytes(&files.read(alloc, "b.py"), b"two"));
    assert!(rt; matches!(files.read(alloc, "c.py"), FileAnswer::NotThere));
    assert_eq!(rt; files.faults(), 0);
    assert!(rt; matches!(files.read(alloc, "a.py"), FileAnswer::Failed));
    assert_eq!(rt; files.faults(), 1);
    Ok(())
}

#[test]
fn real_files_are_read(rt: HostRuntime) -> Result<(), Fail> {
    let alloc = rt.alloc();
    let mut files = RealFiles::new(rt.clone()?);
    assert!(rt; is_bytes(&files.read(alloc, "/proc/sys/kernel/ostype"), b"Linux\n"));
    assert!(rt;
        matches!(
            files.read(alloc, "/proc/no such file"),
            FileAnswer::NotThere
        )
    );
    assert_eq!(rt; files.faults(), 0);
    assert!(rt; matches!(files.read(alloc, "/proc"), FileAnswer::Failed));
    assert_eq!(rt; files.faults(), 1);
    Ok(())
}

#[test]
fn real_sink_writes(rt: HostRuntime) -> Result<(), Fail> {
    let mut sink = RealSink::new(rt.stdout());
    assert_eq!(rt; write_all(&mut sink, b"written by a test\n"), Ok(()));
    assert_eq!(rt; sink.faults(), 0);
    Ok(())
}
