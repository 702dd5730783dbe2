use channel_frames::{Deframer, FrameFault, LONGEST, frame};
use std::test::Fail;

const DATA: [u8; 8] = [0x12, 0x51, 0x50, 0x11, 0x53, 0x11, 0x51, 0x02];

const FRAMED: [u8; 14] = [
    0x00, 0x00, 0x00, 0x08, 0x00, 0x12, 0x51, 0x50, 0x11, 0x53, 0x11, 0x51, 0x02, 0x0a,
];

#[test]
fn frames_come_in_any_pieces(rt: HostRuntime) -> Result<(), Fail> {
    let alloc = rt.alloc();
    let mut stream = Vec::new(alloc);
    frame(&DATA, &mut stream)?;
    assert_eq!(rt; stream.as_slice(), FRAMED.as_slice());
    frame(&DATA, &mut stream)?;

    let mut at_once = Deframer::new(alloc);
    at_once.feed(stream.as_slice())?;
    at_once.finish()?;
    for _ in 0..2 {
        let body = at_once.next(alloc)?;
        assert!(rt; body.is_some_and(|body| body.as_slice() == DATA.as_slice()));
    }
    assert!(rt; at_once.next(alloc)?.is_none());

    let mut by_bytes = Deframer::new(alloc);
    for (i, byte) in stream.iter().enumerate() {
        by_bytes.feed(&[*byte])?;
        let is_last = i % 14 == 13;
        match by_bytes.next(alloc)? {
            Some(body) => assert!(rt; is_last && body.as_slice() == DATA.as_slice()),
            None => assert!(rt; !is_last),
        }
    }
    Ok(())
}

// The second answer is the first: after a fault nothing is taken. Where `next` tells a fault, `finish` tells none.
#[test]
fn a_fault_in_front_stays(rt: HostRuntime) -> Result<(), Fail> {
    let alloc = rt.alloc();
    let faults: [(&[u8], FrameFault); 5] = [
        (&[4, 0, 0, 1, 0], FrameFault::F1(67_108_865)),
        (&[0xff, 0xff, 0xff, 0xff, 1], FrameFault::F1(4_294_967_295)),
        (&[0, 0, 0, 1, 1], FrameFault::F2),
        (&[0, 0, 0, 0, 2], FrameFault::F3(2)),
        (&[0, 0, 0, 1, 0, 0, 0x0b], FrameFault::F4(0x0b)),
    ];
    for (bytes, fault) in faults {
        let mut deframer = Deframer::new(alloc);
        deframer.feed(bytes)?;
        for _ in 0..2 {
            assert!(rt; deframer.next(alloc).is_err_and(|told| told == fault));
        }
        deframer.finish()?;
    }
    Ok(())
}

#[test]
fn a_stream_may_end_behind_a_frame(rt: HostRuntime) -> Result<(), Fail> {
    let alloc = rt.alloc();
    let mut deframer = Deframer::new(alloc);
    deframer.finish()?;
    deframer.feed(&[0, 0, 0, 8, 0, 0x12])?;
    assert!(rt; deframer.next(alloc)?.is_none());
    assert!(rt; deframer.finish() == Err(FrameFault::F5(6)));

    // A frame that was not taken is set aside; the four bytes behind it are begun.
    let mut behind = Deframer::new(alloc);
    behind.feed(&FRAMED)?;
    behind.feed(&[0, 0, 0, 1])?;
    assert!(rt; behind.finish() == Err(FrameFault::F5(4)));
    Ok(())
}

#[test]
fn the_longest_data(rt: HostRuntime) -> Result<(), Fail> {
    let alloc = rt.alloc();
    let mut body = Vec::new(alloc);
    body.resize(LONGEST + 1, 7)?;
    let mut out = Vec::new(alloc);
    out.push(9)?;
    assert!(rt; frame(&body, &mut out) == Err(FrameFault::F1(67_108_865)));
    assert!(rt; out.as_slice() == [9].as_slice());
    frame(&body[1..], &mut out)?;
    assert!(rt; out.len() == LONGEST + 7 && out[1] == 4 && out[4] == 0);
    Ok(())
}
