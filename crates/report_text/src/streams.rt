ghost use Rattle.std.specs.Prelude.{◌≡◌, ◌≤◌, ◌<◌, ◌+◌, ◌++◌, ◌^◌, IfOk, OnOk, drop, length, string_bytes};
ghost use Rattle.report_text.specs.Dumping.{dump_fault, dump_text, fault_text, judge};
ghost use Rattle.report_text.specs.Stepping.{Adds, Prints, Takes, checked_end, shown, told_length};

use crate::dumped::Dump;
use crate::judging::{FLAG, FrameEnd, HEADER, judge_frame};
use crate::lines::push_line;
use channel_frames::{Deframer, FrameFault};
use message_core::{PeerFault, PeerKind};
use rp_base::{NoMemory, Text};
use std::alloc::Global;

/// A stream of frames as text: the line of each message up to the first fault, then `fault CODE PLACE`, each with a line
/// feed. Faults are those of frames (F1 to F5), of brine (B1 to B9) and of messages (M1 to M4); boxes and arguments are not
/// judged. A place is counted in bytes from 0. Time is linear in the bytes and in what is printed.
pub fn dump(alloc: Global, bytes: &[u8]) -> Result<Dump, NoMemory>
    ensures { IfOk result (λ d. (d.text ≡ dump_text bytes.now) × (d.fault ≡ dump_fault bytes.now)) }
{
    let mut text = String::new(alloc);
    let fault = match push_lines(alloc, bytes, &mut text) {
        Ok(()) => None,
        Err(FrameEnd::Fault(fault)) => Some(fault),
        Err(FrameEnd::NoMemory) => return Err(NoMemory),
    };
    push_fault(&fault, &mut text)?;
    Ok(Dump {
        text: Text::from_string(text),
        fault,
    })
}

/// Appends the lines of the messages in front of the first fault, which is the error.
fn push_lines(alloc: Global, bytes: &[u8], text: &mut String) -> Result<(), FrameEnd>
    ensures { Prints bytes.now result (string_bytes text.old) (string_bytes text.new) }
{
    let mut deframer = Deframer::new(alloc);
    if deframer.feed(bytes).is_err() {
        return Err(FrameEnd::NoMemory);
    }
    let mut start = 0;
    'frames: while let Some(body) = next_body(alloc, bytes, start, &mut deframer)? {
        let data = body.as_slice();
        push_frame(alloc, start, data, text)?;
        start += HEADER + data.len() + 1;
    }
    check_end(start, bytes)
}

/// Appends the line of the message that the data are, of the frame that begins at this byte of the stream.
fn push_frame(alloc: Global, start: usize, body: &[u8], text: &mut String) -> Result<(), FrameEnd>
    requires { start + length body.now < 2 ^ 63 }
    ensures { Adds (judge (start, body.now)) result (string_bytes text.old) (string_bytes text.new) }
{
    match judge_frame(alloc, start, body) {
        Ok(message) => Ok(push_line(&message, text)?),
        Err(end) => Err(end),
    }
}

/// The data of the frame at this byte of the stream, or None where no whole frame is there, or its fault.
fn next_body(
    alloc: Global,
    bytes: &[u8],
    start: usize,
    deframer: &mut Deframer,
) -> Result<Option<Vec<u8>>, FrameEnd>
    requires inside { start ≤ length bytes.now }
    requires waits { deframer.old ≡ drop start bytes.now }
    ensures { Takes (λ body. body.items) start deframer.old result deframer.new }
{
    match deframer.next(alloc) {
        Ok(body) => Ok(body),
        Err(fault) => Err(frame_end(fault, start, &bytes[start..])),
    }
}

/// What is wrong with the frame that begins at this byte of the stream, at the byte that shows it.
fn frame_end(fault: FrameFault, start: usize, waiting: &[u8]) -> FrameEnd
    requires { start < 2 ^ 63 }
    ensures { result ≡ shown start fault waiting.now }
{
    let (what, place) = match fault {
        FrameFault::F1(length) => (PeerKind::F1(length), start),
        FrameFault::F2 => (PeerKind::F2, start + FLAG),
        FrameFault::F3(flag) => (PeerKind::F3(flag), start + FLAG),
        FrameFault::F4(byte) => (PeerKind::F4(byte), start + (HEADER + length_of(waiting))),
        FrameFault::F5(_) | FrameFault::NoMemory => return FrameEnd::NoMemory,
    };
    FrameEnd::Fault(PeerFault {
        what,
        at: place as u64,
    })
}

/// The length that a frame's first four bytes tell.
fn length_of(waiting: &[u8]) -> usize
    ensures told { result ≡ told_length waiting.now }
    ensures bound { result < 2 ^ 32 }
{
    match waiting {
        [a, b, c, d, ..] => u32::from_be_bytes([*a, *b, *c, *d]) as usize,
        _ => 0,
    }
}

/// A fault where bytes are left at this place: those of a frame that is begun.
fn check_end(start: usize, bytes: &[u8]) -> Result<(), FrameEnd>
    requires { start ≤ length bytes.now }
    ensures { result ≡ checked_end start (drop start bytes.now) }
{
    if start == bytes.len() {
        return Ok(());
    }
    Err(FrameEnd::Fault(PeerFault {
        what: PeerKind::F5((bytes.len() - start) as u64),
        at: bytes.len() as u64,
    }))
}

/// Appends the line of a fault, where there is one.
fn push_fault(fault: &Option<PeerFault>, out: &mut String) -> Result<(), NoMemory>
    ensures { OnOk result (string_bytes out.new ≡ string_bytes out.old ++ fault_text fault.now) }
{
    if let Some(fault) = fault {
        let code = fault.what.text();
        let at = fault.at;
        write!(out, "fault {code} {at}\n")?;
    }
    Ok(())
}
