ghost use Rattle.std.specs.Prelude.{◌≡◌, ◌+◌, ◌<◌, ◌^◌, length};
ghost use Rattle.brine_codec.specs.declared.ends.BrineFault.{BrineFault};
ghost use Rattle.report_text.specs.Dumping.{brine_kind, judge};
ghost use Rattle.report_text.specs.Stepping.{Answers, brine_ended, message_ended};

use brine_codec::{BrineKind, DecodeEnd, decode};
use message_core::{Message, MsgFault, PeerFault, PeerKind, read};
use rp_base::NoMemory;
use std::alloc::Global;

/// The bytes of a frame in front of its data: four of the length, and the flag.
pub(crate) const HEADER: usize = 5;

/// The place of the flag in a frame.
pub(crate) const FLAG: usize = 4;

/// Why a frame gave no message.
#[derive(Drop)]
pub(crate) enum FrameEnd {
    Fault(PeerFault),
    NoMemory,
}

impl From<NoMemory> for FrameEnd {
    ghost use Rattle.report_text.specs.declared.judging.FrameEnd.TheVariants as frame_end;

    ghost from_gives = { λ _ e. e ≡ frame_end.NoMemory };

    fn from(_error: NoMemory) -> FrameEnd {
        FrameEnd::NoMemory
    }
}

/// The message that a frame's data are, or their first fault, where the frame begins at this byte of its stream.
pub(crate) fn judge_frame(alloc: Global, start: usize, body: &[u8]) -> Result<Message, FrameEnd>
    requires { start + length body.now < 2 ^ 63 }
    ensures { Answers result (judge (start, body.now)) }
{
    let at = (start + HEADER) as u64;
    let value = match decode(alloc, body) {
        Ok(value) => value,
        Err(end) => return Err(brine_end(at, end)),
    };
    match read(alloc, &value) {
        Ok(message) => Ok(message),
        Err(fault) => Err(message_end(at, fault)),
    }
}

/// The fault of data that begin at this byte of the stream.
fn brine_end(at: u64, end: DecodeEnd) -> FrameEnd
    requires { (f : BrineFault) → end ≡ DecodeEnd.Fault f → at + f.at < 2 ^ 64 }
    ensures { result ≡ brine_ended at end }
{
    match end {
        DecodeEnd::Fault(fault) => FrameEnd::Fault(PeerFault {
            what: kind_of_brine(fault.what),
            at: at + fault.at,
        }),
        DecodeEnd::NoMemory => FrameEnd::NoMemory,
    }
}

fn kind_of_brine(kind: BrineKind) -> PeerKind
    ensures { result ≡ brine_kind kind }
{
    match kind {
        BrineKind::B1 => PeerKind::B1,
        BrineKind::B2(tag) => PeerKind::B2(tag),
        BrineKind::B3 => PeerKind::B3,
        BrineKind::B4 => PeerKind::B4,
        BrineKind::B5 => PeerKind::B5,
        BrineKind::B6 => PeerKind::B6,
        BrineKind::B7 => PeerKind::B7,
        BrineKind::B8 => PeerKind::B8,
        BrineKind::B9 => PeerKind::B9,
    }
}

/// The fault of a value whose data begin at this byte of the stream.
fn message_end(at: u64, fault: MsgFault) -> FrameEnd
    ensures { result ≡ message_ended at fault }
{
    let what = match fault {
        MsgFault::M1 => PeerKind::M1,
        MsgFault::M2(kind) => PeerKind::M2(kind),
        MsgFault::M3(handler) => PeerKind::M3(handler),
        MsgFault::M4(number) => PeerKind::M4(number),
        MsgFault::M5(number) => PeerKind::M5(number),
        MsgFault::NoMemory => return FrameEnd::NoMemory,
    };
    FrameEnd::Fault(PeerFault { what, at })
}
