ghost use Rattle.std.specs.Prelude.{◌≡◌};

use rp_base::NoMemory;
use std::alloc::AllocError;

/// Why a frame was not written or not read. F1 to F4 are faults of the bytes in front, and come again until the
/// deframer is dropped.
#[derive(Clone, Copy, Debug, PartialEq, Eq)]
pub enum FrameFault {
    /// Too long: the data have this length in bytes, which is more than [`crate::LONGEST`].
    F1(u64),
    /// Compressed: the flag is 1. Compressed data are not read.
    F2,
    /// Bad flag: the flag is this byte, neither 0 nor 1.
    F3(u8),
    /// Bad flusher: this byte stands behind the data, where 0x0a belongs.
    F4(u8),
    /// Cut: the stream ends inside a frame, with this number of its bytes.
    F5(u64),
    /// There was no memory.
    NoMemory,
}

impl From<AllocError> for FrameFault {
    ghost use Rattle.channel_frames.specs.declared.fault.FrameFault.TheVariants as fault;

    ghost from_gives = { λ _ e. e ≡ fault.NoMemory };

    fn from(_error: AllocError) -> FrameFault {
        FrameFault::NoMemory
    }
}

impl From<NoMemory> for FrameFault {
    ghost use Rattle.channel_frames.specs.declared.fault.FrameFault.TheVariants as fault;

    ghost from_gives = { λ _ e. e ≡ fault.NoMemory };

    fn from(_error: NoMemory) -> FrameFault {
        FrameFault::NoMemory
    }
}
