ghost use Rattle.std.specs.Prelude.{◌≡◌};
ghost use Rattle.brine_codec.specs.Reading.{ended};
ghost use Rattle.brine_codec.specs.declared.ends.Stop.TheVariants as stop;

use rp_base::NoMemory;
use std::alloc::{AllocError, AllocFailed};

/// What is wrong with bytes that are the spelling of no value.
#[derive(Clone, Copy, Debug, PartialEq, Eq)]
pub enum BrineKind {
    /// A tag that stands for nothing. At the tag.
    B1,
    /// This tag, of a kind of value that is left out. At the tag.
    B2(u8),
    /// The input ends inside a spelling. At the input's length.
    B3,
    /// A length, a count or an int that has a shorter spelling. At the tag.
    B4,
    /// A text of an int that is no decimal text, or has a leading 0. At the tag.
    B5,
    /// An int that passes 128 bits. At the tag.
    B6,
    /// A text that is not UTF-8 in a byte string. At the text's tag.
    B7,
    /// A tuple nested deeper than 100. At the tuple's tag.
    B8,
    /// A byte after the value. At the first such byte.
    B9,
}

/// The first fault of bytes, from left to right.
#[derive(Clone, Copy, Debug, PartialEq, Eq)]
pub struct BrineFault {
    /// The place in bytes, from 0.
    pub at: u64,
    pub what: BrineKind,
}

/// Why bytes gave no value.
#[derive(Clone, Copy, Debug, PartialEq, Eq)]
pub enum DecodeEnd {
    Fault(BrineFault),
    NoMemory,
}

/// Why reading stopped.
#[derive(Clone, Copy)]
pub(crate) enum Stop {
    /// A fault, and how many bytes are left where it stands.
    Fault(usize, BrineKind),
    NoMemory,
}

impl Stop {
    /// The same with its place in an input of so many bytes.
    pub(crate) fn in_input(self, length: usize) -> DecodeEnd
        ensures { result ≡ ended length self }
    {
        match self {
            Stop::Fault(left, what) => DecodeEnd::Fault(BrineFault {
                at: length.saturating_sub(left) as u64,
                what,
            }),
            Stop::NoMemory => DecodeEnd::NoMemory,
        }
    }
}

impl From<NoMemory> for Stop {
    ghost from_gives = { λ _ e. e ≡ stop.NoMemory };

    fn from(_error: NoMemory) -> Stop {
        Stop::NoMemory
    }
}

impl From<AllocError> for Stop {
    ghost from_gives = { λ _ e. e ≡ stop.NoMemory };

    fn from(_error: AllocError) -> Stop {
        Stop::NoMemory
    }
}
