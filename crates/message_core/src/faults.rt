ghost use Rattle.std.specs.Prelude.{◌≡◌};
ghost use Rattle.message_core.specs.PeerNames.{peer_code};

use rp_base::{IdPack, NoMemory};

/// Why a value was not read as a message, or why a request's arguments were not taken.
#[derive(Clone, Copy, Debug, PartialEq, Eq)]
pub enum MsgFault {
    /// The value is not a tuple of an int, an int from 0 to 2^64 - 1 and a content, or the content of a request is not a
    /// pair that begins with an int.
    M1,
    /// The kind is not 1, 2 or 3.
    M2(i128),
    /// The handler is not 1 to 20.
    M3(i128),
    /// The handler is one that this product leaves out.
    M4(u8),
    /// The arguments are not of the number and kinds that the handler of this number takes.
    M5(u8),
    NoMemory,
}

impl From<NoMemory> for MsgFault {
    ghost use Rattle.message_core.specs.declared.faults.MsgFault.TheVariants as fault;

    ghost from_gives = { λ _ e. e ≡ fault.NoMemory };

    fn from(_error: NoMemory) -> MsgFault {
        MsgFault::NoMemory
    }
}

/// What the bytes of a peer can show to be wrong, by the code that the program prints.
#[derive(Drop)]
pub enum PeerKind {
    /// A frame's length is more than 67,108,864.
    F1(u64),
    /// A frame says that it is compressed.
    F2,
    /// A frame's flag is neither 0 nor 1.
    F3(u8),
    /// The byte behind a frame's data is no line feed.
    F4(u8),
    /// The stream ends inside a frame, with so many bytes of it.
    F5(u64),
    /// A tag of brine that means nothing.
    B1,
    /// A tag of brine that this product leaves out.
    B2(u8),
    /// The data end inside a spelling.
    B3,
    /// A spelling that is not the shortest.
    B4,
    /// The text of an int is none.
    B5,
    /// An int that does not fit 128 bits.
    B6,
    /// A text that is not UTF-8.
    B7,
    /// Tuples that stand too deep in tuples.
    B8,
    /// Bytes behind the value.
    B9,
    /// The value has not the shape of a message.
    M1,
    /// The kind of message is not 1, 2 or 3.
    M2(i128),
    /// The handler is not 1 to 20.
    M3(i128),
    /// The handler is one that this product leaves out.
    M4(u8),
    /// The arguments are not those of the handler of this number.
    M5(u8),
    /// A box that is no pair that begins with an int, or a boxed tuple that is none.
    V1,
    /// The label of a box is not 1 to 4.
    V2(i128),
    /// A box of a reference whose content is no identity: a name of 1 to 255 bytes and two numbers from 0 to 2^64 - 1.
    V3,
    /// A value that is too heavy or too deep.
    V4,
    /// An exception's content that is none, or whose arguments are too heavy or too deep.
    E1,
    /// Numbers that are kept under another name.
    P1,
    /// A reference to what was not exported.
    N1(IdPack),
    /// A reply or exception of this number that answers no open request, or not the innermost one that is awaited.
    N2(u64),
    /// A reply that the handler of this number cannot have.
    N3(u8),
    /// The stream ended, or a close was read, while a reply was awaited.
    N4,
    /// A release of less than one.
    X2,
    /// A release of more than the count that is held.
    X3(u128),
}

/// A fault of a peer, and the number of the byte of its stream at which it stands.
#[derive(Drop)]
pub struct PeerFault {
    pub what: PeerKind,
    pub at: u64,
}

impl PeerKind {
    /// The code that the program prints.
    pub fn text(&self) -> &str
        ensures { result.now ≡ peer_code self.now }
    {
        match self {
            PeerKind::F1(_) => "F1",
            PeerKind::F2 => "F2",
            PeerKind::F3(_) => "F3",
            PeerKind::F4(_) => "F4",
            PeerKind::F5(_) => "F5",
            PeerKind::B1 => "B1",
            PeerKind::B2(_) => "B2",
            PeerKind::B3 => "B3",
            PeerKind::B4 => "B4",
            PeerKind::B5 => "B5",
            PeerKind::B6 => "B6",
            PeerKind::B7 => "B7",
            PeerKind::B8 => "B8",
            PeerKind::B9 => "B9",
            PeerKind::M1 => "M1",
            PeerKind::M2(_) => "M2",
            PeerKind::M3(_) => "M3",
            PeerKind::M4(_) => "M4",
            PeerKind::M5(_) => "M5",
            PeerKind::V1 => "V1",
            PeerKind::V2(_) => "V2",
            PeerKind::V3 => "V3",
            PeerKind::V4 => "V4",
            PeerKind::E1 => "E1",
            PeerKind::P1 => "P1",
            PeerKind::N1(_) => "N1",
            PeerKind::N2(_) => "N2",
            PeerKind::N3(_) => "N3",
            PeerKind::N4 => "N4",
            PeerKind::X2 => "X2",
            PeerKind::X3(_) => "X3",
        }
    }
}
