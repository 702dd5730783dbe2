ghost use Rattle.std.specs.Prelude.{◌≡◌, ◌≤◌, ℕ, List, [], ◌++◌, IfOk, OnOk, OnErr, IsErrOf, IsTrue};
ghost use Rattle.message_core.specs.declared.message.Message.{Message};
ghost use Rattle.wire_io.specs.Devices.{Rose};
ghost use Rattle.brine_codec.specs.Spelling.{spelling};
ghost use Rattle.message_core.specs.Messages.{message_value};
ghost use Rattle.pair_run.specs.Talk.{IsSendable, CarriesPart, bytes_of};

use brine_codec::{DecodeEnd, decode, encode};
use channel_frames::{Deframer, FrameFault, frame};
use message_core::{Message, MsgFault, read, spell};
use rp_base::{Failed, NoMemory, Plain};
use std::alloc::Global;
use wire_io::{Wire, WireEnd};

/// Why a run was cut short.
#[derive(Clone, Copy, Debug, PartialEq, Eq)]
pub enum Cut {
    /// A wire failed, and its count of faults rose.
    Wire,
    NoMemory,
}

impl From<NoMemory> for Cut {
    ghost use Rattle.pair_run.specs.declared.delivery.Cut.TheVariants as cut;

    ghost from_gives = { λ _ e. e ≡ cut.NoMemory };

    fn from(_error: NoMemory) -> Cut {
        Cut::NoMemory
    }
}

impl From<Failed> for Cut {
    ghost use Rattle.pair_run.specs.declared.delivery.Cut.TheVariants as cut;

    ghost from_gives = { λ _ e. e ≡ cut.Wire };

    fn from(_error: Failed) -> Cut {
        Cut::Wire
    }
}

impl From<WireEnd> for Cut {
    ghost use Rattle.pair_run.specs.Talk.{cut_by};

    ghost from_gives = { λ w e. e ≡ cut_by w };

    fn from(end: WireEnd) -> Cut {
        match end {
            WireEnd::Failed => Cut::Wire,
            WireEnd::NoMemory => Cut::NoMemory,
        }
    }
}

/// Sends a message over a wire, and gives it as it was read at the other end.
pub fn deliver<W: Wire>(
    alloc: Global,
    message: &Message,
    wire: &mut W,
    inbox: &mut Deframer,
) -> Result<Message, Cut>
    requires sendable { IsSendable message.now }
    requires idle { (W.queue wire.old ≡ []) × (inbox.old ≡ []) }
    ensures heard { IfOk result (λ heard. heard ≡ message.now) }
    ensures carried { OnOk result (W.carried wire.new ≡ W.carried wire.old ++ bytes_of message.now) }
    ensures idle { OnOk result ((W.queue wire.new ≡ []) × (inbox.new ≡ [])) }
    ensures part { OnErr result (CarriesPart (bytes_of message.now) (W.carried wire.old) (W.carried wire.new)) }
    ensures begun { W.begun wire.new ≡ W.begun wire.old }
    ensures later { W.fault_count wire.old ≤ W.fault_count wire.new }
    ensures failed { IsErrOf result Cut.Wire → Rose (W.fault_count wire.old) (W.fault_count wire.new) }
{
    let bytes = frame_bytes(alloc, message)?;
    carry(alloc, &bytes, wire, inbox)?;
    Ok(next_message(alloc, inbox)?)
}

/// The frame of a message.
fn frame_bytes(alloc: Global, message: &Message) -> Result<Vec<u8>, NoMemory>
    requires { IsSendable message.now }
    ensures { IfOk result (λ bytes. bytes.items ≡ bytes_of message.now) }
{
    let mut body = Vec::new(alloc);
    encode(&spell(alloc, message)?, &mut body)?;
    let mut bytes = Vec::new(alloc);
    match frame(&body, &mut bytes) {
        Ok(()) => Ok(bytes),
        Err(_) => Err(NoMemory),
    }
}

/// Moves bytes through a wire into an inbox, in pieces as large as the wire has room for.
fn carry<W: Wire>(
    alloc: Global,
    bytes: &[u8],
    wire: &mut W,
    inbox: &mut Deframer,
) -> Result<(), Cut>
    requires { W.queue wire.old ≡ [] }
    ensures carried { OnOk result (W.carried wire.new ≡ W.carried wire.old ++ bytes.now) }
    ensures given { OnOk result ((W.queue wire.new ≡ []) × (inbox.new ≡ inbox.old ++ bytes.now)) }
    ensures part { OnErr result (CarriesPart bytes.now (W.carried wire.old) (W.carried wire.new)) }
    ensures begun { W.begun wire.new ≡ W.begun wire.old }
    ensures later { W.fault_count wire.old ≤ W.fault_count wire.new }
    ensures failed { IsErrOf result Cut.Wire → Rose (W.fault_count wire.old) (W.fault_count wire.new) }
{
    let mut done = 0;
    'pieces: while done < bytes.len() {
        let most = wire.room().min(bytes.len() - done);
        let taken = wire.put(&bytes[done..done + most])?;
        drain(alloc, wire, inbox)?;
        done += taken;
    }
    Ok(())
}

/// The largest piece that is taken from a wire at once, in bytes.
const PIECE: usize = 65_536;

/// Gives all that waits in a wire to an inbox.
fn drain<W: Wire>(alloc: Global, wire: &mut W, inbox: &mut Deframer) -> Result<(), Cut>
    ensures given { OnOk result ((W.queue wire.new ≡ []) × (inbox.new ≡ inbox.old ++ W.queue wire.old)) }
    ensures carried { W.carried wire.new ≡ W.carried wire.old }
    ensures begun { W.begun wire.new ≡ W.begun wire.old }
    ensures later { W.fault_count wire.old ≤ W.fault_count wire.new }
    ensures failed { IsErrOf result Cut.Wire → Rose (W.fault_count wire.old) (W.fault_count wire.new) }
{
    'pieces: while wire.queued() > 0 {
        let piece = wire.get(alloc, PIECE)?;
        if inbox.feed(&piece).is_err() {
            return Err(Cut::NoMemory);
        }
    }
    Ok(())
}

/// The one message that is in an inbox.
fn next_message(alloc: Global, inbox: &mut Deframer) -> Result<Message, NoMemory>
    requires { (message : Message) × IsSendable message × (inbox.old ≡ bytes_of message) }
    ensures { (message : Message) → IsSendable message → inbox.old ≡ bytes_of message → IfOk result (λ heard. heard ≡ message) × OnOk result (inbox.new ≡ []) }
{
    match inbox.next(alloc) {
        Ok(Some(body)) => message_in(alloc, &body),
        Ok(None) => unreachable!(),
        Err(fault) => Err(no_frame(fault)),
    }
}

/// Where a whole frame is in front, only memory can be missing.
fn no_frame(_fault: FrameFault) -> NoMemory
    requires { _fault ≡ FrameFault.NoMemory }
{
    NoMemory
}

/// The message that a frame's data are.
fn message_in(alloc: Global, body: &[u8]) -> Result<Message, NoMemory>
    requires { (message : Message) × IsSendable message × (body.now ≡ spelling (message_value message)) }
    ensures { (message : Message) → IsSendable message → body.now ≡ spelling (message_value message) → IfOk result (λ heard. heard ≡ message) }
{
    match decode(alloc, body) {
        Ok(value) => message_of(alloc, &value),
        Err(DecodeEnd::NoMemory) => Err(NoMemory),
        Err(DecodeEnd::Fault(_)) => unreachable!(),
    }
}

/// The message that a value is.
fn message_of(alloc: Global, value: &Plain) -> Result<Message, NoMemory>
    requires { (message : Message) × IsSendable message × (value.now ≡ message_value message) }
    ensures { (message : Message) → IsSendable message → value.now ≡ message_value message → IfOk result (λ heard. heard ≡ message) }
{
    match read(alloc, value) {
        Ok(message) => Ok(message),
        Err(fault) => Err(no_message(fault)),
    }
}

/// Where a value is a message, only memory can be missing.
fn no_message(_fault: MsgFault) -> NoMemory
    requires { _fault ≡ MsgFault.NoMemory }
{
    NoMemory
}
