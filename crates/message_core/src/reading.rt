ghost use Rattle.std.specs.Prelude.{◌≡◌};
ghost use Rattle.std.specs.Result.{result_map_both};
ghost use Rattle.message_core.specs.Messages.{Reads};
ghost use Rattle.message_core.specs.Judging.{handler_at, requested, judged, seen_as};

use crate::faults::MsgFault;
use crate::message::Message;
use rp_base::{Handler, Plain};
use std::alloc::Global;

/// What kind of message a value is.
#[derive(Clone, Copy)]
pub(crate) enum Form {
    Request(Handler),
    Reply,
    Exception,
}

/// A message whose content is still part of the value: a request's arguments, a reply's value, or what an exception says.
#[derive(Clone, Copy)]
pub(crate) struct Seen<'a> {
    form: Form,
    seq: u64,
    content: &'a Plain,
}

/// The message that the value is, or the first fault that applies in the order M1 to M4.
pub fn read(alloc: Global, p: &Plain) -> Result<Message, MsgFault>
    ensures { Reads p.now result }
{
    let seen = match see(p) {
        Ok(seen) => seen,
        Err(fault) => return Err(fault),
    };
    let seq = seen.seq;
    let content = seen.content.copy(alloc)?;
    match seen.form {
        Form::Request(handler) => Ok(Message::Request {
            seq,
            handler,
            args: content,
        }),
        Form::Reply => Ok(Message::Reply {
            seq,
            value: content,
        }),
        Form::Exception => Ok(Message::Exception { seq, content }),
    }
}

fn see(p: &Plain) -> Result<Seen<'_>, MsgFault>
    ensures { result_map_both (λ s. seen_as s.form s.seq s.content.now) (λ e. e) result ≡ judged p.now }
{
    let Plain::Tuple(items) = p else {
        return Err(MsgFault::M1);
    };
    let [Plain::Int(kind), Plain::Int(number), content] = items.as_slice() else {
        return Err(MsgFault::M1);
    };
    let Ok(seq) = u64::try_from(*number) else {
        return Err(MsgFault::M1);
    };
    match *kind {
        1 => see_request(seq, content),
        2 => Ok(Seen {
            form: Form::Reply,
            seq,
            content,
        }),
        3 => Ok(Seen {
            form: Form::Exception,
            seq,
            content,
        }),
        _ => Err(MsgFault::M2(*kind)),
    }
}

fn see_request(seq: u64, content: &Plain) -> Result<Seen<'_>, MsgFault>
    ensures { result_map_both (λ s. seen_as s.form s.seq s.content.now) (λ e. e) result ≡ requested seq content.now }
{
    let Plain::Tuple(items) = content else {
        return Err(MsgFault::M1);
    };
    let [Plain::Int(number), args] = items.as_slice() else {
        return Err(MsgFault::M1);
    };
    let handler = match handler_of(*number) {
        Ok(handler) => handler,
        Err(fault) => return Err(fault),
    };
    Ok(Seen {
        form: Form::Request(handler),
        seq,
        content: args,
    })
}

fn handler_of(number: i128) -> Result<Handler, MsgFault>
    ensures { result ≡ handler_at number }
{
    match number {
        1 => Ok(Handler::Ping),
        2 => Ok(Handler::Close),
        3 => Ok(Handler::GetRoot),
        4 => Ok(Handler::GetAttr),
        5 => Ok(Handler::DelAttr),
        6 => Ok(Handler::SetAttr),
        7 => Ok(Handler::Call),
        8 => Ok(Handler::CallAttr),
        9 => Ok(Handler::Repr),
        10 => Ok(Handler::Str),
        11 => Ok(Handler::Cmp),
        15 => Ok(Handler::Del),
        16 => Ok(Handler::Inspect),
        12 | 13 | 14 | 17 | 18 | 19 | 20 => Err(MsgFault::M4(number as u8)),
        _ => Err(MsgFault::M3(number)),
    }
}
