ghost use Rattle.std.specs.Prelude.{◌≡◌, ◌++◌, IfOk, OnOk, string_bytes};
ghost use Rattle.py_plain.specs.Printing.{repr_of};
ghost use Rattle.report_text.specs.MessageLines.{line, message_text};

use message_core::Message;
use py_plain::plain_repr;
use rp_base::{NoMemory, Plain};
use std::alloc::Global;

/// The line of a message, without a line feed: `request SEQ NAME BOX`, `reply SEQ BOX` or `exception SEQ CONTENT`, with
/// the repr of the box or of the content at any length.
pub fn message_line(alloc: Global, m: &Message) -> Result<String, NoMemory>
    ensures { IfOk result (λ text. string_bytes text ≡ message_text m.now) }
{
    let mut text = String::new(alloc);
    push_message(m, &mut text)?;
    Ok(text)
}

/// Appends the line of a message and a line feed.
pub(crate) fn push_line(m: &Message, out: &mut String) -> Result<(), NoMemory>
    ensures { OnOk result (string_bytes out.new ≡ string_bytes out.old ++ line (message_text m.now)) }
{
    push_message(m, out)?;
    out.push_str("\n")?;
    Ok(())
}

#[tactic(auto, unfolding(crate::specs::MessageLines::message_text))]
fn push_message(m: &Message, out: &mut String) -> Result<(), NoMemory>
    ensures { OnOk result (string_bytes out.new ≡ string_bytes out.old ++ message_text m.now) }
{
    match m {
        Message::Request { seq, handler, args } => {
            let name = handler.text();
            write!(out, "request {seq} {name} ")?;
            push_repr(args, out)
        }
        Message::Reply { seq, value } => {
            write!(out, "reply {seq} ")?;
            push_repr(value, out)
        }
        Message::Exception { seq, content } => {
            write!(out, "exception {seq} ")?;
            push_repr(content, out)
        }
    }
}

/// Appends the repr of a value. No string has more than `u64::MAX` bytes, so that an error is want of memory.
fn push_repr(value: &Plain, out: &mut String) -> Result<(), NoMemory>
    ensures { OnOk result (string_bytes out.new ≡ string_bytes out.old ++ repr_of value.now) }
{
    match plain_repr(value, u64::MAX, out) {
        Ok(()) => Ok(()),
        Err(_) => Err(NoMemory),
    }
}
