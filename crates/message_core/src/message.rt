ghost use Rattle.std.specs.Prelude.{◌≡◌, IfOk, pos};
ghost use Rattle.rp_base.specs.Names.{handler_number};
ghost use Rattle.message_core.specs.Messages.{message_value, parts, asked};

use rp_base::{Handler, NoMemory, Plain};
use sqlite_items::Items;
use std::alloc::Global;

/// A message from one side to the other. Its number is that of the request, counted by the side that asks.
#[derive(Drop)]
pub enum Message {
    /// A request, with its boxed arguments.
    Request {
        seq: u64,
        handler: Handler,
        args: Plain,
    },
    /// The answer to the request of this number, with the boxed value.
    Reply {
        seq: u64,
        value: Plain,
    },
    /// The exception that the request of this number ended with.
    Exception {
        seq: u64,
        content: Plain,
    },
}

/// The plain value that the message is on the wire.
pub fn spell(alloc: Global, m: &Message) -> Result<Plain, NoMemory>
    ensures { IfOk result (λ p. p ≡ message_value m.now) }
{
    match m {
        Message::Request { seq, handler, args } => {
            let content = request_content(alloc, *handler, args.copy(alloc)?)?;
            three_parts(alloc, 1, *seq, content)
        }
        Message::Reply { seq, value } => three_parts(alloc, 2, *seq, value.copy(alloc)?),
        Message::Exception { seq, content } => three_parts(alloc, 3, *seq, content.copy(alloc)?),
    }
}

fn three_parts(alloc: Global, kind: i128, seq: u64, content: Plain) -> Result<Plain, NoMemory>
    ensures { IfOk result (λ p. p ≡ parts kind seq content) }
{
    let mut items = Items::new(alloc);
    items.push(Plain::Int(kind))?;
    items.push(Plain::Int(i128::from(seq)))?;
    items.push(content)?;
    Ok(Plain::Tuple(items))
}

fn request_content(alloc: Global, handler: Handler, args: Plain) -> Result<Plain, NoMemory>
    ensures { IfOk result (λ p. p ≡ asked (pos (handler_number handler)) args) }
{
    let mut items = Items::new(alloc);
    items.push(Plain::Int(i128::from(handler.number())))?;
    items.push(args)?;
    Ok(Plain::Tuple(items))
}
