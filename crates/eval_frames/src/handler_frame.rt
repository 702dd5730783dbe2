use object_operations::{Completion, Env};
use rp_base::Text;
use sqlite_items::Items;

/// What is asked of an exception by the name that its handler gives it.
#[derive(Clone, Copy, Debug, PartialEq, Eq)]
pub enum HandlerReading {
    Str,
    Repr,
    Args,
}

/// What waits within a `try` statement, or for the name of a handler.
#[derive(Drop)]
pub enum HandlerFrame {
    /// The suite of a `try`, with the numbers of its handlers.
    Try {
        env: Env,
        handlers: Items<u32>,
    },
    /// A suite that any end comes through.
    Finally {
        env: Env,
        suite: u32,
    },
    /// Code that runs while an exception is being handled.
    Handling {
        env: Env,
        name: Option<Text>,
    },
    /// The suite of `finally`, with the end that came to it.
    Pending(Completion),
    /// The unit of a handler's name.
    Name {
        env: Env,
        name: Text,
        reading: HandlerReading,
    },
}
