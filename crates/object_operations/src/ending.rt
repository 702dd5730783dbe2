use rp_base::{Raised, Value};
use sqlite_items::Items;

/// Where code runs: the number of its text, of its function (none at the top of a text), and its scope, which is the
/// cell of the call's variables or the namespace.
#[derive(Clone, Copy, Drop)]
pub struct Env {
    pub text: u32,
    pub function: Option<u32>,
    pub scope: u32,
}

/// How a piece of code ends.
#[derive(Drop)]
pub enum Completion {
    /// A value, which for a statement is None.
    Gives(Value),
    Raises(Raised),
    /// A statement leaves its function, with a value.
    Returns(Value),
    /// A statement leaves its loop, or the turn of its loop.
    Breaks,
    Continues,
    /// The items of a collection that was gone over.
    Drained(Items<Value>),
}
