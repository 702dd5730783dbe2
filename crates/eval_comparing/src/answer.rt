use eval_frames::{TestLevel, ValuePair};
use rp_base::{OpEnd, Value};
use sqlite_items::Items;

/// A comparison of two values, of which one refers to an object, and the levels that its answer goes to, the innermost
/// last.
#[derive(Drop)]
pub struct Question {
    pub levels: Items<TestLevel>,
    pub left: Value,
    pub right: Value,
}

/// What a comparison comes to.
#[derive(Drop)]
pub enum Answer {
    Told(bool),
    /// Two tuples of other lengths are not compared.
    Uneven,
    Asked(Question),
}

/// How two values are compared.
#[derive(Drop)]
pub(crate) enum Meeting {
    Told(bool),
    Uneven,
    Asked,
    /// By the pairs of two tuples, the last first.
    Deeper(Items<ValuePair>),
}

/// What a level comes to: a bool for the level around it, or a comparison of two values, of which one refers to an object.
#[derive(Drop)]
pub(crate) enum Turn {
    Told(bool),
    Uneven,
    Asked { left: Value, right: Value },
}

/// What a link of a chain comes to whose operands are not asked at once.
#[derive(Drop)]
pub enum Compared {
    Ended(Result<Value, OpEnd>),
    /// What the comparison tells is the value.
    Asked(Question),
    /// The opposite of it is the value.
    Opposite(Question),
}
