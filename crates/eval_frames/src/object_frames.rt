use rp_base::{CmpOp, Value};
use sqlite_items::Items;

/// What waits for the answer of an object.
#[derive(Clone, Copy, Debug, PartialEq, Eq)]
pub enum OperationFrame {
    /// The text of an object, which is the value.
    Text,
    /// A truth whose opposite is the value.
    Opposite,
}

/// What waits for an operand that is asked for its comparison with another value.
#[derive(Drop)]
pub enum ComparisonFrame {
    /// The left operand, behind which the right one may be asked.
    Left {
        op: CmpOp,
        left: Value,
        right: Value,
    },
    /// The right operand.
    Right {
        op: CmpOp,
        left: Value,
        right: Value,
    },
}

/// What waits for a text that is printed.
#[derive(Drop)]
pub enum PrintingFrame {
    /// The values behind that one, the last first.
    Print { waiting: Items<Value> },
}
