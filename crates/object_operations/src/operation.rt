use crate::special::Special;
use rp_base::{CmpOp, Text, Value};
use sqlite_items::Items;

/// An operation on an object, carried out at the object's home (after the handlers of RPyC's module `protocol`).
#[derive(Drop)]
pub enum Operation {
    /// The root of the other side.
    GetRoot,
    GetAttr {
        receiver: Value,
        name: Text,
    },
    SetAttr {
        receiver: Value,
        name: Text,
        value: Value,
    },
    DelAttr {
        receiver: Value,
        name: Text,
    },
    Call {
        callee: Value,
        arguments: Items<Value>,
    },
    /// An operation that Python spells as a method with a special name.
    Special {
        receiver: Value,
        special: Special,
        arguments: Items<Value>,
    },
    /// A comparison, asked of one of its two operands.
    Cmp {
        receiver: Value,
        op: CmpOp,
        other: Value,
    },
    Str(Value),
    Repr(Value),
}
