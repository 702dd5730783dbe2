use object_operations::Env;
use rp_base::{BinaryOp, Text, Value};
use sqlite_items::Items;

/// An attribute or an item that a value goes to.
#[derive(Drop)]
pub enum Destination {
    Attribute { receiver: Value, name: Text },
    Item { receiver: Value, key: Value },
}

/// What waits within an assignment, an augmented assignment or a `del`. Numbers and values that wait stand the last
/// first.
#[derive(Drop)]
pub enum TargetFrame {
    /// The receiver of an attribute that this value goes to.
    AttributeReceiver {
        name: Text,
        value: Value,
    },
    ItemReceiver {
        env: Env,
        key: u32,
        value: Value,
    },
    ItemKey {
        receiver: Value,
        value: Value,
    },
    /// What an operation gives is dropped.
    Done,
    /// The targets behind the one that a value goes to.
    Each {
        env: Env,
        targets: Items<u32>,
        values: Items<Value>,
    },
    /// The receiver of an attribute that is augmented.
    AugmentedReceiver {
        env: Env,
        op: BinaryOp,
        right: u32,
        name: Text,
    },
    /// The receiver of an item that is augmented.
    AugmentedItemReceiver {
        env: Env,
        op: BinaryOp,
        right: u32,
        key: u32,
    },
    AugmentedKey {
        env: Env,
        op: BinaryOp,
        right: u32,
        receiver: Value,
    },
    /// The old value of what is augmented.
    AugmentedOld {
        env: Env,
        op: BinaryOp,
        right: u32,
        destination: Destination,
    },
    /// The right side.
    AugmentedRight {
        op: BinaryOp,
        old: Value,
        destination: Destination,
    },
    /// What the operator made.
    Store(Destination),
    /// The receiver of an attribute that is deleted.
    DeletedReceiver {
        name: Text,
    },
    DeletedItemReceiver {
        env: Env,
        key: u32,
    },
    DeletedKey {
        receiver: Value,
    },
}
