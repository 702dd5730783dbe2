use object_operations::Env;
use py_ast::Builtin;
use rp_base::{Text, Value};
use sqlite_items::Items;

/// What waits within a `for`.
#[derive(Drop)]
pub enum ForFrame {
    /// The value that is gone over.
    Source {
        env: Env,
        target: u32,
        body: u32,
    },
    /// Its iterator.
    Iterator {
        env: Env,
        target: u32,
        body: u32,
    },
    /// The next item of the iterator.
    Item {
        env: Env,
        target: u32,
        body: u32,
        iterator: Value,
    },
    /// The item goes to the target.
    Target {
        env: Env,
        target: u32,
        body: u32,
        iterator: Value,
    },
    /// The suite of a turn.
    Body {
        env: Env,
        target: u32,
        body: u32,
        iterator: Value,
    },
}

/// What the items of a collection that is gone over are put into, whose limit is judged with each of them.
#[derive(Clone, Copy, Debug, PartialEq, Eq)]
pub enum Collection {
    List,
    Tuple,
}

/// What is made of the items of a collection that was gone over.
#[derive(Drop)]
pub enum Draining {
    /// A builtin function of one argument that drains it.
    Builtin(Builtin),
    /// Several targets, in written order.
    Unpack { env: Env, targets: Items<u32> },
    /// They go behind the items of a list, and the answer is None, or the list itself.
    Extend { list: u32, is_answer: bool },
    /// They are joined by the text.
    Join(Text),
}

/// What waits while a collection is gone over.
#[derive(Drop)]
pub enum DrainFrame {
    /// The iterator.
    Iterator {
        collection: Collection,
        draining: Draining,
    },
    /// The next item, behind these.
    Item {
        collection: Collection,
        iterator: Value,
        items: Items<Value>,
    },
    /// All items.
    Drained(Draining),
}
