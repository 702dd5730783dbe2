use rp_base::{CmpOp, Text, Value};
use sqlite_items::Items;

/// What waits while the items of a collection are compared with a value, one after another.
#[derive(Drop)]
pub enum SearchFrame {
    /// Whether the item of a list at a position is the value.
    List {
        list: u32,
        position: u64,
        wanted: Value,
    },
    /// The same for the values of a dict that had this shape.
    Values {
        dict: u32,
        shape: u64,
        position: u64,
        wanted: Value,
    },
    /// The position, or None: the value is whether there is one.
    Found,
    /// The position, which is the value.
    Index,
    /// The position of what is taken out of the list.
    Remove {
        list: u32,
    },
}

/// A list and another one, own or not, that are compared.
#[derive(Drop)]
pub struct ListPair {
    pub list: u32,
    pub other: Value,
    pub op: CmpOp,
}

/// What waits while two lists are compared.
#[derive(Drop)]
pub enum EqualityFrame {
    /// The length of the other.
    Length(ListPair),
    /// The other's item at a position.
    Item {
        pair: ListPair,
        length: u64,
        position: u64,
    },
    /// Whether the items at a position are equal.
    Equal {
        pair: ListPair,
        length: u64,
        position: u64,
    },
    /// The length of the other once more, behind the last item or the first that is not equal.
    End {
        pair: ListPair,
        length: u64,
        equal: bool,
    },
}

/// What waits while a list is made of two.
#[derive(Drop)]
pub enum AdditionFrame {
    /// The length of the other.
    Length {
        list: u32,
        other: Value,
    },
    /// The other's item at a position, of so many, behind the items that are there.
    Item {
        other: Value,
        length: u64,
        position: u64,
        items: Items<Value>,
    },
}

/// A tuple whose text is under way: what is made of it, and the items behind the one that is asked, the last first.
#[derive(Drop)]
pub struct TupleLevel {
    pub made: Text,
    pub is_single: bool,
    pub waiting: Items<Value>,
}

/// What waits while the text of a list, a dict or a tuple is made.
#[derive(Drop)]
pub enum TextFrame {
    /// The text of the item at a position, behind what is made.
    List {
        list: u32,
        position: u64,
        made: Text,
    },
    /// The text of the value at a position of a dict that had this shape.
    Dict {
        dict: u32,
        shape: u64,
        position: u64,
        made: Text,
    },
    /// The text of an item of a tuple that holds objects, within the tuples around it, the innermost last.
    Tuple {
        levels: Items<TupleLevel>,
    },
    /// The whole text.
    End,
}
