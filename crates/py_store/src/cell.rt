use crate::entries::Entries;
use crate::values::Values;
use object_operations::BuiltinMethod;
use rp_base::{Text, Value};
use sqlite_items::Items;

/// A name with the value that it is bound to.
#[derive(Drop)]
pub struct Binding {
    pub name: Text,
    pub value: Value,
}

/// What a bound method runs: a function of a script, or a method of a builtin kind.
#[derive(Drop)]
pub enum Method {
    Function(Value),
    Builtin(BuiltinMethod),
}

/// What a view of a dict shows.
#[derive(Clone, Copy, Debug, PartialEq, Eq)]
pub enum Which {
    Keys,
    Values,
    Items,
}

/// An object of a program (Python Language Reference, "Data model"). Other cells are named by their numbers.
#[derive(Drop)]
pub enum Cell {
    List(Values),
    /// `shape` counts the operations that added or took out keys.
    Dict {
        entries: Entries,
        shape: u64,
    },
    /// The variables of a call. `parent` is the scope around it, or the namespace.
    Scope {
        names: Items<Binding>,
        parent: u32,
    },
    /// A side's global names: its first cell. `reserved` are the names of handlers of the texts that ran.
    Namespace {
        names: Items<Binding>,
        reserved: Items<Text>,
    },
    /// The function of this number in this text, made in this scope.
    Function {
        text: u32,
        function: u32,
        scope: u32,
    },
    Class {
        name: Text,
        base: Option<u32>,
        attributes: Items<Binding>,
    },
    Instance {
        class: u32,
        attributes: Items<Binding>,
    },
    Bound {
        receiver: Value,
        method: Method,
    },
    /// `at` is the number of items that it gave, `shape` that of its dict when it was made. At its end it has no source.
    Iter {
        source: Option<Value>,
        at: u64,
        shape: u64,
    },
    View {
        dict: u32,
        which: Which,
    },
    Range {
        start: i128,
        stop: i128,
        step: i128,
    },
    /// A module that the program around the side offers, by its place.
    Host(u32),
    HostFunc {
        host: u32,
        name: Text,
    },
    /// The connection: the other side's root and namespace, and the cell of its modules.
    Conn {
        root: Value,
        namespace: Value,
        modules: u32,
    },
    Modules {
        root: Value,
    },
    Root,
}
