use rp_base::{Refused, Text};
use sqlite_items::Items;

/// How a name is mentioned (Python Language Reference, "Naming and binding").
#[derive(Clone, Copy, Debug, PartialEq, Eq)]
pub enum Form {
    /// Read as an expression, or called. The name of a builtin function too.
    Read,
    /// Bound by an assignment, an augmented assignment or a `for`.
    Target,
    /// The name of a `def` that does not stand directly in a class body.
    Function,
    /// The name of a class statement.
    Class,
    Parameter,
    /// Behind the `as` of a handler.
    Caught,
    Global,
    Nonlocal,
    /// Behind a dot.
    Attribute,
    /// Bound directly in a class body by an assignment.
    Member,
    /// The name of a `def` directly in a class body, with its number of parameters.
    Method(usize),
    /// Named by an `except`.
    Exception,
    /// Named by a `raise`.
    Raised,
    /// The base of a class.
    Base,
}

/// A name at a place of a script.
#[derive(Drop)]
pub struct Mention {
    pub name: Text,
    /// Counted from 1.
    pub line: u32,
    /// The innermost function around it. A parameter stands in its own function, the name of a `def` in the one around.
    pub function: Option<u32>,
    pub form: Form,
    /// Whether it is one of `str(e)`, `repr(e)`, `e.args`, `raise e`, within a handler `except .. as e` of the same name
    /// and with no function in between.
    pub is_guarded: bool,
    /// Of `Class`, `Base`, `Member` and `Method`: the class statement to which it belongs, by the number of its body. Of
    /// two classes one after the other the later has the greater number.
    pub class: Option<u32>,
}

/// What a walk over a script's tree finds.
#[derive(Drop)]
pub struct Places {
    /// In written order, but for the name behind a dot, which comes before its receiver's.
    pub mentions: Items<Mention>,
    /// Of the places that break a rule, that of least line, and then of least rule.
    pub worst: Option<Refused>,
}
