/// A construct that is open at a place.
#[derive(Clone, Copy, Debug, PartialEq, Eq)]
pub enum Construct {
    /// The number of the function.
    Function(u32),
    /// The number of the class body's suite.
    Class(u32),
    Loop,
    /// The number of the handler's node.
    Handler(u32),
    Finally,
}

/// What a node is to the node around it, as far as a rule asks.
#[derive(Clone, Copy, Debug, PartialEq, Eq)]
pub enum Role {
    Plain,
    /// The whole text.
    Whole,
    /// A statement directly in the text.
    AtTop,
    /// The suite of a class.
    ClassBody,
    /// A statement directly in a class body.
    InClass,
    /// The target of an assignment directly in a class body.
    Member,
    /// The callee of a call with so many arguments.
    Called(usize),
    /// The one argument of `str` or `repr`.
    Shown,
    /// The receiver of `.args`.
    ArgsOf,
    /// A handler that is not the last of its `try`.
    EarlierHandler,
}

/// A part of a node: its number, its role, and the construct that the node opens around it.
#[derive(Clone, Copy, Debug, PartialEq, Eq)]
pub struct Part {
    pub number: u32,
    pub role: Role,
    pub around: Option<Construct>,
}

/// What the walk has still to do.
#[derive(Clone, Copy, Debug, PartialEq, Eq)]
pub enum Task {
    Visit(Part),
    /// The innermost construct ends.
    Leave,
}
