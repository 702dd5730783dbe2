use crate::act::Act;
use crate::terminal::Terminal;
use crate::word::Word;

/// What must hold for a way to be taken.
#[derive(Clone, Copy, Debug, PartialEq, Eq)]
pub enum Guard {
    /// The list on top has fewer items than there may be arguments.
    FewerArguments,
    /// The list of names on top has fewer than there may be parameters.
    FewerParameters,
    /// The tree on top is made of targets: a name, an attribute or an item, or a tuple of them, none in parentheses.
    Targets,
    /// The tree on top is one name, attribute or item, and not in parentheses.
    Place,
}

/// A part of a way.
#[derive(Clone, Copy, Debug, PartialEq, Eq)]
pub enum Symbol {
    Terminal(Terminal),
    /// A word, so many levels further in; on the stack of a reading, at this level.
    Word(Word, u32),
    Act(Act),
}

/// How deep a text may nest, and how many parameters or arguments may stand together.
#[derive(Clone, Copy, Debug, PartialEq, Eq)]
pub struct Limits {
    pub levels: u32,
    pub arguments: u32,
}

/// What a whole text is.
#[derive(Clone, Copy, Debug, PartialEq, Eq)]
pub enum Start {
    /// Statements.
    Script,
    /// One expression, on one line.
    Expression,
}
