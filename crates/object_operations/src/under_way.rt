use rp_base::{Raised, Text};

/// An exception that code of a text and a scope is handling (Python Language Reference, "The try statement").
#[derive(Drop)]
pub struct Handling {
    pub text: u32,
    pub scope: u32,
    /// What `as` calls it, where it does.
    pub name: Option<Text>,
    pub raised: Raised,
    /// Whether that name still stands for it.
    pub bound: bool,
}

/// A class that a class statement made: the text, the name and the cell.
#[derive(Drop)]
pub struct MadeClass {
    pub text: u32,
    pub name: Text,
    pub number: u32,
}
