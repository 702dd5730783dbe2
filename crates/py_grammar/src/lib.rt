//! The grammar of scripts: a table of words with their ways, what it means, and the laws of its reading.
#![tactic(auto)]

mod act;
mod laws;
mod symbol;
mod terminal;
mod word;

pub use act::Act;
pub use laws::{
    a_text_has_one_tree, a_text_is_read_or_refused, other_limits_tell_the_rule,
    pieces_are_the_same, refusals_are_exact, the_reading_is_exact,
};
pub use symbol::{Guard, Limits, Start, Symbol};
pub use terminal::Terminal;
pub use word::Word;
