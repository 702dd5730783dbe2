//! The values of literals: the ints, the texts and the byte strings that the tokens of a script stand for.
#![tactic(auto)]

mod int;
mod item;
mod laws;
mod texts;

pub use int::int_literal;
pub use laws::{
    decimal_ints_are_read_back, escapes_are_read_back, literal_tokens_have_values,
    literals_have_one_reading, literals_have_values, only_literals_have_values,
};
pub use texts::{bytes_literal, text_literal};
