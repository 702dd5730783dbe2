//! Python's tokens: a script's text taken apart into names, numbers, literals, signs, line ends and indentations.
#![tactic(auto)]

mod indents;
mod laws;
mod lexing;
mod literal;
mod piece;
mod reader;
mod spelling;
mod token;

pub use laws::{
    blanks_stand_between_tokens, indentations_match, refusals_have_their_places,
    the_longest_sign_is_read, tokens_are_spelled, tokens_have_their_lines, what_is_read_is_a_sign,
};
pub use lexing::tokens;
pub use token::{LexEnd, Token, TokenKind};
