ghost use Rattle.std.specs.Prelude.{◌≡◌};

use rp_base::Refused;
use std::alloc::{AllocError, AllocFailed};

/// What a token is.
#[derive(Clone, Copy, Debug, PartialEq, Eq)]
pub enum TokenKind {
    /// ASCII letters, digits and `_`, not beginning with a digit, and no keyword.
    Name,
    /// A keyword of Python.
    Keyword,
    /// `0`, decimal digits without a leading 0, or `0x` and hex digits: at most 2^127 - 1.
    Int,
    /// A text between `'` or between `"` on one line.
    Text,
    /// A text of bytes, with `b` before its opening quote.
    Bytes,
    /// An operator, a bracket or a mark.
    Sign,
    /// The end of a line with tokens, outside brackets.
    Newline,
    /// An indentation is deeper than the one before.
    Indent,
    /// An open indentation ends.
    Dedent,
}

/// A token, by its place in the text: the bytes from `start` up to `stop`, on this line, counted from 1.
#[derive(Clone, Copy, Debug, PartialEq, Eq)]
pub struct Token {
    pub kind: TokenKind,
    pub start: u32,
    pub stop: u32,
    pub line: u32,
}

/// Why a text has no tokens.
#[derive(Clone, Copy, Debug, PartialEq, Eq)]
pub enum LexEnd {
    /// The first rule that the text breaks, of L1 to L5, with its line.
    Refused(Refused),
    NoMemory,
}

impl From<AllocError> for LexEnd {
    ghost use Rattle.py_lexer.specs.declared.token.LexEnd.TheVariants as lex_end;

    ghost from_gives = { λ _ e. e ≡ lex_end.NoMemory };

    fn from(_error: AllocError) -> LexEnd {
        LexEnd::NoMemory
    }
}

impl<T: Drop> From<AllocFailed<T>> for LexEnd {
    ghost use Rattle.py_lexer.specs.declared.token.LexEnd.TheVariants as lex_end;

    ghost from_gives = { λ _ e. e ≡ lex_end.NoMemory };

    fn from(_error: AllocFailed<T>) -> LexEnd {
        LexEnd::NoMemory
    }
}
