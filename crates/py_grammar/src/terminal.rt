/// What the grammar tells apart among the tokens. Which sign or name a token is stands in its text.
#[derive(Clone, Copy, Debug, PartialEq, Eq)]
pub enum Terminal {
    /// A name; `NotImplemented` is one.
    Name,
    /// An int.
    Int,
    /// A text literal.
    Text,
    /// A bytes literal.
    Bytes,
    /// The end of a line of tokens.
    Newline,
    /// A deeper indentation.
    Indent,
    /// The end of an indentation.
    Dedent,
    /// The end of the text.
    End,
    /// `None`.
    None,
    /// `True`.
    True,
    /// `False`.
    False,
    /// `and`.
    And,
    /// `as`.
    As,
    /// `break`.
    Break,
    /// `class`.
    Class,
    /// `continue`.
    Continue,
    /// `def`.
    Def,
    /// `del`.
    Del,
    /// `elif`.
    Elif,
    /// `else`.
    Else,
    /// `except`.
    Except,
    /// `finally`.
    Finally,
    /// `for`.
    For,
    /// `global`.
    Global,
    /// `if`.
    If,
    /// `in`.
    In,
    /// `is`.
    Is,
    /// `lambda`.
    Lambda,
    /// `nonlocal`.
    Nonlocal,
    /// `not`.
    Not,
    /// `or`.
    Or,
    /// `pass`.
    Pass,
    /// `raise`.
    Raise,
    /// `return`.
    Return,
    /// `try`.
    Try,
    /// `while`.
    While,
    /// A keyword of a form that is left out: assert, async, await, from, import, with, yield.
    LeftOutWord,
    /// `=`.
    Assign,
    /// `+=` and its kin.
    Augmented,
    /// `==`, `!=`, `<`, `<=`, `>` or `>=`.
    Comparison,
    /// `|`.
    Bar,
    /// `^`.
    Caret,
    /// `&`.
    Ampersand,
    /// `<<` or `>>`.
    Shift,
    /// `+`.
    Plus,
    /// `-`.
    Minus,
    /// `*`.
    Star,
    /// `/`, `//` or `%`.
    Divide,
    /// `~`.
    Tilde,
    /// `**`.
    DoubleStar,
    /// `.`.
    Dot,
    /// `,`.
    Comma,
    /// `:`.
    Colon,
    /// `...`.
    Ellipsis,
    /// `(`.
    OpenParenthesis,
    /// `)`.
    CloseParenthesis,
    /// `[`.
    OpenBracket,
    /// `]`.
    CloseBracket,
    /// `{`.
    OpenBrace,
    /// `}`.
    CloseBrace,
    /// A sign of a form that is left out: `;`, `@`, `:=` or `->`.
    LeftOutSign,
}
