use crate::table::Part::{Act as Do, Inner, Terminal as Key, Word as Sub};
use crate::table::{Entry, Row};
use py_grammar::{Act, Guard, Terminal, Word};

pub(crate) const POSTFIX: Entry = Entry {
    first: &[
        Terminal::Name,
        Terminal::Int,
        Terminal::Text,
        Terminal::Bytes,
        Terminal::None,
        Terminal::True,
        Terminal::False,
        Terminal::Ellipsis,
        Terminal::OpenParenthesis,
        Terminal::OpenBracket,
        Terminal::OpenBrace,
    ],
    rows: &[Row {
        guard: None,
        symbols: &[Sub(Word::Atom), Sub(Word::PostfixTail)],
    }],
    empty: None,
};

pub(crate) const POSTFIX_TAIL: Entry = Entry {
    first: &[
        Terminal::Dot,
        Terminal::OpenParenthesis,
        Terminal::OpenBracket,
    ],
    rows: &[
        Row {
            guard: None,
            symbols: &[
                Key(Terminal::Dot),
                Key(Terminal::Name),
                Do(Act::MakeAttribute),
                Sub(Word::PostfixTail),
            ],
        },
        Row {
            guard: None,
            symbols: &[
                Key(Terminal::OpenBracket),
                Inner(Word::Exprs),
                Key(Terminal::CloseBracket),
                Do(Act::MakeItem),
                Sub(Word::PostfixTail),
            ],
        },
        Row {
            guard: None,
            symbols: &[
                Key(Terminal::OpenParenthesis),
                Do(Act::Begin),
                Inner(Word::Arguments),
                Key(Terminal::CloseParenthesis),
                Do(Act::MakeCall),
                Sub(Word::PostfixTail),
            ],
        },
    ],
    empty: Some(Act::Nothing),
};

pub(crate) const ARGUMENTS: Entry = Entry {
    first: &[
        Terminal::Name,
        Terminal::Int,
        Terminal::Text,
        Terminal::Bytes,
        Terminal::None,
        Terminal::True,
        Terminal::False,
        Terminal::Lambda,
        Terminal::Not,
        Terminal::Plus,
        Terminal::Minus,
        Terminal::Tilde,
        Terminal::Ellipsis,
        Terminal::OpenParenthesis,
        Terminal::OpenBracket,
        Terminal::OpenBrace,
    ],
    rows: &[Row {
        guard: Some(Guard::FewerArguments),
        symbols: &[Sub(Word::Expr), Do(Act::Add), Sub(Word::ArgumentsTail)],
    }],
    empty: Some(Act::Nothing),
};

pub(crate) const ARGUMENTS_TAIL: Entry = Entry {
    first: &[Terminal::Comma],
    rows: &[Row {
        guard: None,
        symbols: &[Key(Terminal::Comma), Sub(Word::Arguments)],
    }],
    empty: Some(Act::Nothing),
};

pub(crate) const ATOM: Entry = Entry {
    first: &[
        Terminal::Name,
        Terminal::Int,
        Terminal::Text,
        Terminal::Bytes,
        Terminal::None,
        Terminal::True,
        Terminal::False,
        Terminal::Ellipsis,
        Terminal::OpenParenthesis,
        Terminal::OpenBracket,
        Terminal::OpenBrace,
    ],
    rows: &[
        Row {
            guard: None,
            symbols: &[Key(Terminal::Name), Do(Act::MakeName)],
        },
        Row {
            guard: None,
            symbols: &[Sub(Word::Other)],
        },
    ],
    empty: None,
};

pub(crate) const OTHER: Entry = Entry {
    first: &[
        Terminal::Int,
        Terminal::Text,
        Terminal::Bytes,
        Terminal::None,
        Terminal::True,
        Terminal::False,
        Terminal::Ellipsis,
        Terminal::OpenParenthesis,
        Terminal::OpenBracket,
        Terminal::OpenBrace,
    ],
    rows: &[
        Row {
            guard: None,
            symbols: &[Key(Terminal::None), Do(Act::MakeNone)],
        },
        Row {
            guard: None,
            symbols: &[Key(Terminal::True), Do(Act::MakeTrue)],
        },
        Row {
            guard: None,
            symbols: &[Key(Terminal::False), Do(Act::MakeFalse)],
        },
        Row {
            guard: None,
            symbols: &[Key(Terminal::Ellipsis), Do(Act::MakeEllipsis)],
        },
        Row {
            guard: None,
            symbols: &[Key(Terminal::Int), Do(Act::MakeInt)],
        },
        Row {
            guard: None,
            symbols: &[Key(Terminal::Text), Do(Act::MakeText)],
        },
        Row {
            guard: None,
            symbols: &[Key(Terminal::Bytes), Do(Act::MakeBytes)],
        },
        Row {
            guard: None,
            symbols: &[
                Key(Terminal::OpenParenthesis),
                Do(Act::Mark),
                Inner(Word::Inside),
                Key(Terminal::CloseParenthesis),
                Do(Act::MakeWithin),
            ],
        },
        Row {
            guard: None,
            symbols: &[
                Key(Terminal::OpenBracket),
                Do(Act::Begin),
                Inner(Word::Items),
                Key(Terminal::CloseBracket),
                Do(Act::MakeList),
            ],
        },
        Row {
            guard: None,
            symbols: &[
                Key(Terminal::OpenBrace),
                Do(Act::Begin),
                Inner(Word::Pairs),
                Key(Terminal::CloseBrace),
                Do(Act::MakeDict),
            ],
        },
    ],
    empty: None,
};

pub(crate) const INSIDE: Entry = Entry {
    first: &[
        Terminal::Name,
        Terminal::Int,
        Terminal::Text,
        Terminal::Bytes,
        Terminal::None,
        Terminal::True,
        Terminal::False,
        Terminal::Lambda,
        Terminal::Not,
        Terminal::Plus,
        Terminal::Minus,
        Terminal::Tilde,
        Terminal::Ellipsis,
        Terminal::OpenParenthesis,
        Terminal::OpenBracket,
        Terminal::OpenBrace,
    ],
    rows: &[Row {
        guard: None,
        symbols: &[Sub(Word::Exprs)],
    }],
    empty: Some(Act::MakeEmptyTuple),
};

pub(crate) const PAIRS: Entry = Entry {
    first: &[
        Terminal::Name,
        Terminal::Int,
        Terminal::Text,
        Terminal::Bytes,
        Terminal::None,
        Terminal::True,
        Terminal::False,
        Terminal::Lambda,
        Terminal::Not,
        Terminal::Plus,
        Terminal::Minus,
        Terminal::Tilde,
        Terminal::Ellipsis,
        Terminal::OpenParenthesis,
        Terminal::OpenBracket,
        Terminal::OpenBrace,
    ],
    rows: &[Row {
        guard: None,
        symbols: &[
            Sub(Word::Expr),
            Do(Act::Add),
            Key(Terminal::Colon),
            Sub(Word::Expr),
            Do(Act::Add),
            Sub(Word::PairsTail),
        ],
    }],
    empty: Some(Act::Nothing),
};

pub(crate) const PAIRS_TAIL: Entry = Entry {
    first: &[Terminal::Comma],
    rows: &[Row {
        guard: None,
        symbols: &[Key(Terminal::Comma), Sub(Word::Pairs)],
    }],
    empty: Some(Act::Nothing),
};

pub(crate) const LINE_END: Entry = Entry {
    first: &[Terminal::Newline],
    rows: &[Row {
        guard: None,
        symbols: &[Key(Terminal::Newline)],
    }],
    empty: Some(Act::Nothing),
};
