use crate::table::Part::{Act as Do, Inner, Terminal as Key, Word as Sub};
use crate::table::{Entry, Row};
use py_grammar::{Act, Terminal, Word};

pub(crate) const TARGETS: Entry = Entry {
    first: &[
        Terminal::Name,
        Terminal::Int,
        Terminal::Text,
        Terminal::Bytes,
        Terminal::None,
        Terminal::True,
        Terminal::False,
        Terminal::Ellipsis,
        Terminal::OpenParenthesis,
        Terminal::OpenBracket,
        Terminal::OpenBrace,
    ],
    rows: &[Row {
        guard: None,
        symbols: &[Sub(Word::Target), Sub(Word::TargetsTail)],
    }],
    empty: None,
};

pub(crate) const TARGETS_TAIL: Entry = Entry {
    first: &[Terminal::Comma],
    rows: &[Row {
        guard: None,
        symbols: &[
            Key(Terminal::Comma),
            Do(Act::BeginWith),
            Sub(Word::TargetItems),
            Do(Act::MakeTuple),
        ],
    }],
    empty: Some(Act::Nothing),
};

pub(crate) const TARGET_ITEMS: Entry = Entry {
    first: &[
        Terminal::Name,
        Terminal::Int,
        Terminal::Text,
        Terminal::Bytes,
        Terminal::None,
        Terminal::True,
        Terminal::False,
        Terminal::Ellipsis,
        Terminal::OpenParenthesis,
        Terminal::OpenBracket,
        Terminal::OpenBrace,
    ],
    rows: &[Row {
        guard: None,
        symbols: &[Sub(Word::Target), Do(Act::Add), Sub(Word::TargetItemsTail)],
    }],
    empty: Some(Act::Nothing),
};

pub(crate) const TARGET_ITEMS_TAIL: Entry = Entry {
    first: &[Terminal::Comma],
    rows: &[Row {
        guard: None,
        symbols: &[Key(Terminal::Comma), Sub(Word::TargetItems)],
    }],
    empty: Some(Act::Nothing),
};

pub(crate) const TARGET: Entry = Entry {
    first: &[
        Terminal::Name,
        Terminal::Int,
        Terminal::Text,
        Terminal::Bytes,
        Terminal::None,
        Terminal::True,
        Terminal::False,
        Terminal::Ellipsis,
        Terminal::OpenParenthesis,
        Terminal::OpenBracket,
        Terminal::OpenBrace,
    ],
    rows: &[
        Row {
            guard: None,
            symbols: &[
                Key(Terminal::Name),
                Do(Act::MakeName),
                Sub(Word::TargetTail),
            ],
        },
        Row {
            guard: None,
            symbols: &[Sub(Word::Other), Sub(Word::PlaceTail)],
        },
    ],
    empty: None,
};

pub(crate) const TARGET_TAIL: Entry = Entry {
    first: &[
        Terminal::Dot,
        Terminal::OpenParenthesis,
        Terminal::OpenBracket,
    ],
    rows: &[
        Row {
            guard: None,
            symbols: &[
                Key(Terminal::Dot),
                Key(Terminal::Name),
                Do(Act::MakeAttribute),
                Sub(Word::TargetTail),
            ],
        },
        Row {
            guard: None,
            symbols: &[
                Key(Terminal::OpenBracket),
                Inner(Word::Exprs),
                Key(Terminal::CloseBracket),
                Do(Act::MakeItem),
                Sub(Word::TargetTail),
            ],
        },
        Row {
            guard: None,
            symbols: &[
                Key(Terminal::OpenParenthesis),
                Do(Act::Begin),
                Inner(Word::Arguments),
                Key(Terminal::CloseParenthesis),
                Do(Act::MakeCall),
                Sub(Word::PlaceTail),
            ],
        },
    ],
    empty: Some(Act::Nothing),
};

pub(crate) const PLACE: Entry = Entry {
    first: &[
        Terminal::Name,
        Terminal::Int,
        Terminal::Text,
        Terminal::Bytes,
        Terminal::None,
        Terminal::True,
        Terminal::False,
        Terminal::Ellipsis,
        Terminal::OpenParenthesis,
        Terminal::OpenBracket,
        Terminal::OpenBrace,
    ],
    rows: &[Row {
        guard: None,
        symbols: &[Sub(Word::Atom), Sub(Word::PlaceTail)],
    }],
    empty: None,
};

pub(crate) const PLACE_TAIL: Entry = Entry {
    first: &[
        Terminal::Dot,
        Terminal::OpenParenthesis,
        Terminal::OpenBracket,
    ],
    rows: &[
        Row {
            guard: None,
            symbols: &[
                Key(Terminal::Dot),
                Key(Terminal::Name),
                Do(Act::MakeAttribute),
                Sub(Word::TargetTail),
            ],
        },
        Row {
            guard: None,
            symbols: &[
                Key(Terminal::OpenBracket),
                Inner(Word::Exprs),
                Key(Terminal::CloseBracket),
                Do(Act::MakeItem),
                Sub(Word::TargetTail),
            ],
        },
        Row {
            guard: None,
            symbols: &[
                Key(Terminal::OpenParenthesis),
                Do(Act::Begin),
                Inner(Word::Arguments),
                Key(Terminal::CloseParenthesis),
                Do(Act::MakeCall),
                Sub(Word::PlaceTail),
            ],
        },
    ],
    empty: None,
};
