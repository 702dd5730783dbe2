use crate::table::Part::{Act as Do, Inner, Terminal as Key, Word as Sub};
use crate::table::{Entry, Row};
use py_grammar::{Act, Terminal, Word};

pub(crate) const BITS: Entry = Entry {
    first: &[
        Terminal::Name,
        Terminal::Int,
        Terminal::Text,
        Terminal::Bytes,
        Terminal::None,
        Terminal::True,
        Terminal::False,
        Terminal::Plus,
        Terminal::Minus,
        Terminal::Tilde,
        Terminal::Ellipsis,
        Terminal::OpenParenthesis,
        Terminal::OpenBracket,
        Terminal::OpenBrace,
    ],
    rows: &[Row {
        guard: None,
        symbols: &[Sub(Word::Differences), Sub(Word::BitsTail)],
    }],
    empty: None,
};

pub(crate) const BITS_TAIL: Entry = Entry {
    first: &[Terminal::Bar],
    rows: &[Row {
        guard: None,
        symbols: &[
            Key(Terminal::Bar),
            Do(Act::BinarySign),
            Sub(Word::Differences),
            Do(Act::MakeBinary),
            Sub(Word::BitsTail),
        ],
    }],
    empty: Some(Act::Nothing),
};

pub(crate) const DIFFERENCES: Entry = Entry {
    first: &[
        Terminal::Name,
        Terminal::Int,
        Terminal::Text,
        Terminal::Bytes,
        Terminal::None,
        Terminal::True,
        Terminal::False,
        Terminal::Plus,
        Terminal::Minus,
        Terminal::Tilde,
        Terminal::Ellipsis,
        Terminal::OpenParenthesis,
        Terminal::OpenBracket,
        Terminal::OpenBrace,
    ],
    rows: &[Row {
        guard: None,
        symbols: &[Sub(Word::Commons), Sub(Word::DifferencesTail)],
    }],
    empty: None,
};

pub(crate) const DIFFERENCES_TAIL: Entry = Entry {
    first: &[Terminal::Caret],
    rows: &[Row {
        guard: None,
        symbols: &[
            Key(Terminal::Caret),
            Do(Act::BinarySign),
            Sub(Word::Commons),
            Do(Act::MakeBinary),
            Sub(Word::DifferencesTail),
        ],
    }],
    empty: Some(Act::Nothing),
};

pub(crate) const COMMONS: Entry = Entry {
    first: &[
        Terminal::Name,
        Terminal::Int,
        Terminal::Text,
        Terminal::Bytes,
        Terminal::None,
        Terminal::True,
        Terminal::False,
        Terminal::Plus,
        Terminal::Minus,
        Terminal::Tilde,
        Terminal::Ellipsis,
        Terminal::OpenParenthesis,
        Terminal::OpenBracket,
        Terminal::OpenBrace,
    ],
    rows: &[Row {
        guard: None,
        symbols: &[Sub(Word::Shifts), Sub(Word::CommonsTail)],
    }],
    empty: None,
};

pub(crate) const COMMONS_TAIL: Entry = Entry {
    first: &[Terminal::Ampersand],
    rows: &[Row {
        guard: None,
        symbols: &[
            Key(Terminal::Ampersand),
            Do(Act::BinarySign),
            Sub(Word::Shifts),
            Do(Act::MakeBinary),
            Sub(Word::CommonsTail),
        ],
    }],
    empty: Some(Act::Nothing),
};

pub(crate) const SHIFTS: Entry = Entry {
    first: &[
        Terminal::Name,
        Terminal::Int,
        Terminal::Text,
        Terminal::Bytes,
        Terminal::None,
        Terminal::True,
        Terminal::False,
        Terminal::Plus,
        Terminal::Minus,
        Terminal::Tilde,
        Terminal::Ellipsis,
        Terminal::OpenParenthesis,
        Terminal::OpenBracket,
        Terminal::OpenBrace,
    ],
    rows: &[Row {
        guard: None,
        symbols: &[Sub(Word::Sums), Sub(Word::ShiftsTail)],
    }],
    empty: None,
};

pub(crate) const SHIFTS_TAIL: Entry = Entry {
    first: &[Terminal::Shift],
    rows: &[Row {
        guard: None,
        symbols: &[
            Key(Terminal::Shift),
            Do(Act::BinarySign),
            Sub(Word::Sums),
            Do(Act::MakeBinary),
            Sub(Word::ShiftsTail),
        ],
    }],
    empty: Some(Act::Nothing),
};

pub(crate) const SUMS: Entry = Entry {
    first: &[
        Terminal::Name,
        Terminal::Int,
        Terminal::Text,
        Terminal::Bytes,
        Terminal::None,
        Terminal::True,
        Terminal::False,
        Terminal::Plus,
        Terminal::Minus,
        Terminal::Tilde,
        Terminal::Ellipsis,
        Terminal::OpenParenthesis,
        Terminal::OpenBracket,
        Terminal::OpenBrace,
    ],
    rows: &[Row {
        guard: None,
        symbols: &[Sub(Word::Products), Sub(Word::SumsTail)],
    }],
    empty: None,
};

pub(crate) const SUMS_TAIL: Entry = Entry {
    first: &[Terminal::Plus, Terminal::Minus],
    rows: &[
        Row {
            guard: None,
            symbols: &[
                Key(Terminal::Plus),
                Do(Act::BinarySign),
                Sub(Word::Products),
                Do(Act::MakeBinary),
                Sub(Word::SumsTail),
            ],
        },
        Row {
            guard: None,
            symbols: &[
                Key(Terminal::Minus),
                Do(Act::BinarySign),
                Sub(Word::Products),
                Do(Act::MakeBinary),
                Sub(Word::SumsTail),
            ],
        },
    ],
    empty: Some(Act::Nothing),
};

pub(crate) const PRODUCTS: Entry = Entry {
    first: &[
        Terminal::Name,
        Terminal::Int,
        Terminal::Text,
        Terminal::Bytes,
        Terminal::None,
        Terminal::True,
        Terminal::False,
        Terminal::Plus,
        Terminal::Minus,
        Terminal::Tilde,
        Terminal::Ellipsis,
        Terminal::OpenParenthesis,
        Terminal::OpenBracket,
        Terminal::OpenBrace,
    ],
    rows: &[Row {
        guard: None,
        symbols: &[Sub(Word::Unary), Sub(Word::ProductsTail)],
    }],
    empty: None,
};

pub(crate) const PRODUCTS_TAIL: Entry = Entry {
    first: &[Terminal::Star, Terminal::Divide],
    rows: &[
        Row {
            guard: None,
            symbols: &[
                Key(Terminal::Star),
                Do(Act::BinarySign),
                Sub(Word::Unary),
                Do(Act::MakeBinary),
                Sub(Word::ProductsTail),
            ],
        },
        Row {
            guard: None,
            symbols: &[
                Key(Terminal::Divide),
                Do(Act::BinarySign),
                Sub(Word::Unary),
                Do(Act::MakeBinary),
                Sub(Word::ProductsTail),
            ],
        },
    ],
    empty: Some(Act::Nothing),
};

pub(crate) const UNARY: Entry = Entry {
    first: &[
        Terminal::Name,
        Terminal::Int,
        Terminal::Text,
        Terminal::Bytes,
        Terminal::None,
        Terminal::True,
        Terminal::False,
        Terminal::Plus,
        Terminal::Minus,
        Terminal::Tilde,
        Terminal::Ellipsis,
        Terminal::OpenParenthesis,
        Terminal::OpenBracket,
        Terminal::OpenBrace,
    ],
    rows: &[
        Row {
            guard: None,
            symbols: &[Sub(Word::Power)],
        },
        Row {
            guard: None,
            symbols: &[
                Key(Terminal::Minus),
                Do(Act::UnarySign),
                Inner(Word::Unary),
                Do(Act::MakeUnary),
            ],
        },
        Row {
            guard: None,
            symbols: &[
                Key(Terminal::Plus),
                Do(Act::UnarySign),
                Inner(Word::Unary),
                Do(Act::MakeUnary),
            ],
        },
        Row {
            guard: None,
            symbols: &[
                Key(Terminal::Tilde),
                Do(Act::UnarySign),
                Inner(Word::Unary),
                Do(Act::MakeUnary),
            ],
        },
    ],
    empty: None,
};

pub(crate) const POWER: Entry = Entry {
    first: &[
        Terminal::Name,
        Terminal::Int,
        Terminal::Text,
        Terminal::Bytes,
        Terminal::None,
        Terminal::True,
        Terminal::False,
        Terminal::Ellipsis,
        Terminal::OpenParenthesis,
        Terminal::OpenBracket,
        Terminal::OpenBrace,
    ],
    rows: &[Row {
        guard: None,
        symbols: &[Sub(Word::Postfix), Sub(Word::PowerTail)],
    }],
    empty: None,
};

pub(crate) const POWER_TAIL: Entry = Entry {
    first: &[Terminal::DoubleStar],
    rows: &[Row {
        guard: None,
        symbols: &[
            Key(Terminal::DoubleStar),
            Do(Act::BinarySign),
            Inner(Word::Unary),
            Do(Act::MakeBinary),
        ],
    }],
    empty: Some(Act::Nothing),
};
