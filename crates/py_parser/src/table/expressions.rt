use crate::table::Part::{Act as Do, Inner, Terminal as Key, Word as Sub};
use crate::table::{Entry, Row};
use py_grammar::{Act, Guard, Terminal, Word};

pub(crate) const EXPRS: Entry = Entry {
    first: &[
        Terminal::Name,
        Terminal::Int,
        Terminal::Text,
        Terminal::Bytes,
        Terminal::None,
        Terminal::True,
        Terminal::False,
        Terminal::Lambda,
        Terminal::Not,
        Terminal::Plus,
        Terminal::Minus,
        Terminal::Tilde,
        Terminal::Ellipsis,
        Terminal::OpenParenthesis,
        Terminal::OpenBracket,
        Terminal::OpenBrace,
    ],
    rows: &[Row {
        guard: None,
        symbols: &[Sub(Word::Expr), Sub(Word::ExprsTail)],
    }],
    empty: None,
};

pub(crate) const EXPRS_TAIL: Entry = Entry {
    first: &[Terminal::Comma],
    rows: &[Row {
        guard: None,
        symbols: &[
            Key(Terminal::Comma),
            Do(Act::BeginWith),
            Sub(Word::Items),
            Do(Act::MakeTuple),
        ],
    }],
    empty: Some(Act::Nothing),
};

pub(crate) const ITEMS: Entry = Entry {
    first: &[
        Terminal::Name,
        Terminal::Int,
        Terminal::Text,
        Terminal::Bytes,
        Terminal::None,
        Terminal::True,
        Terminal::False,
        Terminal::Lambda,
        Terminal::Not,
        Terminal::Plus,
        Terminal::Minus,
        Terminal::Tilde,
        Terminal::Ellipsis,
        Terminal::OpenParenthesis,
        Terminal::OpenBracket,
        Terminal::OpenBrace,
    ],
    rows: &[Row {
        guard: None,
        symbols: &[Sub(Word::Expr), Do(Act::Add), Sub(Word::ItemsTail)],
    }],
    empty: Some(Act::Nothing),
};

pub(crate) const ITEMS_TAIL: Entry = Entry {
    first: &[Terminal::Comma],
    rows: &[Row {
        guard: None,
        symbols: &[Key(Terminal::Comma), Sub(Word::Items)],
    }],
    empty: Some(Act::Nothing),
};

pub(crate) const EXPR: Entry = Entry {
    first: &[
        Terminal::Name,
        Terminal::Int,
        Terminal::Text,
        Terminal::Bytes,
        Terminal::None,
        Terminal::True,
        Terminal::False,
        Terminal::Lambda,
        Terminal::Not,
        Terminal::Plus,
        Terminal::Minus,
        Terminal::Tilde,
        Terminal::Ellipsis,
        Terminal::OpenParenthesis,
        Terminal::OpenBracket,
        Terminal::OpenBrace,
    ],
    rows: &[
        Row {
            guard: None,
            symbols: &[Sub(Word::Either), Sub(Word::ExprTail)],
        },
        Row {
            guard: None,
            symbols: &[
                Key(Terminal::Lambda),
                Do(Act::Mark),
                Do(Act::BeginNames),
                Sub(Word::LambdaNames),
                Do(Act::BeginLambda),
                Key(Terminal::Colon),
                Inner(Word::Expr),
                Do(Act::MakeLambda),
            ],
        },
    ],
    empty: None,
};

pub(crate) const EXPR_TAIL: Entry = Entry {
    first: &[Terminal::If],
    rows: &[Row {
        guard: None,
        symbols: &[
            Key(Terminal::If),
            Sub(Word::Either),
            Key(Terminal::Else),
            Inner(Word::Expr),
            Do(Act::MakeConditional),
        ],
    }],
    empty: Some(Act::Nothing),
};

pub(crate) const LAMBDA_NAMES: Entry = Entry {
    first: &[Terminal::Name],
    rows: &[Row {
        guard: Some(Guard::FewerParameters),
        symbols: &[Key(Terminal::Name), Do(Act::AddName), Sub(Word::LambdaTail)],
    }],
    empty: Some(Act::Nothing),
};

pub(crate) const LAMBDA_TAIL: Entry = Entry {
    first: &[Terminal::Comma],
    rows: &[Row {
        guard: Some(Guard::FewerParameters),
        symbols: &[
            Key(Terminal::Comma),
            Key(Terminal::Name),
            Do(Act::AddName),
            Sub(Word::LambdaTail),
        ],
    }],
    empty: Some(Act::Nothing),
};

pub(crate) const EITHER: Entry = Entry {
    first: &[
        Terminal::Name,
        Terminal::Int,
        Terminal::Text,
        Terminal::Bytes,
        Terminal::None,
        Terminal::True,
        Terminal::False,
        Terminal::Not,
        Terminal::Plus,
        Terminal::Minus,
        Terminal::Tilde,
        Terminal::Ellipsis,
        Terminal::OpenParenthesis,
        Terminal::OpenBracket,
        Terminal::OpenBrace,
    ],
    rows: &[Row {
        guard: None,
        symbols: &[Sub(Word::Both), Sub(Word::EitherTail)],
    }],
    empty: None,
};

pub(crate) const EITHER_TAIL: Entry = Entry {
    first: &[Terminal::Or],
    rows: &[Row {
        guard: None,
        symbols: &[
            Key(Terminal::Or),
            Do(Act::BeginWith),
            Sub(Word::Both),
            Do(Act::Add),
            Sub(Word::EitherMore),
            Do(Act::MakeOr),
        ],
    }],
    empty: Some(Act::Nothing),
};

pub(crate) const EITHER_MORE: Entry = Entry {
    first: &[Terminal::Or],
    rows: &[Row {
        guard: None,
        symbols: &[
            Key(Terminal::Or),
            Sub(Word::Both),
            Do(Act::Add),
            Sub(Word::EitherMore),
        ],
    }],
    empty: Some(Act::Nothing),
};

pub(crate) const BOTH: Entry = Entry {
    first: &[
        Terminal::Name,
        Terminal::Int,
        Terminal::Text,
        Terminal::Bytes,
        Terminal::None,
        Terminal::True,
        Terminal::False,
        Terminal::Not,
        Terminal::Plus,
        Terminal::Minus,
        Terminal::Tilde,
        Terminal::Ellipsis,
        Terminal::OpenParenthesis,
        Terminal::OpenBracket,
        Terminal::OpenBrace,
    ],
    rows: &[Row {
        guard: None,
        symbols: &[Sub(Word::Inverse), Sub(Word::BothTail)],
    }],
    empty: None,
};

pub(crate) const BOTH_TAIL: Entry = Entry {
    first: &[Terminal::And],
    rows: &[Row {
        guard: None,
        symbols: &[
            Key(Terminal::And),
            Do(Act::BeginWith),
            Sub(Word::Inverse),
            Do(Act::Add),
            Sub(Word::BothMore),
            Do(Act::MakeAnd),
        ],
    }],
    empty: Some(Act::Nothing),
};

pub(crate) const BOTH_MORE: Entry = Entry {
    first: &[Terminal::And],
    rows: &[Row {
        guard: None,
        symbols: &[
            Key(Terminal::And),
            Sub(Word::Inverse),
            Do(Act::Add),
            Sub(Word::BothMore),
        ],
    }],
    empty: Some(Act::Nothing),
};

pub(crate) const INVERSE: Entry = Entry {
    first: &[
        Terminal::Name,
        Terminal::Int,
        Terminal::Text,
        Terminal::Bytes,
        Terminal::None,
        Terminal::True,
        Terminal::False,
        Terminal::Not,
        Terminal::Plus,
        Terminal::Minus,
        Terminal::Tilde,
        Terminal::Ellipsis,
        Terminal::OpenParenthesis,
        Terminal::OpenBracket,
        Terminal::OpenBrace,
    ],
    rows: &[
        Row {
            guard: None,
            symbols: &[Sub(Word::Compare)],
        },
        Row {
            guard: None,
            symbols: &[
                Key(Terminal::Not),
                Do(Act::Mark),
                Inner(Word::Inverse),
                Do(Act::MakeNot),
            ],
        },
    ],
    empty: None,
};

pub(crate) const COMPARE: Entry = Entry {
    first: &[
        Terminal::Name,
        Terminal::Int,
        Terminal::Text,
        Terminal::Bytes,
        Terminal::None,
        Terminal::True,
        Terminal::False,
        Terminal::Plus,
        Terminal::Minus,
        Terminal::Tilde,
        Terminal::Ellipsis,
        Terminal::OpenParenthesis,
        Terminal::OpenBracket,
        Terminal::OpenBrace,
    ],
    rows: &[Row {
        guard: None,
        symbols: &[Sub(Word::Bits), Sub(Word::CompareTail)],
    }],
    empty: None,
};

pub(crate) const COMPARE_TAIL: Entry = Entry {
    first: &[
        Terminal::In,
        Terminal::Is,
        Terminal::Not,
        Terminal::Comparison,
    ],
    rows: &[Row {
        guard: None,
        symbols: &[
            Do(Act::BeginLinks),
            Sub(Word::Link),
            Sub(Word::CompareMore),
            Do(Act::MakeCompare),
        ],
    }],
    empty: Some(Act::Nothing),
};

pub(crate) const COMPARE_MORE: Entry = Entry {
    first: &[
        Terminal::In,
        Terminal::Is,
        Terminal::Not,
        Terminal::Comparison,
    ],
    rows: &[Row {
        guard: None,
        symbols: &[Sub(Word::Link), Sub(Word::CompareMore)],
    }],
    empty: Some(Act::Nothing),
};

pub(crate) const LINK: Entry = Entry {
    first: &[
        Terminal::In,
        Terminal::Is,
        Terminal::Not,
        Terminal::Comparison,
    ],
    rows: &[
        Row {
            guard: None,
            symbols: &[
                Key(Terminal::Comparison),
                Do(Act::ComparisonSign),
                Sub(Word::Bits),
                Do(Act::AddLink),
            ],
        },
        Row {
            guard: None,
            symbols: &[
                Key(Terminal::In),
                Do(Act::ComparisonSign),
                Sub(Word::Bits),
                Do(Act::AddLink),
            ],
        },
        Row {
            guard: None,
            symbols: &[
                Key(Terminal::Not),
                Do(Act::ComparisonSign),
                Key(Terminal::In),
                Sub(Word::Bits),
                Do(Act::AddLink),
            ],
        },
        Row {
            guard: None,
            symbols: &[
                Key(Terminal::Is),
                Do(Act::ComparisonSign),
                Sub(Word::IsRight),
                Do(Act::AddLink),
            ],
        },
    ],
    empty: None,
};

pub(crate) const IS_RIGHT: Entry = Entry {
    first: &[
        Terminal::Name,
        Terminal::Int,
        Terminal::Text,
        Terminal::Bytes,
        Terminal::None,
        Terminal::True,
        Terminal::False,
        Terminal::Not,
        Terminal::Plus,
        Terminal::Minus,
        Terminal::Tilde,
        Terminal::Ellipsis,
        Terminal::OpenParenthesis,
        Terminal::OpenBracket,
        Terminal::OpenBrace,
    ],
    rows: &[
        Row {
            guard: None,
            symbols: &[Sub(Word::Bits)],
        },
        Row {
            guard: None,
            symbols: &[Key(Terminal::Not), Do(Act::Negate), Sub(Word::Bits)],
        },
    ],
    empty: None,
};
