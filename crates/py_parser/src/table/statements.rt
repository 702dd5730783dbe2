use crate::table::Part::{Act as Do, Inner, Terminal as Key, Word as Sub};
use crate::table::{Entry, Row};
use py_grammar::{Act, Guard, Terminal, Word};

pub(crate) const STATEMENTS: Entry = Entry {
    first: &[
        Terminal::Name,
        Terminal::Int,
        Terminal::Text,
        Terminal::Bytes,
        Terminal::None,
        Terminal::True,
        Terminal::False,
        Terminal::Break,
        Terminal::Class,
        Terminal::Continue,
        Terminal::Def,
        Terminal::Del,
        Terminal::For,
        Terminal::Global,
        Terminal::If,
        Terminal::Lambda,
        Terminal::Nonlocal,
        Terminal::Not,
        Terminal::Pass,
        Terminal::Raise,
        Terminal::Return,
        Terminal::Try,
        Terminal::While,
        Terminal::Plus,
        Terminal::Minus,
        Terminal::Tilde,
        Terminal::Ellipsis,
        Terminal::OpenParenthesis,
        Terminal::OpenBracket,
        Terminal::OpenBrace,
    ],
    rows: &[Row {
        guard: None,
        symbols: &[Sub(Word::Statement), Do(Act::Add), Sub(Word::Statements)],
    }],
    empty: Some(Act::Nothing),
};

pub(crate) const STATEMENT: Entry = Entry {
    first: &[
        Terminal::Name,
        Terminal::Int,
        Terminal::Text,
        Terminal::Bytes,
        Terminal::None,
        Terminal::True,
        Terminal::False,
        Terminal::Break,
        Terminal::Class,
        Terminal::Continue,
        Terminal::Def,
        Terminal::Del,
        Terminal::For,
        Terminal::Global,
        Terminal::If,
        Terminal::Lambda,
        Terminal::Nonlocal,
        Terminal::Not,
        Terminal::Pass,
        Terminal::Raise,
        Terminal::Return,
        Terminal::Try,
        Terminal::While,
        Terminal::Plus,
        Terminal::Minus,
        Terminal::Tilde,
        Terminal::Ellipsis,
        Terminal::OpenParenthesis,
        Terminal::OpenBracket,
        Terminal::OpenBrace,
    ],
    rows: &[
        Row {
            guard: None,
            symbols: &[Sub(Word::Simple), Key(Terminal::Newline)],
        },
        Row {
            guard: None,
            symbols: &[
                Key(Terminal::If),
                Do(Act::Mark),
                Sub(Word::Expr),
                Key(Terminal::Colon),
                Inner(Word::Suite),
                Sub(Word::IfTail),
                Do(Act::MakeIf),
            ],
        },
        Row {
            guard: None,
            symbols: &[
                Key(Terminal::While),
                Do(Act::Mark),
                Sub(Word::Expr),
                Key(Terminal::Colon),
                Inner(Word::Suite),
                Do(Act::MakeWhile),
            ],
        },
        Row {
            guard: None,
            symbols: &[
                Key(Terminal::For),
                Do(Act::Mark),
                Sub(Word::Targets),
                Key(Terminal::In),
                Sub(Word::Exprs),
                Key(Terminal::Colon),
                Inner(Word::Suite),
                Do(Act::MakeFor),
            ],
        },
        Row {
            guard: None,
            symbols: &[
                Key(Terminal::Try),
                Do(Act::Mark),
                Key(Terminal::Colon),
                Inner(Word::Suite),
                Do(Act::Begin),
                Inner(Word::TryTail),
                Do(Act::MakeTry),
            ],
        },
        Row {
            guard: None,
            symbols: &[
                Key(Terminal::Def),
                Do(Act::Mark),
                Key(Terminal::Name),
                Do(Act::Name),
                Key(Terminal::OpenParenthesis),
                Do(Act::BeginNames),
                Sub(Word::Parameters),
                Key(Terminal::CloseParenthesis),
                Do(Act::BeginDef),
                Key(Terminal::Colon),
                Inner(Word::Suite),
                Do(Act::MakeDef),
            ],
        },
        Row {
            guard: None,
            symbols: &[
                Key(Terminal::Class),
                Do(Act::Mark),
                Key(Terminal::Name),
                Do(Act::Name),
                Sub(Word::Base),
                Key(Terminal::Colon),
                Inner(Word::Suite),
                Do(Act::MakeClass),
            ],
        },
    ],
    empty: None,
};

pub(crate) const IF_TAIL: Entry = Entry {
    first: &[Terminal::Elif, Terminal::Else],
    rows: &[
        Row {
            guard: None,
            symbols: &[
                Key(Terminal::Elif),
                Do(Act::Mark),
                Sub(Word::Expr),
                Key(Terminal::Colon),
                Inner(Word::Suite),
                Sub(Word::IfTail),
                Do(Act::MakeElif),
            ],
        },
        Row {
            guard: None,
            symbols: &[
                Key(Terminal::Else),
                Key(Terminal::Colon),
                Inner(Word::Suite),
            ],
        },
    ],
    empty: Some(Act::NoSuite),
};

pub(crate) const TRY_TAIL: Entry = Entry {
    first: &[Terminal::Except, Terminal::Finally],
    rows: &[
        Row {
            guard: None,
            symbols: &[Sub(Word::Final)],
        },
        Row {
            guard: None,
            symbols: &[
                Sub(Word::Handler),
                Sub(Word::HandlersTail),
                Sub(Word::FinalTail),
            ],
        },
    ],
    empty: None,
};

pub(crate) const HANDLER: Entry = Entry {
    first: &[Terminal::Except],
    rows: &[Row {
        guard: None,
        symbols: &[
            Key(Terminal::Except),
            Do(Act::Mark),
            Do(Act::BeginNames),
            Sub(Word::Caught),
            Key(Terminal::Colon),
            Sub(Word::Suite),
            Do(Act::MakeHandler),
            Do(Act::Add),
        ],
    }],
    empty: None,
};

pub(crate) const HANDLERS_TAIL: Entry = Entry {
    first: &[Terminal::Except],
    rows: &[Row {
        guard: None,
        symbols: &[Sub(Word::Handler), Sub(Word::HandlersTail)],
    }],
    empty: Some(Act::Nothing),
};

pub(crate) const CAUGHT: Entry = Entry {
    first: &[Terminal::Name, Terminal::OpenParenthesis],
    rows: &[
        Row {
            guard: None,
            symbols: &[Key(Terminal::Name), Do(Act::AddName), Sub(Word::AsName)],
        },
        Row {
            guard: None,
            symbols: &[
                Key(Terminal::OpenParenthesis),
                Key(Terminal::Name),
                Do(Act::AddName),
                Sub(Word::NamesTail),
                Key(Terminal::CloseParenthesis),
                Sub(Word::AsName),
            ],
        },
    ],
    empty: Some(Act::NoName),
};

pub(crate) const AS_NAME: Entry = Entry {
    first: &[Terminal::As],
    rows: &[Row {
        guard: None,
        symbols: &[Key(Terminal::As), Key(Terminal::Name), Do(Act::Name)],
    }],
    empty: Some(Act::NoName),
};

pub(crate) const FINAL: Entry = Entry {
    first: &[Terminal::Finally],
    rows: &[Row {
        guard: None,
        symbols: &[
            Key(Terminal::Finally),
            Key(Terminal::Colon),
            Sub(Word::Suite),
        ],
    }],
    empty: None,
};

pub(crate) const FINAL_TAIL: Entry = Entry {
    first: &[Terminal::Finally],
    rows: &[Row {
        guard: None,
        symbols: &[Sub(Word::Final)],
    }],
    empty: Some(Act::NoSuite),
};

pub(crate) const PARAMETERS: Entry = Entry {
    first: &[Terminal::Name],
    rows: &[Row {
        guard: Some(Guard::FewerParameters),
        symbols: &[
            Key(Terminal::Name),
            Do(Act::AddName),
            Sub(Word::ParametersTail),
        ],
    }],
    empty: Some(Act::Nothing),
};

pub(crate) const PARAMETERS_TAIL: Entry = Entry {
    first: &[Terminal::Comma],
    rows: &[Row {
        guard: None,
        symbols: &[Key(Terminal::Comma), Sub(Word::Parameters)],
    }],
    empty: Some(Act::Nothing),
};

pub(crate) const BASE: Entry = Entry {
    first: &[Terminal::OpenParenthesis],
    rows: &[Row {
        guard: None,
        symbols: &[
            Key(Terminal::OpenParenthesis),
            Key(Terminal::Name),
            Do(Act::Name),
            Key(Terminal::CloseParenthesis),
        ],
    }],
    empty: Some(Act::NoName),
};

pub(crate) const SUITE: Entry = Entry {
    first: &[
        Terminal::Name,
        Terminal::Int,
        Terminal::Text,
        Terminal::Bytes,
        Terminal::Newline,
        Terminal::None,
        Terminal::True,
        Terminal::False,
        Terminal::Break,
        Terminal::Continue,
        Terminal::Del,
        Terminal::Global,
        Terminal::Lambda,
        Terminal::Nonlocal,
        Terminal::Not,
        Terminal::Pass,
        Terminal::Raise,
        Terminal::Return,
        Terminal::Plus,
        Terminal::Minus,
        Terminal::Tilde,
        Terminal::Ellipsis,
        Terminal::OpenParenthesis,
        Terminal::OpenBracket,
        Terminal::OpenBrace,
    ],
    rows: &[
        Row {
            guard: None,
            symbols: &[
                Do(Act::Begin),
                Sub(Word::Simple),
                Do(Act::Add),
                Key(Terminal::Newline),
                Do(Act::MakeSuite),
            ],
        },
        Row {
            guard: None,
            symbols: &[
                Key(Terminal::Newline),
                Do(Act::Begin),
                Key(Terminal::Indent),
                Sub(Word::Statement),
                Do(Act::Add),
                Sub(Word::Statements),
                Key(Terminal::Dedent),
                Do(Act::MakeSuite),
            ],
        },
    ],
    empty: None,
};

pub(crate) const SIMPLE: Entry = Entry {
    first: &[
        Terminal::Name,
        Terminal::Int,
        Terminal::Text,
        Terminal::Bytes,
        Terminal::None,
        Terminal::True,
        Terminal::False,
        Terminal::Break,
        Terminal::Continue,
        Terminal::Del,
        Terminal::Global,
        Terminal::Lambda,
        Terminal::Nonlocal,
        Terminal::Not,
        Terminal::Pass,
        Terminal::Raise,
        Terminal::Return,
        Terminal::Plus,
        Terminal::Minus,
        Terminal::Tilde,
        Terminal::Ellipsis,
        Terminal::OpenParenthesis,
        Terminal::OpenBracket,
        Terminal::OpenBrace,
    ],
    rows: &[
        Row {
            guard: None,
            symbols: &[Key(Terminal::Pass), Do(Act::MakePass)],
        },
        Row {
            guard: None,
            symbols: &[Key(Terminal::Break), Do(Act::MakeBreak)],
        },
        Row {
            guard: None,
            symbols: &[Key(Terminal::Continue), Do(Act::MakeContinue)],
        },
        Row {
            guard: None,
            symbols: &[Key(Terminal::Return), Do(Act::Mark), Sub(Word::ReturnTail)],
        },
        Row {
            guard: None,
            symbols: &[Key(Terminal::Raise), Do(Act::Mark), Sub(Word::RaiseTail)],
        },
        Row {
            guard: None,
            symbols: &[
                Key(Terminal::Global),
                Do(Act::Mark),
                Do(Act::BeginNames),
                Key(Terminal::Name),
                Do(Act::AddName),
                Sub(Word::NamesTail),
                Do(Act::MakeGlobal),
            ],
        },
        Row {
            guard: None,
            symbols: &[
                Key(Terminal::Nonlocal),
                Do(Act::Mark),
                Do(Act::BeginNames),
                Key(Terminal::Name),
                Do(Act::AddName),
                Sub(Word::NamesTail),
                Do(Act::MakeNonlocal),
            ],
        },
        Row {
            guard: None,
            symbols: &[
                Key(Terminal::Del),
                Do(Act::Mark),
                Sub(Word::Place),
                Do(Act::MakeDel),
            ],
        },
        Row {
            guard: None,
            symbols: &[Sub(Word::Exprs), Sub(Word::SimpleTail)],
        },
    ],
    empty: None,
};

pub(crate) const SIMPLE_TAIL: Entry = Entry {
    first: &[Terminal::Assign, Terminal::Augmented],
    rows: &[
        Row {
            guard: Some(Guard::Targets),
            symbols: &[Key(Terminal::Assign), Sub(Word::Exprs), Do(Act::MakeAssign)],
        },
        Row {
            guard: Some(Guard::Place),
            symbols: &[
                Key(Terminal::Augmented),
                Do(Act::BinarySign),
                Sub(Word::Exprs),
                Do(Act::MakeAugmented),
            ],
        },
    ],
    empty: Some(Act::MakeExpression),
};

pub(crate) const RETURN_TAIL: Entry = Entry {
    first: &[
        Terminal::Name,
        Terminal::Int,
        Terminal::Text,
        Terminal::Bytes,
        Terminal::None,
        Terminal::True,
        Terminal::False,
        Terminal::Lambda,
        Terminal::Not,
        Terminal::Plus,
        Terminal::Minus,
        Terminal::Tilde,
        Terminal::Ellipsis,
        Terminal::OpenParenthesis,
        Terminal::OpenBracket,
        Terminal::OpenBrace,
    ],
    rows: &[Row {
        guard: None,
        symbols: &[Sub(Word::Exprs), Do(Act::MakeReturn)],
    }],
    empty: Some(Act::MakeReturnNone),
};

pub(crate) const RAISE_TAIL: Entry = Entry {
    first: &[Terminal::Name],
    rows: &[Row {
        guard: None,
        symbols: &[
            Key(Terminal::Name),
            Do(Act::Name),
            Sub(Word::RaiseArguments),
        ],
    }],
    empty: Some(Act::MakeReraise),
};

pub(crate) const RAISE_ARGUMENTS: Entry = Entry {
    first: &[Terminal::OpenParenthesis],
    rows: &[Row {
        guard: None,
        symbols: &[
            Key(Terminal::OpenParenthesis),
            Do(Act::Begin),
            Inner(Word::Arguments),
            Key(Terminal::CloseParenthesis),
            Do(Act::MakeRaise),
        ],
    }],
    empty: Some(Act::MakeRaiseName),
};

pub(crate) const NAMES_TAIL: Entry = Entry {
    first: &[Terminal::Comma],
    rows: &[Row {
        guard: None,
        symbols: &[
            Key(Terminal::Comma),
            Key(Terminal::Name),
            Do(Act::AddName),
            Sub(Word::NamesTail),
        ],
    }],
    empty: Some(Act::Nothing),
};
