ghost use Rattle.std.specs.Prelude.{◌≡◌, ◌≤◌, length};
ghost use Rattle.py_parser.specs.Lexemes.{spelled, keyword_of, sign_of, terminal_of, slice, line_ends, ends_line, last_line};
ghost use Rattle.py_parser.specs.Spellings.{spellings_of};

use py_grammar::Terminal;
use py_lexer::{Token, TokenKind};

/// What a keyword or a sign is to the grammar.
#[derive(Clone, Copy)]
struct Spelling {
    text: &'static [u8],
    terminal: Terminal,
}

/// The keywords of the grammar.
const KEYWORDS: [Spelling; 28] = [
    Spelling {
        text: b"None",
        terminal: Terminal::None,
    },
    Spelling {
        text: b"True",
        terminal: Terminal::True,
    },
    Spelling {
        text: b"False",
        terminal: Terminal::False,
    },
    Spelling {
        text: b"and",
        terminal: Terminal::And,
    },
    Spelling {
        text: b"as",
        terminal: Terminal::As,
    },
    Spelling {
        text: b"break",
        terminal: Terminal::Break,
    },
    Spelling {
        text: b"class",
        terminal: Terminal::Class,
    },
    Spelling {
        text: b"continue",
        terminal: Terminal::Continue,
    },
    Spelling {
        text: b"def",
        terminal: Terminal::Def,
    },
    Spelling {
        text: b"del",
        terminal: Terminal::Del,
    },
    Spelling {
        text: b"elif",
        terminal: Terminal::Elif,
    },
    Spelling {
        text: b"else",
        terminal: Terminal::Else,
    },
    Spelling {
        text: b"except",
        terminal: Terminal::Except,
    },
    Spelling {
        text: b"finally",
        terminal: Terminal::Finally,
    },
    Spelling {
        text: b"for",
        terminal: Terminal::For,
    },
    Spelling {
        text: b"global",
        terminal: Terminal::Global,
    },
    Spelling {
        text: b"if",
        terminal: Terminal::If,
    },
    Spelling {
        text: b"in",
        terminal: Terminal::In,
    },
    Spelling {
        text: b"is",
        terminal: Terminal::Is,
    },
    Spelling {
        text: b"lambda",
        terminal: Terminal::Lambda,
    },
    Spelling {
        text: b"nonlocal",
        terminal: Terminal::Nonlocal,
    },
    Spelling {
        text: b"not",
        terminal: Terminal::Not,
    },
    Spelling {
        text: b"or",
        terminal: Terminal::Or,
    },
    Spelling {
        text: b"pass",
        terminal: Terminal::Pass,
    },
    Spelling {
        text: b"raise",
        terminal: Terminal::Raise,
    },
    Spelling {
        text: b"return",
        terminal: Terminal::Return,
    },
    Spelling {
        text: b"try",
        terminal: Terminal::Try,
    },
    Spelling {
        text: b"while",
        terminal: Terminal::While,
    },
];

/// The signs of the grammar.
const SIGNS: [Spelling; 41] = [
    Spelling {
        text: b"=",
        terminal: Terminal::Assign,
    },
    Spelling {
        text: b"+=",
        terminal: Terminal::Augmented,
    },
    Spelling {
        text: b"-=",
        terminal: Terminal::Augmented,
    },
    Spelling {
        text: b"*=",
        terminal: Terminal::Augmented,
    },
    Spelling {
        text: b"//=",
        terminal: Terminal::Augmented,
    },
    Spelling {
        text: b"%=",
        terminal: Terminal::Augmented,
    },
    Spelling {
        text: b"**=",
        terminal: Terminal::Augmented,
    },
    Spelling {
        text: b"&=",
        terminal: Terminal::Augmented,
    },
    Spelling {
        text: b"|=",
        terminal: Terminal::Augmented,
    },
    Spelling {
        text: b"^=",
        terminal: Terminal::Augmented,
    },
    Spelling {
        text: b"<<=",
        terminal: Terminal::Augmented,
    },
    Spelling {
        text: b">>=",
        terminal: Terminal::Augmented,
    },
    Spelling {
        text: b"==",
        terminal: Terminal::Comparison,
    },
    Spelling {
        text: b"!=",
        terminal: Terminal::Comparison,
    },
    Spelling {
        text: b"<",
        terminal: Terminal::Comparison,
    },
    Spelling {
        text: b"<=",
        terminal: Terminal::Comparison,
    },
    Spelling {
        text: b">",
        terminal: Terminal::Comparison,
    },
    Spelling {
        text: b">=",
        terminal: Terminal::Comparison,
    },
    Spelling {
        text: b"|",
        terminal: Terminal::Bar,
    },
    Spelling {
        text: b"^",
        terminal: Terminal::Caret,
    },
    Spelling {
        text: b"&",
        terminal: Terminal::Ampersand,
    },
    Spelling {
        text: b"<<",
        terminal: Terminal::Shift,
    },
    Spelling {
        text: b">>",
        terminal: Terminal::Shift,
    },
    Spelling {
        text: b"+",
        terminal: Terminal::Plus,
    },
    Spelling {
        text: b"-",
        terminal: Terminal::Minus,
    },
    Spelling {
        text: b"*",
        terminal: Terminal::Star,
    },
    Spelling {
        text: b"/",
        terminal: Terminal::Divide,
    },
    Spelling {
        text: b"//",
        terminal: Terminal::Divide,
    },
    Spelling {
        text: b"%",
        terminal: Terminal::Divide,
    },
    Spelling {
        text: b"~",
        terminal: Terminal::Tilde,
    },
    Spelling {
        text: b"**",
        terminal: Terminal::DoubleStar,
    },
    Spelling {
        text: b".",
        terminal: Terminal::Dot,
    },
    Spelling {
        text: b",",
        terminal: Terminal::Comma,
    },
    Spelling {
        text: b":",
        terminal: Terminal::Colon,
    },
    Spelling {
        text: b"...",
        terminal: Terminal::Ellipsis,
    },
    Spelling {
        text: b"(",
        terminal: Terminal::OpenParenthesis,
    },
    Spelling {
        text: b")",
        terminal: Terminal::CloseParenthesis,
    },
    Spelling {
        text: b"[",
        terminal: Terminal::OpenBracket,
    },
    Spelling {
        text: b"]",
        terminal: Terminal::CloseBracket,
    },
    Spelling {
        text: b"{",
        terminal: Terminal::OpenBrace,
    },
    Spelling {
        text: b"}",
        terminal: Terminal::CloseBrace,
    },
];

/// The terminal that is spelled so, or the other.
fn spelled(spellings: &[Spelling], other: Terminal, text: &[u8]) -> Terminal
    ensures { result ≡ spelled (spellings_of spellings.now) other text.now }
{
    for spelling in spellings {
        if text == spelling.text {
            return spelling.terminal;
        }
    }
    other
}

#[tactic(auto, unfolding(crate::specs::Lexemes::keyword_of))]
fn keyword_of(text: &[u8]) -> Terminal
    ensures { result ≡ keyword_of text.now }
{
    spelled(&KEYWORDS, Terminal::LeftOutWord, text)
}

#[tactic(auto, unfolding(crate::specs::Lexemes::sign_of))]
fn sign_of(text: &[u8]) -> Terminal
    ensures { result ≡ sign_of text.now }
{
    spelled(&SIGNS, Terminal::LeftOutSign, text)
}

/// What a token of this kind and text is to the grammar.
pub(crate) fn terminal_of(kind: TokenKind, text: &str) -> Terminal
    ensures { result ≡ terminal_of kind text.now }
{
    match kind {
        TokenKind::Name => Terminal::Name,
        TokenKind::Keyword => keyword_of(text.as_bytes()),
        TokenKind::Int => Terminal::Int,
        TokenKind::Text => Terminal::Text,
        TokenKind::Bytes => Terminal::Bytes,
        TokenKind::Sign => sign_of(text.as_bytes()),
        TokenKind::Newline => Terminal::Newline,
        TokenKind::Indent => Terminal::Indent,
        TokenKind::Dedent => Terminal::Dedent,
    }
}

/// The token's text.
pub(crate) fn slice<'a>(text: &'a str, token: &Token) -> &'a str
    ensures { result.now ≡ slice text.now token.now.start token.now.stop }
{
    let Some((front, _)) = text.split_at_checked(token.stop as usize) else {
        return "";
    };
    let Some((_, slice)) = front.split_at_checked(token.start as usize) else {
        return "";
    };
    slice
}

fn line_ends(text: &[u8]) -> u32
    requires { length text.now ≤ 1048576 }
    ensures count { result ≡ line_ends text.now }
    ensures bound { result ≤ length text.now }
{
    let mut line_ends: u32 = 0;
    for byte in text {
        if *byte == b'\n' {
            line_ends += 1;
        }
    }
    line_ends
}

fn ends_line(text: &[u8]) -> bool
    ensures { result ≡ ends_line text.now }
{
    !text.is_empty() && text[text.len() - 1] == b'\n'
}

/// The line of the last byte, or 1.
pub(crate) fn last_line(text: &[u8]) -> u32
    requires { length text.now ≤ 1048576 }
    ensures { result ≡ last_line text.now }
{
    if ends_line(text) {
        return line_ends(text);
    }
    line_ends(text) + 1
}
