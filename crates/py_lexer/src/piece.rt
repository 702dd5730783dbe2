ghost use Rattle.std.specs.Prelude.{◌≡◌, ◌≤◌, ◌<◌, length};
ghost use Rattle.py_lexer.specs.Pieces.{piece_of, text_piece, bytes_piece, literal_piece, number_piece, word_piece, mark_piece, starts, refused};
ghost use Rattle.py_lexer.specs.Spellings.{is_quote, is_digit};

use crate::literal::literal_size;
use crate::spelling::{
    comment_size, is_digit, is_int, is_keyword, is_name_start, is_prefix, line_end_size, name_size,
    number_size, sign_size,
};
use crate::token::TokenKind;
use rp_base::Rule;

/// A name has at most so many bytes.
const LONGEST_NAME: usize = 64;

/// What stands at a place of the text.
#[derive(Clone, Copy, Debug, PartialEq, Eq)]
pub(crate) enum PieceKind {
    Space,
    Tab,
    Comment,
    LineEnd,
    Token(TokenKind),
    Opener,
    Closer,
    Refused(Rule),
}

/// What stands at a place of the text, and how many bytes it takes.
#[derive(Clone, Copy, Debug, PartialEq, Eq)]
pub(crate) struct Piece {
    pub(crate) kind: PieceKind,
    pub(crate) size: usize,
}

/// The longest piece in front, without regard to lines and brackets.
#[tactic(auto, unfolding(crate::specs::Pieces::piece_of))]
pub(crate) fn piece_at(rest: &[u8]) -> Piece
    requires { 0 < length rest.now }
    ensures value { result ≡ piece_of rest.now }
    ensures within { result.size ≤ length rest.now }
{
    match rest {
        [b' ', ..] => sized(PieceKind::Space, 1),
        [b'\t', ..] => sized(PieceKind::Tab, 1),
        [b'#', ..] => sized(PieceKind::Comment, comment_size(rest)),
        [b'(' | b'[' | b'{', ..] => sized(PieceKind::Opener, 1),
        [b')' | b']' | b'}', ..] => sized(PieceKind::Closer, 1),
        [b'\'' | b'"', ..] => text(rest),
        [b'b', after @ ..] if is_before_quote(after) => bytes(rest),
        [b'.', after @ ..] if is_before_digit(after) => refused(Rule::L4),
        [byte, ..] if is_digit(*byte) => number(rest),
        [byte, ..] if is_name_start(*byte) => word(rest),
        _ => mark(rest),
    }
}

fn sized(kind: PieceKind, size: usize) -> Piece
    ensures { result ≡ record { kind = kind; size = size } }
{
    Piece { kind, size }
}

fn refused(rule: Rule) -> Piece
    ensures { result ≡ refused rule }
{
    sized(PieceKind::Refused(rule), 1)
}

fn is_before_quote(rest: &[u8]) -> bool
    ensures { result ≡ starts is_quote rest.now }
{
    matches!(rest, [b'\'' | b'"', ..])
}

fn is_before_digit(rest: &[u8]) -> bool
    ensures { result ≡ starts is_digit rest.now }
{
    matches!(rest, [b'0'..=b'9', ..])
}

/// The text whose quote is in front.
#[tactic(auto, unfolding(crate::specs::Pieces::text_piece))]
fn text(rest: &[u8]) -> Piece
    requires { 0 < length rest.now }
    ensures value { result ≡ text_piece rest.now }
    ensures within { result.size ≤ length rest.now }
{
    match rest {
        [quote, a, b, ..] if a == quote && b == quote => refused(Rule::L4),
        [quote, ..] => literal(TokenKind::Text, *quote, 1, rest),
        [] => refused(Rule::L4),
    }
}

/// The bytes whose `b` is in front of a quote.
#[tactic(auto, unfolding(crate::specs::Pieces::bytes_piece))]
fn bytes(rest: &[u8]) -> Piece
    requires { 0 < length rest.now }
    ensures value { result ≡ bytes_piece rest.now }
    ensures within { result.size ≤ length rest.now }
{
    match rest {
        [_, quote, a, b, ..] if a == quote && b == quote => refused(Rule::L4),
        [_, quote, ..] => literal(TokenKind::Bytes, *quote, 2, rest),
        _ => refused(Rule::L4),
    }
}

/// The literal whose body begins behind its opening.
fn literal(kind: TokenKind, quote: u8, opening: usize, rest: &[u8]) -> Piece
    requires { 0 < length rest.now }
    ensures value { result ≡ literal_piece kind quote opening rest.now }
    ensures within { result.size ≤ length rest.now }
{
    match literal_size(quote, kind == TokenKind::Bytes, opening, rest) {
        Some(size) => sized(PieceKind::Token(kind), size),
        None => refused(Rule::L4),
    }
}

/// The number whose first digit is in front.
#[tactic(auto, unfolding(crate::specs::Pieces::number_piece))]
fn number(rest: &[u8]) -> Piece
    requires { 0 < length rest.now }
    ensures value { result ≡ number_piece rest.now }
    ensures within { result.size ≤ length rest.now }
{
    let size = number_size(rest);
    if is_int(&rest[..size]) {
        sized(PieceKind::Token(TokenKind::Int), size)
    } else {
        refused(Rule::L4)
    }
}

/// The name or keyword whose first letter is in front.
#[tactic(auto, unfolding(crate::specs::Pieces::word_piece))]
fn word(rest: &[u8]) -> Piece
    requires { 0 < length rest.now }
    ensures value { result ≡ word_piece rest.now }
    ensures within { result.size ≤ length rest.now }
{
    let size = name_size(rest);
    if size > LONGEST_NAME {
        return refused(Rule::L5);
    }
    let name = &rest[..size];
    if is_before_quote(&rest[size..]) && is_prefix(name) {
        return refused(Rule::L4);
    }
    if is_keyword(name) {
        sized(PieceKind::Token(TokenKind::Keyword), size)
    } else {
        sized(PieceKind::Token(TokenKind::Name), size)
    }
}

/// The line end or the sign in front.
#[tactic(auto, unfolding(crate::specs::Pieces::mark_piece))]
fn mark(rest: &[u8]) -> Piece
    requires { 0 < length rest.now }
    ensures value { result ≡ mark_piece rest.now }
    ensures within { result.size ≤ length rest.now }
{
    let size = line_end_size(rest);
    if size > 0 {
        return sized(PieceKind::LineEnd, size);
    }
    let size = sign_size(rest);
    if size > 0 {
        return sized(PieceKind::Token(TokenKind::Sign), size);
    }
    refused(Rule::L3)
}
