ghost use Rattle.std.specs.Prelude.{◌≡◌, ◌≤◌, ◌<◌, ◌-◌, take, length, get_or};
ghost use Rattle.std.specs.Str.{IsUtf8};
ghost use Rattle.py_grammar.specs.declared.symbol.Start.TheVariants as starts;
ghost use Rattle.py_lexer.specs.Reading.{tokens_of};
ghost use Rattle.py_parser.specs.Lexemes.{lexemes, line_ends};
ghost use Rattle.py_parser.specs.Parsing.{Parsed};
ghost use Rattle.py_scope.specs.Accepting.{behind_line_end, whole_lines, Unreadable, Judgement};
ghost use Rattle.py_scope.specs.Ends.{EndsIn};

use crate::ending::AcceptEnd;
use crate::judging::judge;
use py_ast::Program;
use py_grammar::Start;
use py_lexer::{Token, tokens};
use py_parser::{ParseEnd, parse, parse_expr};
use rp_base::{Refused, Rule};
use std::alloc::Global;

/// The tree of a script's text, with what its functions keep; or the first rule that it breaks: of the rules on tokens
/// and on the grammar the first by place, else of the static rules that of the least line, and then of the least number.
/// Time is n log n in the text, times the depth of its functions.
pub fn accept(alloc: Global, text: &[u8]) -> Result<Program, AcceptEnd>
    ensures { Judgement starts.Script text.now result }
{
    accept_from(alloc, Start::Script, text)
}

/// The same of a text that is one expression.
pub fn accept_expr(alloc: Global, text: &[u8]) -> Result<Program, AcceptEnd>
    ensures { Judgement starts.Expression text.now result }
{
    accept_from(alloc, Start::Expression, text)
}

fn accept_from(alloc: Global, start: Start, text: &[u8]) -> Result<Program, AcceptEnd>
    ensures { Judgement start text.now result }
{
    match str::from_utf8(text) {
        Ok(readable) => accept_text(alloc, start, readable),
        Err(error) => Err(unreadable(alloc, front(text, error.valid_up_to()))),
    }
}

/// The front of so many bytes, which are UTF-8.
fn front(text: &[u8], size: usize) -> &str
    requires within { size ≤ length text.now }
    requires utf8 { IsUtf8 (take size text.now) }
    ensures { result.now ≡ take size text.now }
{
    match str::from_utf8(&text[..size]) {
        Ok(front) => front,
        Err(_) => unreachable!(),
    }
}

/// Of a text that is UTF-8.
fn accept_text(alloc: Global, start: Start, text: &str) -> Result<Program, AcceptEnd>
    ensures { Judgement start text.now result }
{
    let tokens = tokens(alloc, text)?;
    let tree = parse_from(alloc, start, tokens.as_slice(), text)?;
    judge(alloc, tree)
}

fn parse_from(
    alloc: Global,
    start: Start,
    tokens: &[Token],
    text: &str,
) -> Result<Program, ParseEnd>
    requires { length text.now ≤ 1048576 }
    ensures { Parsed start (lexemes text.now tokens.now) result }
{
    match start {
        Start::Script => parse(alloc, tokens, text),
        Start::Expression => parse_expr(alloc, tokens, text),
    }
}

/// How many bytes the whole lines of a text take.
#[tactic(auto, unfolding(crate::specs::Accepting::behind_line_end))]
fn behind_line_end(text: &[u8]) -> usize
    ensures value { result ≡ behind_line_end 0 0 text.now }
    ensures within { result ≤ length text.now }
    ensures line_end { 0 < result → get_or text.now (result - 1) 0 ≡ 10 }
{
    let mut last = 0;
    for place in 0..text.len() {
        if text[place] == b'\n' {
            last = place + 1;
        }
    }
    last
}

/// How many lines end in a text of at most 1,048,576 bytes.
fn line_ends(text: &[u8]) -> u32
    requires { length text.now ≤ 1048576 }
    ensures value { result ≡ line_ends text.now }
    ensures within { result ≤ 1048576 }
{
    let mut count = 0u32;
    for byte in text {
        if *byte == b'\n' {
            count += 1;
        }
    }
    count
}

/// Why bytes are refused that are UTF-8 only as far as these: their whole lines are read first.
fn unreadable(alloc: Global, valid: &str) -> AcceptEnd
    ensures { EndsIn (Unreadable (whole_lines valid.now) (tokens_of (whole_lines valid.now))) result }
{
    let size = behind_line_end(valid.as_bytes());
    let lines = &valid[..size];
    match tokens(alloc, lines) {
        Ok(_) => AcceptEnd::Refused(Refused {
            line: line_ends(lines.as_bytes()) + 1,
            rule: Rule::L6,
        }),
        Err(end) => AcceptEnd::from(end),
    }
}
