ghost use Rattle.std.specs.Prelude.{◌≡◌, ◌≤◌, OnOk, IfOk, IfErr};
ghost use Rattle.py_lexer.specs.Layout.{Went, place_of, start, stop_of, tabbed, passed, with_token, emitted, ended, indented, closed, settled, taken, finished, is_open_line, last_line, refusal, token_at};

use crate::indents::Indents;
use crate::piece::{Piece, PieceKind};
use crate::token::{LexEnd, Token, TokenKind};
use rp_base::{Refused, Rule};
use std::alloc::Global;

/// A text has at most so many bytes: 1 MiB.
pub(crate) const LONGEST_TEXT: u32 = 1_048_576;

/// What stands before a place on its line.
#[derive(Clone, Copy, Debug, PartialEq, Eq)]
pub(crate) enum Margin {
    /// Spaces alone: the indentation is not judged yet.
    Blank,
    /// Spaces and a tab.
    Tabbed,
    /// A token, or it is inside brackets.
    Closed,
}

/// A place in a text, with what was read before it.
#[derive(Drop)]
pub(crate) struct Reader {
    pub(crate) tokens: Vec<Token>,
    pub(crate) indents: Indents,
    pub(crate) margin: Margin,
    pub(crate) at: u32,
    pub(crate) line: u32,
    pub(crate) line_start: u32,
    pub(crate) brackets: u32,
}

impl Reader {
    pub(crate) fn new(alloc: Global) -> Reader
        ensures { place_of result ≡ start }
    {
        Reader {
            tokens: Vec::new(alloc),
            indents: Indents::new(alloc),
            margin: Margin::Blank,
            at: 0,
            line: 1,
            line_start: 0,
            brackets: 0,
        }
    }

    /// Takes the piece at this place.
    #[tactic(auto, unfolding(crate::specs::Layout::taken))]
    pub(crate) fn take(&mut self, piece: Piece) -> Result<(), LexEnd>
        requires lines { self.old.line ≤ 1048577 }
        requires brackets { self.old.brackets ≤ 1048576 }
        ensures { Went result (place_of self.new) (taken piece (place_of self.old)) }
    {
        match piece.kind {
            PieceKind::Space | PieceKind::Comment => self.pass(piece.size),
            PieceKind::Tab => {
                self.pass(piece.size)?;
                self.margin = tabbed(self.margin);
                Ok(())
            }
            PieceKind::LineEnd => self.end_line(piece.size),
            PieceKind::Token(kind) => {
                self.settle()?;
                self.emit(kind, piece.size)
            }
            PieceKind::Opener => {
                self.settle()?;
                self.emit(TokenKind::Sign, piece.size)?;
                self.brackets += 1;
                Ok(())
            }
            PieceKind::Closer => {
                self.settle()?;
                self.emit(TokenKind::Sign, piece.size)?;
                self.brackets = self.brackets.saturating_sub(1);
                Ok(())
            }
            PieceKind::Refused(rule) => {
                self.settle()?;
                Err(self.refused(rule))
            }
        }
    }

    /// Adds the tokens of a text that ends here.
    #[tactic(auto, unfolding(crate::specs::Layout::finished))]
    pub(crate) fn finish(&mut self) -> Result<(), LexEnd>
        ensures ok { OnOk result (self.new.tokens.items ≡ finished (place_of self.old)) }
        ensures only_memory { IfErr result (λ e. e ≡ LexEnd.NoMemory) }
    {
        let line = self.last_line();
        if self.is_open_line() {
            self.add(TokenKind::Newline, self.at, line)?;
        }
        self.close_to(0, line)?;
        Ok(())
    }

    /// Goes on behind so many bytes, which end within the longest text.
    #[tactic(auto, unfolding(crate::specs::Layout::passed))]
    fn pass(&mut self, size: usize) -> Result<(), LexEnd>
        ensures went { Went result (place_of self.new) (passed size (place_of self.old)) }
        ensures same { self.new.brackets ≡ self.old.brackets }
        ensures lines { self.new.line ≡ self.old.line }
    {
        match stop_of(self.at, size) {
            Some(stop) => {
                self.at = stop;
                Ok(())
            }
            None => Err(self.refused(Rule::L5)),
        }
    }

    /// Goes on behind a token.
    #[tactic(auto, unfolding(crate::specs::Layout::emitted))]
    fn emit(&mut self, kind: TokenKind, size: usize) -> Result<(), LexEnd>
        ensures went { Went result (place_of self.new) (emitted kind size (place_of self.old)) }
        ensures same { self.new.brackets ≡ self.old.brackets }
    {
        let start = self.at;
        self.pass(size)?;
        self.add(kind, start, self.line)?;
        self.margin = Margin::Closed;
        Ok(())
    }

    /// Goes on behind a line end.
    #[tactic(auto, unfolding(crate::specs::Layout::ended))]
    fn end_line(&mut self, size: usize) -> Result<(), LexEnd>
        requires { self.old.line ≤ 1048577 }
        ensures { Went result (place_of self.new) (ended size (place_of self.old)) }
    {
        let start = self.at;
        self.pass(size)?;
        if self.is_open_line() {
            self.add(TokenKind::Newline, start, self.line)?;
        }
        if self.brackets == 0 {
            self.margin = Margin::Blank;
        }
        self.line += 1;
        self.line_start = self.at;
        Ok(())
    }

    /// Judges the indentation, where this is the first token of its line.
    #[tactic(auto, unfolding(crate::specs::Layout::settled))]
    fn settle(&mut self) -> Result<(), LexEnd>
        ensures went { Went result (place_of self.new) (settled (place_of self.old)) }
        ensures same { self.new.brackets ≡ self.old.brackets }
    {
        match self.margin {
            Margin::Blank => self.indent(self.at.saturating_sub(self.line_start)),
            Margin::Tabbed => Err(self.refused(Rule::L1)),
            Margin::Closed => Ok(()),
        }
    }

    /// Begins a line with this indentation.
    #[tactic(auto, unfolding(crate::specs::Layout::indented))]
    fn indent(&mut self, width: u32) -> Result<(), LexEnd>
        ensures went { Went result (place_of self.new) (indented width (place_of self.old)) }
        ensures same { self.new.brackets ≡ self.old.brackets }
    {
        if self.indents.top() < width {
            self.add(TokenKind::Indent, self.at, self.line)?;
            self.indents.push(width)?;
            return Ok(());
        }
        self.close_to(width, self.line)?;
        if self.indents.top() != width {
            return Err(self.refused(Rule::L2));
        }
        Ok(())
    }

    /// Closes the indentations that are deeper, each with its token on this line.
    fn close_to(&mut self, width: u32, line: u32) -> Result<(), LexEnd>
        ensures ok { OnOk result (place_of self.new ≡ closed width line (place_of self.old)) }
        ensures same { self.new.brackets ≡ self.old.brackets }
        ensures only_memory { IfErr result (λ e. e ≡ LexEnd.NoMemory) }
    {
        'suites: while self.indents.top() > width {
            self.indents.pop();
            self.add(TokenKind::Dedent, self.at, line)?;
        }
        Ok(())
    }

    /// Adds the token from start up to this place.
    fn add(&mut self, kind: TokenKind, start: u32, line: u32) -> Result<(), LexEnd>
        ensures ok { OnOk result (place_of self.new ≡ with_token (token_at kind start self.old.at line) (place_of self.old)) }
        ensures same { self.new.brackets ≡ self.old.brackets }
        ensures only_memory { IfErr result (λ e. e ≡ LexEnd.NoMemory) }
    {
        self.tokens.push(Token {
            kind,
            start,
            stop: self.at,
            line,
        })?;
        Ok(())
    }

    /// Whether a line of tokens ends here, if the text's line does.
    fn is_open_line(&self) -> bool
        ensures { result ≡ is_open_line (place_of self.now) }
    {
        self.brackets == 0 && self.margin == Margin::Closed
    }

    /// The last line that has a byte, of a text that ends here.
    fn last_line(&self) -> u32
        ensures { result ≡ last_line (place_of self.now) }
    {
        if self.at == self.line_start {
            self.line.saturating_sub(1)
        } else {
            self.line
        }
    }

    fn refused(&self, rule: Rule) -> LexEnd
        ensures { result ≡ LexEnd.Refused (refusal self.now.line rule) }
    {
        LexEnd::Refused(Refused {
            line: self.line,
            rule,
        })
    }
}

/// Where a piece ends that begins here, if it ends within the longest text.
fn stop_of(at: u32, size: usize) -> Option<u32>
    ensures { result ≡ stop_of at size }
{
    let size = u32::try_from(size).ok()?;
    let stop = at.checked_add(size)?;
    if stop > LONGEST_TEXT {
        return None;
    }
    Some(stop)
}

fn tabbed(margin: Margin) -> Margin
    ensures { result ≡ tabbed margin }
{
    match margin {
        Margin::Blank | Margin::Tabbed => Margin::Tabbed,
        Margin::Closed => Margin::Closed,
    }
}
