ghost use Rattle.std.specs.Prelude.{IfOk, length};
ghost use Rattle.py_lexer.specs.Order.{InOrder};
ghost use Rattle.py_lexer.specs.Reading.{Answers, tokens_of};

use crate::piece::piece_at;
use crate::reader::Reader;
use crate::token::{LexEnd, Token};
use std::alloc::Global;

/// The tokens of a script's text, or the first rule that it breaks. A text has at most 1,048,576 bytes. Time is linear
/// in the text. Their slices stand in order, and none over another.
pub fn tokens(alloc: Global, text: &str) -> Result<Vec<Token>, LexEnd>
    ensures read { Answers (λ found. found.items) result (tokens_of text.now) }
    ensures ordered { IfOk result (λ found. InOrder 0 found.items (length text.now)) }
{
    let bytes = text.as_bytes();
    let mut reader = Reader::new(alloc);
    'pieces: while (reader.at as usize) < bytes.len() {
        let piece = piece_at(&bytes[reader.at as usize..]);
        reader.take(piece)?;
    }
    reader.finish()?;
    Ok(reader.tokens)
}
