ghost use Rattle.std.specs.Prelude.{◌≡◌, ◌+◌, ◌<◌, ◌≤◌, ◌++◌, ◌↔◌, List, ℕ, true, length, map, IfOk, OnOk, IsErrOf, IsSomeAnd, MatchOption};
ghost use Rattle.std.specs.Str.{chars};
ghost use Rattle.py_strs.specs.declared.ends.StrEnd.TheVariants as end;
ghost use Rattle.py_strs.specs.Joining.{characters};
ghost use Rattle.py_strs.specs.Spaces.{all_spaces, no_spaces, begins_bare};
ghost use Rattle.py_strs.specs.Splitting.{IsSplit, IsWords, is_spaced};

use crate::ends::StrEnd;
use crate::stripping::is_space;
use memchr::memmem;
use std::alloc::{AllocError, Global};

/// The pieces between separators, cut from the left, or without a separator the runs of characters that are no white
/// space. `EmptySep` exactly for an empty separator.
pub fn split_text(alloc: Global, s: &str, sep: Option<&str>) -> Result<Vec<String>, StrEnd>
    ensures ok { IfOk result (λ v. MatchOption sep.entry (IsWords (chars s.now) (map characters v.items)) (λ x. IsSplit (chars x.now) (chars s.now) (map characters v.items))) }
    ensures empty { IsErrOf result end.EmptySep ↔ IsSomeAnd sep.entry (λ x. length x.now ≡ 0) }
    ensures no_size { ¬ (IsErrOf result end.Size) }
{
    let Some(sep) = sep else {
        return Ok(words(alloc, s)?);
    };
    if sep.is_empty() {
        return Err(StrEnd::EmptySep);
    }
    Ok(pieces(alloc, s, sep)?)
}

/// The pieces between separators.
pub(crate) fn pieces(alloc: Global, s: &str, sep: &str) -> Result<Vec<String>, AllocError>
    requires { 0 < length sep.now }
    ensures { IfOk result (λ v. IsSplit (chars sep.now) (chars s.now) (map characters v.items)) }
{
    let mut pieces = Vec::new(alloc);
    let mut rest = s;
    'cuts: while let Some(at) = memmem::find(rest.as_bytes(), sep.as_bytes()) {
        let (piece, tail) = rest.split_at(at);
        pieces.push(String::from_str(alloc, piece)?)?;
        rest = &tail[sep.len()..];
    }
    pieces.push(String::from_str(alloc, rest)?)?;
    Ok(pieces)
}

/// The runs of characters that are no white space.
fn words(alloc: Global, s: &str) -> Result<Vec<String>, AllocError>
    ensures { IfOk result (λ v. IsWords (chars s.now) (map characters v.items)) }
{
    let mut words = Vec::new(alloc);
    let mut rest = without_front(s);
    'words: while !rest.is_empty() {
        let (word, tail) = first_word(rest);
        words.push(String::from_str(alloc, word)?)?;
        rest = without_front(tail);
    }
    Ok(words)
}

/// The text without the white space in front.
fn without_front(s: &str) -> &str
    ensures cut { (gap : List ℕ) × (chars s.now ≡ gap ++ chars result.now) × (all_spaces gap ≡ true) }
    ensures bare { begins_bare (chars result.now) ≡ true }
    ensures bound { length result.now ≤ length s.now }
{
    s.trim_start_matches(is_space)
}

/// The characters before the first white space, and the rest. The text begins with one that is no white space.
fn first_word(s: &str) -> (&str, &str)
    requires some { 0 < length s.now }
    requires bare { begins_bare (chars s.now) ≡ true }
    ensures split { chars s.now ≡ chars result.0.now ++ chars result.1.now }
    ensures word { no_spaces (chars result.0.now) ≡ true }
    ensures rest { is_spaced (chars result.1.now) ≡ true }
    ensures some { 0 < length (chars result.0.now) }
    ensures falls { length result.1.now < length s.now }
{
    match s.find(is_space) {
        Some(at) => s.split_at(at),
        None => (s, ""),
    }
}
