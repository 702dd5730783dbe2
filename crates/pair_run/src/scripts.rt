ghost use Rattle.std.specs.Prelude.{◌≡◌, ◌==◌, ◌+◌, ◌<◌, ◌⊎◌, ℕ, ◌∷◌, length, List, IfOk, OnOk, All, IsSome, IfNone, position, Some, Err};
ghost use Rattle.pair_run.specs.declared.scripts.Binding.{Binding};
ghost use Rattle.pair_run.specs.Scripts.{AsksFor, Binds, IsFirstOtherQuestion, IsFirstOtherBinding, lines_of, number_of, Agrees, IsFirstUnbound, number_text, quoted_letter, read_letter, read_binding};

use py_ints::read_int;
use rp_base::NoMemory;
use std::alloc::{AllocFailed, Global};

/// A line of B: a lower-case letter, and the number that it is bound to, from 0 to 2^127 - 1.
#[derive(Clone, Copy)]
pub struct Binding {
    pub letter: u8,
    pub number: i128,
}

/// Why a script is not taken: its first line that has a form that is not built yet, counted from 1.
#[derive(Clone, Copy, Debug, PartialEq, Eq)]
pub enum ScriptEnd {
    NotYet(usize),
    NoMemory,
}

impl<T: Drop> From<AllocFailed<T>> for ScriptEnd {
    ghost use Rattle.pair_run.specs.declared.scripts.ScriptEnd.TheVariants as script_end;

    ghost from_gives = { λ _ e. e ≡ script_end.NoMemory };

    fn from(_error: AllocFailed<T>) -> ScriptEnd {
        ScriptEnd::NoMemory
    }
}

impl From<NoMemory> for ScriptEnd {
    ghost use Rattle.pair_run.specs.declared.scripts.ScriptEnd.TheVariants as script_end;

    ghost from_gives = { λ _ e. e ≡ script_end.NoMemory };

    fn from(_error: NoMemory) -> ScriptEnd {
        ScriptEnd::NoMemory
    }
}

/// The letters that A's script asks for, in order. Time is linear in the text.
pub fn questions(alloc: Global, text: &[u8]) -> Result<Vec<u8>, ScriptEnd>
    ensures read { IfOk result (λ letters. AsksFor text.now letters.items) }
    ensures refused { (line : ℕ) → result ≡ Err (ScriptEnd.NotYet line) → IsFirstOtherQuestion text.now line }
{
    let mut letters = Vec::new(alloc);
    let mut rest = text;
    'lines: while !rest.is_empty() {
        let (line, others) = split_line(rest);
        let Some(letter) = letter_of(line) else {
            return Err(ScriptEnd::NotYet(letters.len() + 1));
        };
        letters.push(letter)?;
        rest = others;
    }
    Ok(letters)
}

/// What B's script binds, in order. Time is linear in the text.
pub fn bindings(alloc: Global, text: &[u8]) -> Result<Vec<Binding>, ScriptEnd>
    ensures read { IfOk result (λ bindings. Binds text.now bindings.items) }
    ensures refused { (line : ℕ) → result ≡ Err (ScriptEnd.NotYet line) → IsFirstOtherBinding text.now line }
{
    let mut bindings = Vec::new(alloc);
    let mut rest = text;
    'lines: while !rest.is_empty() {
        let (line, others) = split_line(rest);
        let Some(binding) = binding_of(line) else {
            return Err(ScriptEnd::NotYet(bindings.len() + 1));
        };
        bindings.push(binding)?;
        rest = others;
    }
    Ok(bindings)
}

/// The number that the last line of B with this letter gives.
pub fn number_of(bindings: &[Binding], letter: u8) -> Option<i128>
    ensures { result ≡ number_of bindings.now letter }
{
    bindings
        .iter()
        .rev()
        .find(|binding| binding.letter == letter)
        .map(|binding| binding.number)
}

/// The last binding of each letter, so at most 26. Time is linear in the bindings.
pub fn latest(alloc: Global, bindings: &[Binding]) -> Result<Vec<Binding>, NoMemory>
    ensures { IfOk result (λ namespace. Agrees namespace.items bindings.now) }
{
    let mut namespace = Vec::new(alloc);
    for i in 0..bindings.len() {
        keep(&mut namespace, bindings[bindings.len() - 1 - i])?;
    }
    Ok(namespace)
}

/// Adds an earlier binding, unless its letter is bound later.
fn keep(namespace: &mut Vec<Binding>, earlier: Binding) -> Result<(), NoMemory>
    ensures { (later : List Binding) → Agrees namespace.old.items later → OnOk result (Agrees namespace.new.items (earlier ∷ later)) }
{
    if number_of(namespace, earlier.letter).is_some() {
        return Ok(());
    }
    namespace.push(earlier)?;
    Ok(())
}

/// The line of the first letter that no line of B binds, counted from 1.
pub fn first_unbound(bindings: &[Binding], letters: &[u8]) -> Option<usize>
    ensures found { (line : ℕ) → result ≡ Some line → IsFirstUnbound bindings.now letters.now line }
    ensures none { IfNone result (All (λ c. IsSome (number_of bindings.now c)) letters.now) }
{
    for (index, letter) in letters.iter().enumerate() {
        if number_of(bindings, *letter).is_none() {
            return Some(index + 1);
        }
    }
    None
}

/// The first line of a text without its line feed, and the text after it.
fn split_line(text: &[u8]) -> (&[u8], &[u8])
    requires { 0 < length text.now }
    ensures lines { lines_of text.now ≡ result.0.now ∷ lines_of result.1.now }
    ensures shorter { length result.1.now < length text.now }
{
    match line_end(text) {
        Some(end) => (&text[..end], &text[end + 1..]),
        None => (text, &text[text.len()..]),
    }
}

fn line_end(text: &[u8]) -> Option<usize>
    ensures { result ≡ position (λ c. c == 10) text.now }
{
    text.iter().position(|byte| *byte == b'\n')
}

/// The letter that a line of A asks for.
fn letter_of(line: &[u8]) -> Option<u8>
    ensures { result ≡ read_letter line.now }
{
    quoted_letter(line.strip_prefix(b"print(conn.namespace[\"".as_slice())?)
}

fn quoted_letter(quoted: &[u8]) -> Option<u8>
    ensures { result ≡ quoted_letter quoted.now }
{
    match quoted {
        [letter @ b'a'..=b'z', b'"', b']', b')'] => Some(*letter),
        _ => None,
    }
}

/// What a line of B binds.
fn binding_of(line: &[u8]) -> Option<Binding>
    ensures { result ≡ read_binding line.now }
{
    match line {
        [letter @ b'a'..=b'z', b' ', b'=', b' ', digits @ ..] => {
            let number = number_in(digits)?;
            Some(Binding {
                letter: *letter,
                number,
            })
        }
        _ => None,
    }
}

/// A number without a leading zero.
fn number_in(digits: &[u8]) -> Option<i128>
    ensures { result ≡ number_text digits.now }
{
    match digits {
        [b'0'] => Some(0),
        [b'1'..=b'9', ..] => read_int(digits).ok(),
        _ => None,
    }
}
