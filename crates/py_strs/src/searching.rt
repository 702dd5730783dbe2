ghost use Rattle.std.specs.Prelude.{◌≡◌, ◌↔◌, length, IsTrue};
ghost use Rattle.std.specs.Str.{chars};
ghost use Rattle.py_strs.specs.Searching.{BeginsWith, EndsIn, IsLeastPlace, character_at, character_behind};

use memchr::memmem;

/// How many characters the text has.
pub fn text_len(s: &str) -> u64
    ensures { result ≡ length (chars s.now) }
{
    s.chars().count() as u64
}

/// Whether the text begins with `part`.
pub fn starts_with(s: &str, part: &str) -> bool
    ensures { IsTrue result ↔ BeginsWith (chars s.now) (chars part.now) }
{
    s.starts_with(part)
}

/// Whether the text ends with `part`.
pub fn ends_with(s: &str, part: &str) -> bool
    ensures { IsTrue result ↔ EndsIn (chars s.now) (chars part.now) }
{
    s.ends_with(part)
}

/// The least position, in characters, at which `part` occurs. The empty text occurs at 0.
pub fn find_text(s: &str, part: &str) -> Option<u64>
    ensures { IsLeastPlace (chars s.now) (chars part.now) result }
{
    let at = memmem::find(s.as_bytes(), part.as_bytes())?;
    Some(text_len(&s[..at]))
}

/// The character at a position: 0 is the first, and -1 the last. None where there is no such position.
pub fn text_at(s: &str, i: i128) -> Option<char>
    ensures { result ≡ character_at (chars s.now) i }
{
    if i < 0 {
        return character_behind(s, i + i128::from(text_len(s)));
    }
    character_behind(s, i)
}

/// The character behind the first `place` characters.
fn character_behind(s: &str, place: i128) -> Option<char>
    ensures { result ≡ character_behind (chars s.now) place }
{
    if place >= str::len(s) as i128 {
        return None;
    }
    s.chars().nth(usize::try_from(place).ok()?)
}
