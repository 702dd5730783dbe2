ghost use Rattle.std.specs.Prelude.{◌≡◌};
ghost use Rattle.std.specs.Str.{chars};
ghost use Rattle.py_strs.specs.Spaces.{is_space, IsStripped};

/// The text without the white space at both ends.
pub fn strip_text(s: &str) -> &str
    ensures { IsStripped (chars s.now) (chars result.now) }
{
    s.trim_start_matches(is_space).trim_end_matches(is_space)
}

/// Whether Python calls the character white space.
pub(crate) fn is_space(c: char) -> bool
    ensures { result ≡ is_space c }
{
    matches!(
        c,
        '\u{9}'..='\u{d}'
            | '\u{1c}'..='\u{20}'
            | '\u{85}'
            | '\u{a0}'
            | '\u{1680}'
            | '\u{2000}'..='\u{200a}'
            | '\u{2028}'..='\u{2029}'
            | '\u{202f}'
            | '\u{205f}'
            | '\u{3000}'
    )
}
