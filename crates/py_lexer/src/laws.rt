ghost use Rattle.std.specs.Prelude.{◌≡◌, ◌≤◌, ◌<◌, List, ℕ, IsTrue, Ok, Err, length, take};
ghost use Rattle.rp_base.specs.declared.rules.Refused.{Refused};
ghost use Rattle.py_lexer.specs.declared.token.Token.{Token};
ghost use Rattle.py_lexer.specs.Lines.{IsOnLine, count, is_dedent, is_indent};
ghost use Rattle.py_lexer.specs.Reading.{tokens_of};
ghost use Rattle.py_lexer.specs.Refusals.{IsRefusedAt};
ghost use Rattle.py_lexer.specs.Slices.{Each, Filled, IsSpelled};
ghost use Rattle.py_lexer.specs.Spellings.{begins, is_one_of, signs, sign_size};

/// No sign that stands in front is longer than the one that is read.
pub fn the_longest_sign_is_read()
    ensures { (text sign : List ℕ) → IsTrue (is_one_of signs sign) → IsTrue (begins text sign) → length sign ≤ sign_size text }
{}

/// The sign that is read is one of the signs.
pub fn what_is_read_is_a_sign()
    ensures { (text : List ℕ) → 0 < sign_size text → IsTrue (is_one_of signs (take (sign_size text) text)) }
{}

/// The bytes of each token are spelled as its kind says.
pub fn tokens_are_spelled()
    ensures { (text : List ℕ) (ts : List Token) → tokens_of text ≡ Ok ts → Each (IsSpelled text) ts }
{}

/// As many indentations end as begin, and none ends before it began.
pub fn indentations_match()
    ensures whole { (text : List ℕ) (ts : List Token) → tokens_of text ≡ Ok ts → count is_dedent ts ≡ count is_indent ts }
    ensures fronts { (text : List ℕ) (ts : List Token) → tokens_of text ≡ Ok ts → (n : ℕ) → count is_dedent (take n ts) ≤ count is_indent (take n ts) }
{}

/// Each token has the line of the byte where it begins, or of the last byte, where the text ends before it.
pub fn tokens_have_their_lines()
    ensures { (text : List ℕ) (ts : List Token) → tokens_of text ≡ Ok ts → Each (IsOnLine text) ts }
{}

/// Nothing but spaces, tabs, comments and line ends stands before, between and behind the tokens.
pub fn blanks_stand_between_tokens()
    ensures { (text : List ℕ) (ts : List Token) → tokens_of text ≡ Ok ts → Filled text 0 ts (length text) }
{}

/// A text is refused at a place in it, on the line of that place, and what stands there is the cause: a character that
/// begins nothing (L3), the begin of a number or a string (L4), or a name that is too long (L5).
pub fn refusals_have_their_places()
    ensures { (text : List ℕ) (r : Refused) → tokens_of text ≡ Err r → (at : ℕ) × IsRefusedAt text r at }
{}
