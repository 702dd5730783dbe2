ghost use Rattle.std.specs.Prelude.{◌≡◌, ℕ, Bool, true, false, List, Some, pos, Ok, ◌<◌, ◌^◌, IsTrue, encode_utf8_all};
ghost use Rattle.std.specs.Fmt.{decimal};
ghost use Rattle.std.specs.Str.{all_scalars};
ghost use Rattle.py_lexer.specs.declared.token.Token.{Token};
ghost use Rattle.py_lexer.specs.Items.{IsLiteral};
ghost use Rattle.py_lexer.specs.Reading.{tokens_of};
ghost use Rattle.py_lexer.specs.Slices.{Each};
ghost use Rattle.py_literals.specs.IntValues.{int_literal_value};
ghost use Rattle.py_literals.specs.Laws.{StandsFor, all_below, escaped_bytes, escaped_text};
ghost use Rattle.py_literals.specs.Tokens.{TokenHasValue};
ghost use Rattle.py_literals.specs.Values.{all_stand_for, bytes_literal_value, text_literal_value};

/// A literal stands for what its items stand for, one after another.
pub fn literals_have_values()
    ensures texts { (text : List ℕ) (l : IsLiteral false text) → text_literal_value text ≡ Some (all_stand_for false l.items) }
    ensures byte_strings { (text : List ℕ) (l : IsLiteral true text) → bytes_literal_value text ≡ Some (all_stand_for true l.items) }
{}

/// What has a value is a literal.
pub fn only_literals_have_values()
    ensures texts { (text value : List ℕ) → text_literal_value text ≡ Some value → StandsFor false text value }
    ensures byte_strings { (text value : List ℕ) → bytes_literal_value text ≡ Some value → StandsFor true text value }
{}

/// A literal is made of its items in one way.
pub fn literals_have_one_reading()
    ensures quotes { (is_bytes : Bool) (text : List ℕ) (l m : IsLiteral is_bytes text) → l.quote ≡ m.quote }
    ensures items { (is_bytes : Bool) (text : List ℕ) (l m : IsLiteral is_bytes text) → l.items ≡ m.items }
{}

/// Each byte string is read back from its escapes with two digits, and each text of characters below 2^16 from its escapes
/// with four.
pub fn escapes_are_read_back()
    ensures byte_strings { (bytes : List ℕ) → IsTrue (all_below 256 bytes) → bytes_literal_value (escaped_bytes bytes) ≡ Some bytes }
    ensures texts { (characters : List ℕ) → IsTrue (all_below 65536 characters) → IsTrue (all_scalars characters) → text_literal_value (escaped_text characters) ≡ Some (encode_utf8_all characters) }
{}

/// Each number below 2^127 is read back from its decimal text.
pub fn decimal_ints_are_read_back()
    ensures { (n : ℕ) → n < 2 ^ 127 → int_literal_value (decimal n) ≡ Some (pos n) }
{}

/// Each token of a text that is an int, a text or a byte string has a value.
pub fn literal_tokens_have_values()
    ensures { (text : List ℕ) (ts : List Token) → tokens_of text ≡ Ok ts → Each (TokenHasValue text) ts }
{}
