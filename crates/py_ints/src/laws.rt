ghost use Rattle.std.specs.Prelude.{◌≡◌, ◌≤◌, ◌<◌, ℤ, List, ℕ, Some, IsTrue, true, length};
ghost use Rattle.std.specs.Fmt.{signed_decimal};
ghost use Rattle.std.specs.Str.{IsAscii};
ghost use Rattle.py_ints.specs.IntTexts.{int_value, is_shortest, fits};

/// The text of an int spells it.
pub fn int_texts_are_read_back()
    ensures { (z : ℤ) → IsTrue (fits z) → int_value (signed_decimal z) ≡ Some z }
{}

/// The text of an int has no `+` and no zero that is not needed.
pub fn int_texts_are_shortest()
    ensures { (z : ℤ) → IsTrue (fits z) → is_shortest (signed_decimal z) ≡ true }
{}

/// A text with no `+` and no zero that is not needed is what its int is written as: an int has one such text.
pub fn shortest_texts_are_written()
    ensures { (t : List ℕ) (z : ℤ) → IsTrue (is_shortest t) → IsTrue (fits z) → int_value t ≡ Some z → t ≡ signed_decimal z }
{}

/// The text of an int has 1 to 40 bytes, all of them ASCII.
pub fn int_texts_are_few()
    ensures { (z : ℤ) → IsTrue (fits z) → (0 < length (signed_decimal z)) × (length (signed_decimal z) ≤ 40) × IsAscii (signed_decimal z) }
{}
