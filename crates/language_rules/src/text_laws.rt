ghost use Rattle.std.specs.Prelude.{◌≡◌, ◌↔◌, ◌<◌, ℕ, ℤ, List, length, slice_get, IsTrue, option_and_then};
ghost use Rattle.py_strs.specs.Searching.{BeginsWith, EndsIn, IsLeastPlace, character_at};
ghost use Rattle.py_strs.specs.Spaces.{IsStripped};
ghost use Rattle.py_strs.specs.Splitting.{IsSplit, IsWords};
ghost use Rattle.language_rules.specs.TextFunctions.{begins_with, ends_in, least_place, pieces, words, stripped, place_among};

/// `startswith` tells whether the text is the part with a rest behind it, and `endswith` whether one stands in front.
pub fn texts_begin_and_end()
    ensures begin { (text part : List ℕ) → IsTrue (begins_with text part) ↔ BeginsWith text part }
    ensures end { (text part : List ℕ) → IsTrue (ends_in text part) ↔ EndsIn text part }
{}

/// `find` gives the least place at which the part stands.
pub fn places_are_least()
    ensures { (text part : List ℕ) → IsLeastPlace text part (least_place text part) }
{}

/// `split` with a separator cuts the text at the separators from the left, and without one into its words.
pub fn texts_are_split()
    ensures separated { (sep text : List ℕ) → 0 < length sep → IsSplit sep text (pieces sep text) }
    ensures words { (text : List ℕ) → IsWords text (words text) }
{}

/// `strip` takes the white space off at both ends, and no more.
pub fn texts_are_stripped()
    ensures { (text : List ℕ) → IsStripped text (stripped text) }
{}

/// A position is a place from the front, and where it is negative one from the end.
pub fn positions_are_places()
    ensures { (text : List ℕ) (position : ℤ) → character_at text position ≡ option_and_then (slice_get text) (place_among (length text) position) }
{}
