ghost use Rattle.std.specs.Prelude.{◌≡◌, List, ℕ};
ghost use Rattle.py_strs.specs.Joining.{joined};
ghost use Rattle.py_strs.specs.Splitting.{IsSplit};

/// The pieces of a text, joined by the separator, are the text.
pub fn pieces_join_to_the_text()
    ensures { (sep text : List ℕ) (pieces : List (List ℕ)) → IsSplit sep text pieces → joined sep pieces ≡ text }
{}

/// A text has one list of pieces between separators.
pub fn pieces_are_unique()
    ensures { (sep text : List ℕ) (ps qs : List (List ℕ)) → IsSplit sep text ps → IsSplit sep text qs → ps ≡ qs }
{}
