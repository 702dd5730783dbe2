ghost use Rattle.py_grammar.specs.Laws.{ReadsExactly, RefusesExactly, StopsInside, TellsTheRule, HasOneTree, PiecesAgree};
ghost use Rattle.py_grammar.specs.Traces.{Event, Tests, tracing};
ghost use Rattle.std.specs.Prelude.{List};

/// A text is read to its end exactly where it has a derivation.
pub fn the_reading_is_exact()
    ensures { (tests : Tests) → ReadsExactly (List Event) (tracing tests) }
{}

/// Where the reading is stuck, the next token is the first that fits nowhere.
pub fn refusals_are_exact()
    ensures { (tests : Tests) → RefusesExactly (List Event) (tracing tests) }
{}

/// The end of the text is a token as well: a text that ends is read, or one of its tokens is refused.
pub fn a_text_is_read_or_refused()
    ensures { (tests : Tests) → StopsInside (List Event) (tracing tests) }
{}

/// Readings under other limits tell which rule a refused token breaks.
pub fn other_limits_tell_the_rule()
    ensures { (tests : Tests) → TellsTheRule (List Event) (tracing tests) }
{}

/// The grammar is unambiguous.
pub fn a_text_has_one_tree()
    ensures { (tests : Tests) → HasOneTree (List Event) (tracing tests) }
{}

/// The two ways to say what the table means agree.
pub fn pieces_are_the_same()
    ensures { (tests : Tests) → PiecesAgree (List Event) (tracing tests) }
{}
