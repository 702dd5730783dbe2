ghost use Rattle.std.specs.Prelude.{◌≡◌};
ghost use Rattle.rp_base.specs.Names.{rule_name};

/// Why a script is refused: the rules on characters and tokens (L), on the grammar (P), and on names and places (S).
#[derive(Clone, Copy, Debug, PartialEq, Eq)]
pub enum Rule {
    /// A tab in the indentation.
    L1,
    /// An indentation that matches no open one.
    L2,
    /// A character that begins no token.
    L3,
    /// Any other form of a number or a string, an int past 2^127 - 1, or a surrogate.
    L4,
    /// A script or a name that is too long.
    L5,
    /// The script is not UTF-8.
    L6,
    /// A token that fits nowhere.
    P1,
    /// A token that fits nowhere, and belongs to a form of Python that is left out.
    P2,
    /// Expressions or suites that nest too deep.
    P3,
    /// Too many parameters or arguments.
    P4,
    /// The name of a builtin is bound, or a name of Python that is left out occurs.
    S1,
    /// The name of a builtin or of an exception class stands where none may stand.
    S2,
    /// A builtin is called with a number of arguments that it does not take.
    S3,
    /// A name begins with two underscores, and is no special method of a class.
    S4,
    /// The right side of `is` is not None.
    S5,
    /// The name of a caught exception stands where it may not stand.
    S6,
    /// A `raise` of StopIteration with arguments, a bare `raise` outside a handler, or a bare `except` that is not
    /// the last.
    S7,
    /// A class stands elsewhere than at the top of the script, or its base may not be one.
    S8,
    /// A class body holds something else than methods, plain bindings, a text and `pass`, or reads a name that it binds.
    S9,
    /// A `return` outside a function or in a `finally`, or a `break` or `continue` outside a loop.
    S10,
    /// A `global` or `nonlocal` that may not stand there.
    S11,
    /// A function has two parameters of one name.
    S12,
    /// The script is in the language, and has a form that is not built yet.
    NotYet,
}

impl Rule {
    /// The rule's printed code.
    pub fn text(&self) -> &str
        ensures { result.now ≡ rule_name self.now }
    {
        match self {
            Rule::L1 => "L1",
            Rule::L2 => "L2",
            Rule::L3 => "L3",
            Rule::L4 => "L4",
            Rule::L5 => "L5",
            Rule::L6 => "L6",
            Rule::P1 => "P1",
            Rule::P2 => "P2",
            Rule::P3 => "P3",
            Rule::P4 => "P4",
            Rule::S1 => "S1",
            Rule::S2 => "S2",
            Rule::S3 => "S3",
            Rule::S4 => "S4",
            Rule::S5 => "S5",
            Rule::S6 => "S6",
            Rule::S7 => "S7",
            Rule::S8 => "S8",
            Rule::S9 => "S9",
            Rule::S10 => "S10",
            Rule::S11 => "S11",
            Rule::S12 => "S12",
            Rule::NotYet => "NotYet",
        }
    }
}

/// A script is refused: the line, counted from 1, and the rule.
#[derive(Clone, Copy, Debug, PartialEq, Eq)]
pub struct Refused {
    pub line: u32,
    pub rule: Rule,
}
