ghost use Rattle.std.specs.Prelude.{◌≡◌};

use py_lexer::LexEnd;
use py_parser::ParseEnd;
use rp_base::{NoMemory, Refused};

/// Why a text is not accepted.
#[derive(Clone, Copy, Debug, PartialEq, Eq)]
pub enum AcceptEnd {
    /// The first rule that the text breaks, with its line.
    Refused(Refused),
    NoMemory,
}

impl From<NoMemory> for AcceptEnd {
    ghost use Rattle.py_scope.specs.declared.ending.AcceptEnd.TheVariants as accept_end;

    ghost from_gives = { λ _ e. e ≡ accept_end.NoMemory };

    fn from(_error: NoMemory) -> AcceptEnd {
        AcceptEnd::NoMemory
    }
}

impl From<LexEnd> for AcceptEnd {
    ghost use Rattle.py_scope.specs.Ends.{after_tokens};

    ghost from_gives = { λ l e. e ≡ after_tokens l };

    fn from(end: LexEnd) -> AcceptEnd {
        match end {
            LexEnd::Refused(refused) => AcceptEnd::Refused(refused),
            LexEnd::NoMemory => AcceptEnd::NoMemory,
        }
    }
}

impl From<ParseEnd> for AcceptEnd {
    ghost use Rattle.py_scope.specs.Ends.{after_parsing};

    ghost from_gives = { λ p e. e ≡ after_parsing p };

    fn from(end: ParseEnd) -> AcceptEnd {
        match end {
            ParseEnd::Refused(refused) => AcceptEnd::Refused(refused),
            ParseEnd::NoMemory => AcceptEnd::NoMemory,
        }
    }
}
