ghost use Rattle.std.specs.Prelude.{◌≡◌};

use std::alloc::AllocError;

/// Why a text function gave no text.
#[derive(Clone, Copy, Debug, PartialEq, Eq)]
pub enum StrEnd {
    /// The separator to split by is empty.
    EmptySep,
    /// The text would be larger than it may be.
    Size,
    /// There was no memory.
    NoMemory,
}

impl From<AllocError> for StrEnd {
    ghost use Rattle.py_strs.specs.declared.ends.StrEnd.TheVariants as end;

    ghost from_gives = { λ _ e. e ≡ end.NoMemory };

    fn from(_error: AllocError) -> StrEnd {
        StrEnd::NoMemory
    }
}
