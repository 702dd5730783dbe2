ghost use Rattle.std.specs.Prelude.{◌≡◌};

use crate::exceptions::{Beyond, Raised};
use std::alloc::{AllocError, AllocFailed};

/// The two sides of a pair: A runs the script that asks, B the one that is served.
#[derive(Clone, Copy, Debug, PartialEq, Eq)]
pub enum Side {
    A,
    B,
}

/// There was no memory for an allocation. Any call that allocates may end so.
#[derive(Clone, Copy, Debug, PartialEq, Eq)]
pub struct NoMemory;

impl From<AllocError> for NoMemory {
    fn from(_error: AllocError) -> NoMemory {
        NoMemory
    }
}

impl<T: Drop> From<AllocFailed<T>> for NoMemory {
    fn from(_error: AllocFailed<T>) -> NoMemory {
        NoMemory
    }
}

/// A device failed, and its count of faults rose.
#[derive(Clone, Copy, Debug, PartialEq, Eq)]
pub struct Failed;

/// Why a tuple was not made.
#[derive(Clone, Copy, Debug, PartialEq, Eq)]
pub enum TupleEnd {
    Beyond(Beyond),
    NoMemory,
}

impl From<NoMemory> for TupleEnd {
    ghost use Rattle.rp_base.specs.declared.ends.TupleEnd.TheVariants as tuple_end;

    ghost from_gives = { λ _ e. e ≡ tuple_end.NoMemory };

    fn from(_error: NoMemory) -> TupleEnd {
        TupleEnd::NoMemory
    }
}

/// Why an operation on a cell has no value.
#[derive(Drop)]
pub enum OpEnd {
    Raise(Raised),
    Beyond(Beyond),
    NoMemory,
}

impl From<NoMemory> for OpEnd {
    ghost use Rattle.rp_base.specs.declared.ends.OpEnd.TheVariants as op_end;

    ghost from_gives = { λ _ e. e ≡ op_end.NoMemory };

    fn from(_error: NoMemory) -> OpEnd {
        OpEnd::NoMemory
    }
}
