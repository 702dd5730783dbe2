//! What every crate of the product speaks of: plain values, values with references, identities, handlers, rules,
//! exception kinds, and the limits on values.
#![tactic(auto)]

mod ends;
mod exceptions;
mod handlers;
mod identity;
mod laws;
mod operators;
mod plain;
mod rules;
mod text;
mod value;

pub use ends::{Failed, NoMemory, OpEnd, Side, TupleEnd};
pub use exceptions::{Beyond, ExcKind, Raised};
pub use handlers::Handler;
pub use identity::{IdPack, Kind, kind_of};
pub use laws::equality_is_an_equivalence;
pub use operators::{BinaryOp, CmpOp, UnaryOp};
pub use plain::{Plain, equal};
pub use rules::{Refused, Rule};
pub use text::{Blob, Text};
pub use value::{DEEPEST_TUPLE, HEAVIEST_VALUE, Value, depth, make_tuple, to_plain, weight};
