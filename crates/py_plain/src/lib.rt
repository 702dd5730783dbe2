//! Python's operations on plain values: operators, comparison, truth, `repr` and `str`.
#![tactic(auto)]

mod binary;
mod copies;
mod ends;
mod laws;
mod order;
mod repr;
mod truth;
mod unary;

pub use binary::plain_binary;
pub use ends::PlainEnd;
pub use laws::{
    order_agrees_with_equality, results_keep_the_limits, texts_stand_as_their_code_points,
    tuples_stand_as_their_first_unequal_pair, values_print_as_their_kinds,
};
pub use order::plain_compare;
pub use repr::{plain_repr, plain_str};
pub use truth::plain_truth;
pub use unary::plain_unary;
