//! Whole numbers of 128 bits: their arithmetic, which ends by name and never wraps, and their decimal texts, read and
//! written.
#![tactic(auto)]

mod arithmetic;
mod arithmetic_laws;
mod laws;
mod reading;
mod writing;

pub use arithmetic::{IntEnd, int_binary, int_compare, int_unary};
pub use arithmetic_laws::{
    bits_are_taken_in_pairs, bits_are_turned, division_has_one_answer,
    division_leaves_the_remainder, powers_are_products,
};
pub use laws::{
    int_texts_are_few, int_texts_are_read_back, int_texts_are_shortest, shortest_texts_are_written,
};
pub use reading::{IntText, read_int};
pub use rp_base::{BinaryOp as IntOp, UnaryOp as IntUnary};
pub use writing::write_int;
