//! Brine, RPyC's binary form of plain values (after its module `brine`; the tags are this product's own).
#![tactic(auto)]

mod decoding;
mod encoding;
mod ends;
mod int_text;
mod laws;
mod tag;

pub use decoding::decode;
pub use encoding::encode;
pub use ends::{BrineFault, BrineKind, DecodeEnd};
pub use laws::{
    bytes_behind_are_refused, cuts_stand_at_the_end, faults_are_told_by_what_stands_there,
    faults_stand_at_the_first_place, faults_stay_first, fronts_of_spellings_are_cut, one_spelling,
    only_spellings_are_read, spellings_are_read, spellings_are_short,
    values_stand_before_trailing_bytes,
};
