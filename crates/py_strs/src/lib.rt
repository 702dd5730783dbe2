//! Functions on texts: their characters, searches, splitting, joining, replacing, and how a text or a byte string is
//! printed. A position counts characters, as in Python, and not bytes.
#![tactic(auto)]

mod ends;
mod joining;
mod laws;
mod quoting;
mod replacing;
mod searching;
mod splitting;
mod stripping;

pub use ends::StrEnd;
pub use joining::join_texts;
pub use laws::{pieces_are_unique, pieces_join_to_the_text};
pub use quoting::{repr_bytes, repr_text};
pub use replacing::replace_text;
pub use searching::{ends_with, find_text, starts_with, text_at, text_len};
pub use splitting::split_text;
pub use stripping::strip_text;
