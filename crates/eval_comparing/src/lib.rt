//! Comparison of two values, of which an object may be asked (Python Language Reference, "Comparisons").
#![tactic(auto)]

mod answer;
mod asking;
mod comparing;
mod deciding;
mod found;
mod levels;
mod meeting;

pub use answer::{Answer, Compared, Question};
pub use asking::{ask_comparison, ask_over, give_comparison, same_object};
pub use comparing::link_values;
pub use deciding::{ask_question, ask_truth_of, ask_within, decide_levels, give_answer};
pub use found::{equal_values, find_in_item, search_items};
