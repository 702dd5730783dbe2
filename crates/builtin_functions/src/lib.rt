//! The builtin functions of the language, where their arguments are at hand.
#![tactic(auto)]

mod best;
mod ends;
mod functions;
mod items;
mod numbers;
mod sums;
mod texts;
mod truth;

pub use best::best_of_items;
pub use functions::builtin;
pub use items::items_at_hand;
pub use sums::sum_of_items;
pub use texts::text_of;
