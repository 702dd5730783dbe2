//! The steps of a machine at what stands on the left: assignments, augmented assignments and `del`.
#![tactic(auto)]

mod assigning;
mod augmenting;
mod deleting;
mod exceptions;
mod giving;
mod kinds;
mod operands;
mod places;
mod settled;
mod storing;
mod unpacking;

pub use assigning::{assign, assign_each, bind_value, settle};
pub use augmenting::{begin_augmented, bind_augmented};
pub use deleting::begin_delete;
pub use giving::give_target;
pub use settled::{Assigning, Waiting, ask_items, enter_receiver, enter_receiver_of_each};
