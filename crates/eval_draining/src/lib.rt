//! The steps of a machine while a collection is gone over: `__iter__` is asked, then `__next__` until StopIteration, and
//! something is made of all items.
#![tactic(auto)]

mod extending;
mod finishing;
mod going_over;
mod limits;
mod reversing;

pub use extending::extend;
pub use finishing::join_items;
pub use going_over::give_drain;
