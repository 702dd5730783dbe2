//! The cells of a side: the objects of a program, by number.
#![tactic(auto)]

mod cell;
mod entries;
mod key;
mod laws;
mod names;
mod store;
mod values;

pub use cell::{Binding, Cell, Method, Which};
pub use entries::Entries;
pub use key::Key;
pub use laws::{
    attributes_are_searched_in_order, equal_keys_keep_their_place, identities_name_their_cells,
    identities_tell_kinds, keys_stay_unequal, new_keys_go_last, one_entry_is_taken,
    what_is_put_is_found, what_is_taken_is_gone,
};
pub use names::{bind, bound, find_binding, unbind};
pub use store::{Place, Store, cell_number};
pub use values::Values;
