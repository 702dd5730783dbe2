//! The rule book of the language: what each piece of code does at its side, clause by clause, in `specs/`.
#![tactic(auto)]

mod alone_laws;
mod laws;
mod running_laws;
mod text_laws;

pub use alone_laws::a_script_alone_is_one_side;
pub use laws::{
    answers_are_read, boxes_are_read, exceptions_are_read, heavy_arguments_end_the_run,
    one_heap_is_two_parts, one_interpreter_is_two_sides, requests_are_read, sides_grow,
    two_sides_come_to_rest, two_sides_end_as_one,
};
pub use running_laws::what_ends_at_once_goes_on;
pub use text_laws::{
    places_are_least, positions_are_places, texts_are_split, texts_are_stripped,
    texts_begin_and_end,
};
