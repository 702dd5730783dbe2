//! The stack of a machine that runs scripts: what waits for the end of a piece of code, and what the whole stack will
//! give. The machine's steps stand in crates of their own.
#![tactic(auto)]

mod asking;
mod class_frame;
mod enter;
mod frame;
mod handler_frame;
mod laws;
mod list_frames;
mod loop_frames;
mod method_frame;
mod next;
mod nodes;
mod object_frames;
mod target_frame;

pub use asking::{are_too_heavy, fail, is_reference, operate, operate_over, special, special_with};
pub use class_frame::ClassFrame;
pub use enter::enter_over;
pub use frame::{
    Decision, ExpressionFrame, Frame, Gathering, StatementFrame, TestLevel, ValuePair,
};
pub use handler_frame::{HandlerFrame, HandlerReading};
pub use laws::{
    a_loop_tests_again, a_step_behind_another_waits, code_between_goes_on, code_that_goes_on_waits,
    what_waits_is_pushed,
};
pub use list_frames::{AdditionFrame, EqualityFrame, ListPair, SearchFrame, TextFrame, TupleLevel};
pub use loop_frames::{Collection, DrainFrame, Draining, ForFrame};
pub use method_frame::MethodFrame;
pub use next::{Next, answered, computed};
pub use nodes::{node_at, waiting_numbers};
pub use object_frames::{ComparisonFrame, OperationFrame, PrintingFrame};
pub use target_frame::{Destination, TargetFrame};
