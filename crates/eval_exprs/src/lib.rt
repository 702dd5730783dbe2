//! The steps of a machine at expressions: how each begins, and how it goes on with the value of a part.
#![tactic(auto)]

mod begin;
mod builtins;
mod calls;
mod chains;
mod decide;
mod gather;
mod give;
mod handler_names;
mod kinds;
mod links;
mod making;
mod operating;
mod raising;
mod testing;

pub use begin::begin_expression;
pub use builtins::{is_gone_over, refuse_kind};
pub use calls::gather_arguments;
pub use chains::{begin_and, begin_or};
pub use decide::{decide_and, decide_bool, decide_conditional, decide_link, decide_not, decide_or};
pub use gather::gather_further;
pub use give::give_expression;
pub use making::{sorted_list, values_of};
pub use operating::give_operation;
pub use testing::{ask_truth, told_truth};
