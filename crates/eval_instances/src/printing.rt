ghost use Rattle.std.specs.Prelude.{IfOk};
ghost use Rattle.eval_frames.specs.Meaning.{IsLight};
ghost use Rattle.language_rules.specs.Printing.{instance_repr, instance_str};
ghost use Rattle.eval_instances.specs.Methods.{Within};

use crate::calling::{After, call};
use crate::methods::class_method;
use eval_frames::{Frame, MethodFrame, Next};
use py_store::Store;
use rp_base::{Beyond, NoMemory};
use std::alloc::Global;

/// `repr` of an instance: by `__repr__`; without it the text would show an address.
pub fn repr_of_instance(
    alloc: Global,
    stack: &mut Vec<Frame>,
    store: &Store,
    number: u32,
) -> Result<Next, NoMemory>
    ensures means { IfOk result (Within store.now.cells stack.new.items (instance_repr number) stack.old.items) }
    ensures light { IfOk result (λ next. IsLight stack.new.items next stack.old.items) }
{
    match class_method(store, number, "__repr__") {
        Some(callee) => call(
            alloc,
            stack,
            number,
            callee,
            &[],
            After::Method(MethodFrame::Text),
        ),
        None => Ok(Next::Leave(Beyond::Address)),
    }
}

/// `str` of an instance: by `__str__`, or else by `__repr__`.
pub fn str_of_instance(
    alloc: Global,
    stack: &mut Vec<Frame>,
    store: &Store,
    number: u32,
) -> Result<Next, NoMemory>
    ensures means { IfOk result (Within store.now.cells stack.new.items (instance_str number) stack.old.items) }
    ensures light { IfOk result (λ next. IsLight stack.new.items next stack.old.items) }
{
    match class_method(store, number, "__str__") {
        Some(callee) => call(
            alloc,
            stack,
            number,
            callee,
            &[],
            After::Method(MethodFrame::Text),
        ),
        None => repr_of_instance(alloc, stack, store, number),
    }
}
