ghost use Rattle.std.specs.Prelude.{◌≡◌, IfOk};
ghost use Rattle.eval_frames.specs.Meaning.{IsLight};
ghost use Rattle.language_rules.specs.CellComparing.{instance_compare, method_gave, method_of};
ghost use Rattle.eval_instances.specs.Methods.{Within, goes_on};

use crate::calling::{After, call};
use crate::methods::class_method;
use eval_frames::{Frame, MethodFrame, Next};
use eval_ranges::give;
use py_store::Store;
use rp_base::{CmpOp, NoMemory, Plain, Value};
use std::alloc::Global;
use std::slice;

/// The comparison of an instance with another value, by the method of its class. Without one it knows no answer.
pub fn compare_instance(
    alloc: Global,
    stack: &mut Vec<Frame>,
    store: &Store,
    number: u32,
    op: CmpOp,
    other: &Value,
) -> Result<Next, NoMemory>
    ensures means { IfOk result (Within store.now.cells stack.new.items (instance_compare number op other.now) stack.old.items) }
    ensures light { IfOk result (λ next. IsLight stack.new.items next stack.old.items) }
{
    match class_method(store, number, method_of(op)) {
        Some(callee) => {
            call(
                alloc,
                stack,
                number,
                callee,
                slice::from_ref(other),
                after(op),
            )
        }
        None => Ok(give(Value::Plain(Plain::NotImpl))),
    }
}

/// The method that is called for a comparison: `!=` is the opposite of `__eq__`.
fn method_of(op: CmpOp) -> &'static str
    ensures { result.now ≡ method_of op }
{
    match op {
        CmpOp::Eq => "__eq__",
        CmpOp::Ne => "__eq__",
        CmpOp::Lt => "__lt__",
        CmpOp::Le => "__le__",
        CmpOp::Gt => "__gt__",
        CmpOp::Ge => "__ge__",
    }
}

fn after(op: CmpOp) -> After
    ensures { goes_on result ≡ method_gave op }
{
    match op {
        CmpOp::Eq => After::Answer,
        CmpOp::Ne => After::Method(MethodFrame::Opposite),
        CmpOp::Lt => After::Answer,
        CmpOp::Le => After::Answer,
        CmpOp::Gt => After::Answer,
        CmpOp::Ge => After::Answer,
    }
}
