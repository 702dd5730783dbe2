ghost use Rattle.std.specs.Prelude.{◌≡◌, ◌+◌, ◌++◌, IfOk, List, length};
ghost use Rattle.rp_base.specs.declared.value.Value.TheVariants as value;
ghost use Rattle.py_ast.specs.declared.program.Program.{Program};
ghost use Rattle.py_store.specs.declared.cell.Cell.TheVariants as cell;
ghost use Rattle.eval_frames.specs.declared.frame.Frame.{Frame};
ghost use Rattle.eval_frames.specs.Meaning.{IsLight, Means, MeansIn};
ghost use Rattle.language_rules.specs.AtOnce.{stated};
ghost use Rattle.language_rules.specs.Codes.{AList};
ghost use Rattle.language_rules.specs.Draining.{drains_kind, goes_over};
ghost use Rattle.language_rules.specs.Going.{RuleTree};
ghost use Rattle.language_rules.specs.Kinds.{on_kind};
ghost use Rattle.language_rules.specs.States.{State};
ghost use Rattle.eval_lists.specs.Extending.{extended, way_taken};

use eval_frames::{Collection, DrainFrame, Draining, Frame, Next, operate_over, special};
use eval_ranges::{kind_of_value, refuse};
use object_operations::Special;
use py_store::Store;
use rp_base::{Beyond, Kind, NoMemory, Value};
use std::alloc::Global;

/// How a value is gone over that has no items at hand.
#[derive(Clone, Copy, Debug, PartialEq, Eq)]
pub(crate) enum Way {
    /// By its iterator.
    Over,
    /// The way out of the subset.
    Out(Beyond),
    /// It cannot be gone over.
    Not,
}

/// The items that a value gives when it is gone over go behind those of the list, which is the answer.
pub(crate) fn extend_by_asking(
    alloc: Global,
    stack: &mut Vec<Frame>,
    store: &Store,
    list: u32,
    more: &Value,
) -> Result<Next, NoMemory>
    ensures means { IfOk result (λ next. (fixed : State) (texts : List Program) → MeansIn (stated fixed store.now.cells texts) stack.new.items next (on_kind more.now (drains_kind (goes_over AList more.now (extended list)))) stack.old.items) }
    ensures light { IfOk result (λ next. IsLight stack.new.items next stack.old.items) }
{
    take_way(
        alloc,
        stack,
        list,
        more,
        way_over(kind_of_value(store, more)),
    )
}

fn take_way(
    alloc: Global,
    stack: &mut Vec<Frame>,
    list: u32,
    more: &Value,
    way: Way,
) -> Result<Next, NoMemory>
    ensures means { IfOk result (λ next. Means stack.new.items next (way_taken way (goes_over AList more.now (extended list))) stack.old.items) }
    ensures light { IfOk result (λ next. IsLight stack.new.items next stack.old.items) }
{
    match way {
        Way::Over => go_over(alloc, stack, list, more.copy(alloc)?),
        Way::Out(beyond) => Ok(Next::Leave(beyond)),
        Way::Not => refuse(alloc, "not iterable"),
    }
}

fn go_over(alloc: Global, stack: &mut Vec<Frame>, list: u32, more: Value) -> Result<Next, NoMemory>
    ensures means { IfOk result (λ next. Means stack.new.items next (goes_over AList more (extended list)) stack.old.items) }
    ensures light { IfOk result (λ next. IsLight stack.new.items next stack.old.items) }
{
    let frame = Frame::Drain(DrainFrame::Iterator {
        collection: Collection::List,
        draining: Draining::Extend {
            list,
            is_answer: true,
        },
    });
    operate_over(stack, frame, special(alloc, more, Special::Iter))
}

/// How a value of this kind is gone over.
fn way_over(kind: Option<Kind>) -> Way
    ensures { (over : RuleTree) → drains_kind over kind ≡ way_taken result over }
{
    match kind {
        None => Way::Not,
        Some(Kind::List) => Way::Over,
        Some(Kind::Dict) => Way::Over,
        Some(Kind::Range) => Way::Over,
        Some(Kind::View) => Way::Over,
        Some(Kind::Instance) => Way::Out(Beyond::Drain),
        Some(Kind::Iter) => Way::Out(Beyond::Drain),
        Some(Kind::Namespace) => Way::Out(Beyond::Namespace),
        Some(Kind::Function) => Way::Not,
        Some(Kind::Bound) => Way::Not,
        Some(Kind::Class) => Way::Not,
        Some(Kind::Host) => Way::Not,
        Some(Kind::HostFunc) => Way::Not,
        Some(Kind::Root) => Way::Not,
        Some(Kind::Conn) => Way::Not,
        Some(Kind::Modules) => Way::Not,
    }
}
