ghost use Rattle.std.specs.Prelude.{◌≡◌, ◌+◌, ◌*◌, ◌≤◌, IfOk, List, length, reverse, true};
ghost use Rattle.eval_frames.specs.declared.frame.Frame.{Frame};
ghost use Rattle.eval_frames.specs.declared.list_frames.TextFrame.TheVariants as text_frame;
ghost use Rattle.eval_frames.specs.declared.next.Next.TheVariants as next;
ghost use Rattle.eval_frames.specs.ListFrames.{through_levels, through_text};
ghost use Rattle.eval_frames.specs.Meaning.{IsLight, MeansIn, load};
ghost use Rattle.language_rules.specs.Codes.{Gives, Step};
ghost use Rattle.language_rules.specs.Going.{carry, text};
ghost use Rattle.language_rules.specs.Kinds.{is_reference};
ghost use Rattle.language_rules.specs.Printing.{gives_text, on_repr, on_text, on_text_value, repr_step};
ghost use Rattle.language_rules.specs.States.{State};
ghost use Rattle.side_trees.specs.Trees.{bind};
ghost use Rattle.eval_tuple_texts.specs.TextLevels.{Shows, texts_around};

use crate::levels::Turn;
use crate::tuples::{TupleText, go_on, tuple_text};
use eval_frames::{Frame, Next, TextFrame, TupleLevel, operate};
use object_operations::{Completion, Operation};
use rp_base::{Beyond, NoMemory, Plain, Text, Value};
use sqlite_items::Items;
use std::alloc::Global;

/// `repr` of a value (Python Library Reference, "Built-in Functions").
pub fn begin_text(alloc: Global, stack: &mut Vec<Frame>, value: Value) -> Result<Next, NoMemory>
    ensures means { IfOk result (λ n. (s : State) → MeansIn s stack.new.items n (on_repr value gives_text) stack.old.items) }
    ensures light { IfOk result (λ n. load stack.new.items n ≤ 3 * length stack.old.items + 10) }
{
    let text = tuple_text(alloc, value)?;
    give_outcome(stack, text)
}

/// Goes on with the text of an item of a tuple.
pub fn give_tuple_text(
    alloc: Global,
    stack: &mut Vec<Frame>,
    levels: Items<TupleLevel>,
    completion: Completion,
) -> Result<Next, NoMemory>
    ensures means { IfOk result (λ n. (s : State) → MeansIn s stack.new.items n (through_text (text_frame.Tuple levels) completion) stack.old.items) }
    ensures light { IfOk result (λ n. IsLight stack.new.items n stack.old.items) }
{
    match completion {
        Completion::Gives(value) => give_value(alloc, stack, levels, value),
        Completion::Raises(raised) => Ok(Next::Give(Completion::Raises(raised))),
        Completion::Returns(value) => Ok(Next::Give(Completion::Returns(value))),
        Completion::Breaks => Ok(Next::Give(Completion::Breaks)),
        Completion::Continues => Ok(Next::Give(Completion::Continues)),
        Completion::Drained(values) => Ok(Next::Give(Completion::Drained(values))),
    }
}

fn give_value(
    alloc: Global,
    stack: &mut Vec<Frame>,
    levels: Items<TupleLevel>,
    value: Value,
) -> Result<Next, NoMemory>
    ensures means { IfOk result (λ n. (s : State) → MeansIn s stack.new.items n (on_text_value (through_levels (reverse levels)) value) stack.old.items) }
    ensures light { IfOk result (λ n. IsLight stack.new.items n stack.old.items) }
{
    match value {
        Value::Plain(Plain::Text(text)) => add(alloc, stack, levels, text),
        _ => Ok(Next::Leave(Beyond::NotYet)),
    }
}

fn add(
    alloc: Global,
    stack: &mut Vec<Frame>,
    levels: Items<TupleLevel>,
    text: Text,
) -> Result<Next, NoMemory>
    ensures means { IfOk result (λ n. (s : State) → MeansIn s stack.new.items n (through_levels (reverse levels) text) stack.old.items) }
    ensures light { IfOk result (λ n. IsLight stack.new.items n stack.old.items) }
{
    let outcome = go_on(alloc, levels, Turn::Made(text))?;
    give_outcome(stack, outcome)
}

fn give_outcome(stack: &mut Vec<Frame>, outcome: TupleText) -> Result<Next, NoMemory>
    ensures means { IfOk result (λ n. (s : State) (t : Step) → Shows t outcome → MeansIn s stack.new.items n (bind (carry t) (on_text gives_text)) stack.old.items) }
    ensures light { IfOk result (λ n. load stack.new.items n ≤ 3 * length stack.old.items + 10) }
{
    match outcome {
        TupleText::Whole(text) => Ok(give(text)),
        TupleText::TooLong => Ok(Next::Leave(Beyond::Size)),
        TupleText::Asked(levels, object) => ask_text(stack, levels, object),
    }
}

fn give(made: Text) -> Next
    ensures { result ≡ next.Give (Gives (text made)) }
{
    Next::Give(Completion::Gives(Value::Plain(Plain::Text(made))))
}

/// An object is asked for its text, which goes to these levels.
pub fn ask_text(
    stack: &mut Vec<Frame>,
    levels: Items<TupleLevel>,
    object: Value,
) -> Result<Next, NoMemory>
    ensures means { IfOk result (λ n. (s : State) → is_reference object ≡ true → MeansIn s stack.new.items n (bind (carry (texts_around (reverse levels) (repr_step object))) (on_text gives_text)) stack.old.items) }
    ensures light { IfOk result (λ n. load stack.new.items n ≤ 3 * length stack.old.items + 3) }
{
    stack.push(Frame::Text(TextFrame::Tuple { levels }))?;
    Ok(operate(Operation::Repr(object)))
}
