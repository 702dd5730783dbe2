ghost use Rattle.std.specs.Prelude.{◌≡◌, [], ◌∷◌, ◌++◌, IfOk, List, ℕ, map};
ghost use Rattle.rp_base.specs.declared.plain.Plain.TheVariants as plain;
ghost use Rattle.rp_base.specs.declared.value.Value.TheVariants as value;
ghost use Rattle.rp_base.specs.Names.{exception_name};
ghost use Rattle.rp_base.specs.Values.{tuple_of};
ghost use Rattle.py_plain.specs.Arithmetic.{limited};
ghost use Rattle.py_plain.specs.Printing.{repr_of, str_of};
ghost use Rattle.eval_frames.specs.declared.frame.Frame.{Frame};
ghost use Rattle.eval_frames.specs.Meaning.{IsLight, Means};
ghost use Rattle.language_rules.specs.Answers.{answers, tuple_answers};
ghost use Rattle.language_rules.specs.Exceptions.{argument_text, exception_repr, exception_str};
ghost use Rattle.eval_handlers.specs.Telling.{TextComes, printed_repr, tells};

use eval_frames::{HandlerReading, Next};
use object_operations::Completion;
use py_plain::{PlainEnd, plain_repr, plain_str};
use rp_base::{
    ExcKind, HEAVIEST_VALUE, NoMemory, Plain, Raised, Text, TupleEnd, Value, make_tuple,
};
use sqlite_items::Items;
use std::alloc::Global;

/// The greatest length of a text in bytes: a text weighs one more than its bytes.
const LONGEST_TEXT: u64 = HEAVIEST_VALUE - 1;

/// What is asked of an exception: its text, its repr, or the tuple of its arguments. A text that is too long for a value
/// leaves the subset.
pub(crate) fn tell(
    alloc: Global,
    raised: &Raised,
    reading: HandlerReading,
) -> Result<Next, NoMemory>
    ensures means { IfOk result (λ next. (stack : List Frame) → Means stack next (tells reading raised.now) stack) }
    ensures light { IfOk result (λ next. (stack : List Frame) → IsLight stack next stack) }
{
    match reading {
        HandlerReading::Str => tell_text(str_of(alloc, raised)),
        HandlerReading::Repr => tell_text(repr_of(alloc, raised)),
        HandlerReading::Args => tell_args(alloc, raised.args.as_slice()),
    }
}

fn tell_text(text: Result<Text, PlainEnd>) -> Result<Next, NoMemory>
    ensures means { IfOk result (λ next. (t : List ℕ) (stack : List Frame) → TextComes t text → Means stack next (answers (limited (plain.Text t))) stack) }
    ensures light { IfOk result (λ next. (stack : List Frame) → IsLight stack next stack) }
{
    match text {
        Ok(text) => Ok(Next::Give(Completion::Gives(Value::Plain(Plain::Text(text))))),
        Err(PlainEnd::Raise(raised)) => Ok(Next::Give(Completion::Raises(raised))),
        Err(PlainEnd::Beyond(beyond)) => Ok(Next::Leave(beyond)),
        Err(PlainEnd::NoMemory) => Err(NoMemory),
    }
}

/// The tuple of the arguments.
fn tell_args(alloc: Global, args: &[Plain]) -> Result<Next, NoMemory>
    ensures means { IfOk result (λ next. (stack : List Frame) → Means stack next (tuple_answers (tuple_of (map value.Plain args.now))) stack) }
    ensures light { IfOk result (λ next. (stack : List Frame) → IsLight stack next stack) }
{
    let values = values_of(alloc, args)?;
    match make_tuple(alloc, values) {
        Ok(tuple) => Ok(Next::Give(Completion::Gives(tuple))),
        Err(TupleEnd::Beyond(beyond)) => Ok(Next::Leave(beyond)),
        Err(TupleEnd::NoMemory) => Err(NoMemory),
    }
}

fn values_of(alloc: Global, args: &[Plain]) -> Result<Items<Value>, NoMemory>
    ensures { IfOk result (λ values. values ≡ map value.Plain args.now) }
{
    let mut values = Items::new(alloc);
    for argument in args {
        values.push(Value::Plain(argument.copy(alloc)?))?;
    }
    Ok(values)
}

/// `str` of an exception: the text of its one argument, or the repr of the tuple of several.
fn str_of(alloc: Global, raised: &Raised) -> Result<Text, PlainEnd>
    ensures { TextComes (exception_str raised.now.kind raised.now.args) result }
{
    match raised.args.as_slice() {
        [] => Ok(Text::from_string(String::new(alloc))),
        [argument] => argument_text(alloc, raised.kind, argument),
        _ => args_text(alloc, raised),
    }
}

/// The text of one argument; the key of a KeyError is printed by its repr.
fn argument_text(alloc: Global, kind: ExcKind, argument: &Plain) -> Result<Text, PlainEnd>
    ensures { TextComes (argument_text kind argument.now) result }
{
    match kind {
        ExcKind::KeyError => shown(alloc, argument),
        _ => printed(alloc, argument),
    }
}

/// The repr of the tuple of the arguments.
fn args_text(alloc: Global, raised: &Raised) -> Result<Text, PlainEnd>
    ensures { TextComes (repr_of (Plain.Tuple raised.now.args)) result }
{
    let tuple = Plain::Tuple(raised.copy(alloc)?.args);
    shown(alloc, &tuple)
}

/// The str of a plain value.
fn printed(alloc: Global, plain: &Plain) -> Result<Text, PlainEnd>
    ensures { TextComes (str_of plain.now) result }
{
    let mut out = String::new(alloc);
    match plain_str(plain, LONGEST_TEXT, &mut out) {
        Ok(()) => Ok(Text::from_string(out)),
        Err(end) => Err(end),
    }
}

/// The repr of a plain value.
fn shown(alloc: Global, plain: &Plain) -> Result<Text, PlainEnd>
    ensures { TextComes (repr_of plain.now) result }
{
    let mut out = String::new(alloc);
    match plain_repr(plain, LONGEST_TEXT, &mut out) {
        Ok(()) => Ok(Text::from_string(out)),
        Err(end) => Err(end),
    }
}

/// `repr` of an exception: its class with the reprs of its arguments.
fn repr_of(alloc: Global, raised: &Raised) -> Result<Text, PlainEnd>
    ensures { TextComes (exception_repr raised.now.kind raised.now.args) result }
{
    repr_by_count(alloc, raised)
}

fn repr_by_count(alloc: Global, raised: &Raised) -> Result<Text, PlainEnd>
    ensures { TextComes (printed_repr raised.now.kind raised.now.args) result }
{
    match raised.args.as_slice() {
        [argument] => repr_of_one(alloc, raised.kind, argument),
        _ => repr_of_all(alloc, raised),
    }
}

/// The repr with one argument, which no comma follows.
fn repr_of_one(alloc: Global, kind: ExcKind, argument: &Plain) -> Result<Text, PlainEnd>
    ensures { TextComes (printed_repr kind (argument.now ∷ [])) result }
{
    let mut out = String::from_str(alloc, kind.text())?;
    out.push_str("(")?;
    match plain_repr(argument, LONGEST_TEXT - 1, &mut out) {
        Ok(()) => {
            out.push_str(")")?;
            Ok(Text::from_string(out))
        }
        Err(end) => Err(end),
    }
}

/// The repr with no argument or several, which are printed as their tuple is.
fn repr_of_all(alloc: Global, raised: &Raised) -> Result<Text, PlainEnd>
    ensures { TextComes (exception_name raised.now.kind ++ repr_of (Plain.Tuple raised.now.args)) result }
{
    let tuple = Plain::Tuple(raised.copy(alloc)?.args);
    let mut out = String::from_str(alloc, raised.kind.text())?;
    match plain_repr(&tuple, LONGEST_TEXT, &mut out) {
        Ok(()) => Ok(Text::from_string(out)),
        Err(end) => Err(end),
    }
}
