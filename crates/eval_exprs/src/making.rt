ghost use Rattle.std.specs.Prelude.{◌≡◌, ◌≤◌, ◌++◌, ◌∷◌, [], IfOk, List, Some, length, option_map, reverse};
ghost use Rattle.rp_base.specs.declared.value.Value.{Value};
ghost use Rattle.py_ast.specs.declared.builtin.Builtin.TheVariants as builtin;
ghost use Rattle.eval_frames.specs.declared.frame.Frame.{Frame};
ghost use Rattle.eval_frames.specs.Meaning.{IsLight, Means};
ghost use Rattle.language_rules.specs.Builtins.{builtin_rule};
ghost use Rattle.language_rules.specs.Conversions.{new_range, only_ints, range_over};
ghost use Rattle.language_rules.specs.Displays.{entries_with, new_dict, new_list};
ghost use Rattle.language_rules.specs.Ordering.{gives_sorted};
ghost use Rattle.eval_exprs.specs.Making.{IsPut, plain_of, the_int};

use builtin_functions::items_at_hand;
use eval_frames::{Next, fail, is_reference};
use item_sorting::sorted_items;
use py_store::{Cell, Entries, Values};
use rp_base::{Beyond, ExcKind, NoMemory, OpEnd, Plain, Value};
use sqlite_items::Items;
use std::alloc::Global;

/// The most items of a list, and entries of a dict.
const MOST_ITEMS: usize = 1_048_576;

/// A new list of these items (Python Language Reference, "List displays"). `Leave(Size)` past 1,048,576 items.
pub(crate) fn new_list(alloc: Global, items: Items<Value>) -> Result<Next, NoMemory>
    ensures means { IfOk result (λ next. (stack : List Frame) → Means stack next (new_list items) stack) }
    ensures light { IfOk result (λ next. (stack : List Frame) → IsLight stack next stack) }
{
    if items.len() > MOST_ITEMS {
        return Ok(Next::Leave(Beyond::Size));
    }
    Ok(Next::Make(Cell::List(values_of(alloc, items)?)))
}

/// The items of a list.
pub fn values_of(alloc: Global, mut items: Items<Value>) -> Result<Values, NoMemory>
    ensures { IfOk result (λ values. values ≡ items) }
{
    let mut values = Values::new(alloc);
    'items: while let Some(item) = items.pop() {
        values.push(item)?;
    }
    values.reverse();
    Ok(values)
}

/// A new dict of keys and values in turn (Python Language Reference, "Dictionary displays"). `Leave(Key)` for a key that is
/// no plain value, `Leave(Size)` past 1,048,576 entries.
pub(crate) fn new_dict(alloc: Global, items: Items<Value>) -> Result<Next, NoMemory>
    ensures means { IfOk result (λ next. (stack : List Frame) → Means stack next (new_dict (entries_with [] items)) stack) }
    ensures light { IfOk result (λ next. (stack : List Frame) → IsLight stack next stack) }
{
    let Some(entries) = entries_of(alloc, items)? else {
        return Ok(Next::Leave(Beyond::Key));
    };
    if entries.len() > MOST_ITEMS {
        return Ok(Next::Leave(Beyond::Size));
    }
    Ok(Next::Make(Cell::Dict { entries, shape: 0 }))
}

/// The entries of keys and values in turn; none where a key is no plain value.
fn entries_of(alloc: Global, items: Items<Value>) -> Result<Option<Entries>, NoMemory>
    ensures { IfOk result (λ entries. entries ≡ entries_with [] items) }
{
    let mut waiting = reversed(alloc, items)?;
    let mut entries = Entries::new(alloc);
    'entries: while let Some(key) = waiting.pop() {
        let put = put_last(&mut entries, key, &mut waiting)?;
        if !put {
            return Ok(None);
        }
    }
    Ok(Some(entries))
}

/// The entry of a key and the last value that waits; false where there is none, or the key is no plain value.
fn put_last(entries: &mut Entries, key: Value, waiting: &mut Items<Value>) -> Result<bool, NoMemory>
    ensures put { IfOk result (λ put. (before : List Value) → before ≡ waiting.old ++ key ∷ [] → IsPut entries.old (reverse before) put entries.new (reverse waiting.new)) }
    ensures shorter { length waiting.new ≤ length waiting.old }
{
    match waiting.pop() {
        Some(value) => put_entry(entries, key, value),
        None => Ok(false),
    }
}

/// The entry of a key and a value; false where the key is no plain value.
fn put_entry(entries: &mut Entries, key: Value, value: Value) -> Result<bool, NoMemory>
    ensures { IfOk result (λ put. (more : List Value) → IsPut entries.old (key ∷ value ∷ more) put entries.new more) }
{
    match plain_of(key) {
        Some(key) => {
            entries.put(key, value)?;
            Ok(true)
        }
        None => Ok(false),
    }
}

fn plain_of(value: Value) -> Option<Plain>
    ensures { result ≡ plain_of value }
{
    match value {
        Value::Plain(plain) => Some(plain),
        Value::Tuple(_) => None,
        Value::Own(_) => None,
        Value::Proxy(_) => None,
    }
}

/// The values, the last first.
fn reversed(alloc: Global, mut values: Items<Value>) -> Result<Items<Value>, NoMemory>
    ensures { IfOk result (λ waiting. reverse waiting ≡ values) }
{
    let mut waiting = Items::new(alloc);
    'values: while let Some(value) = values.pop() {
        waiting.push(value)?;
    }
    Ok(waiting)
}

/// `list` of nothing, or of what has its items at hand.
#[tactic(auto, unfolding(language_rules::specs::Builtins::builtin_rule))]
pub(crate) fn list(alloc: Global, arguments: &[Value]) -> Result<Next, NoMemory>
    ensures means { IfOk result (λ next. (stack : List Frame) → Means stack next (builtin_rule builtin.List arguments.now) stack) }
    ensures light { IfOk result (λ next. (stack : List Frame) → IsLight stack next stack) }
{
    match arguments {
        [] => Ok(Next::Make(Cell::List(Values::new(alloc)))),
        [value] => list_at_hand(alloc, value),
        _ => Ok(Next::Leave(Beyond::Arguments)),
    }
}

#[tactic(auto, unfolding(language_rules::specs::Builtins::builtin_rule))]
fn list_at_hand(alloc: Global, value: &Value) -> Result<Next, NoMemory>
    ensures means { IfOk result (λ next. (stack : List Frame) → Means stack next (builtin_rule builtin.List (value.now ∷ [])) stack) }
    ensures light { IfOk result (λ next. (stack : List Frame) → IsLight stack next stack) }
{
    if is_reference(value) {
        return Err(NoMemory);
    }
    match items_at_hand(alloc, value)? {
        Some(items) => Ok(Next::Make(Cell::List(items))),
        None => fail(alloc, ExcKind::TypeError, "not iterable"),
    }
}

/// `sorted` of what has its items at hand.
#[tactic(auto, unfolding(language_rules::specs::Builtins::builtin_rule))]
pub(crate) fn sorted(alloc: Global, arguments: &[Value]) -> Result<Next, NoMemory>
    ensures means { IfOk result (λ next. (stack : List Frame) → Means stack next (builtin_rule builtin.Sorted arguments.now) stack) }
    ensures light { IfOk result (λ next. (stack : List Frame) → IsLight stack next stack) }
{
    match arguments {
        [value] => sorted_at_hand(alloc, value),
        _ => Ok(Next::Leave(Beyond::Arguments)),
    }
}

#[tactic(auto, unfolding(language_rules::specs::Builtins::builtin_rule))]
fn sorted_at_hand(alloc: Global, value: &Value) -> Result<Next, NoMemory>
    ensures means { IfOk result (λ next. (stack : List Frame) → Means stack next (builtin_rule builtin.Sorted (value.now ∷ [])) stack) }
    ensures light { IfOk result (λ next. (stack : List Frame) → IsLight stack next stack) }
{
    if is_reference(value) {
        return Err(NoMemory);
    }
    match items_at_hand(alloc, value)? {
        Some(items) => sorted_list(alloc, items.as_slice()),
        None => fail(alloc, ExcKind::TypeError, "not iterable"),
    }
}

/// A new list of these items in order. `Leave(Order)` where they are neither all numbers nor all texts.
pub fn sorted_list(alloc: Global, items: &[Value]) -> Result<Next, NoMemory>
    ensures means { IfOk result (λ next. (stack : List Frame) → Means stack next (gives_sorted items.now) stack) }
    ensures light { IfOk result (λ next. (stack : List Frame) → IsLight stack next stack) }
{
    match sorted_items(alloc, items) {
        Ok(values) => Ok(Next::Make(Cell::List(values))),
        Err(OpEnd::Beyond(beyond)) => Ok(Next::Leave(beyond)),
        Err(OpEnd::NoMemory) => Err(NoMemory),
        Err(OpEnd::Raise(_)) => unreachable!(),
    }
}

/// `dict` of nothing.
#[tactic(auto, unfolding(language_rules::specs::Builtins::builtin_rule))]
pub(crate) fn dict(alloc: Global, arguments: &[Value]) -> Result<Next, NoMemory>
    ensures means { IfOk result (λ next. (stack : List Frame) → Means stack next (builtin_rule builtin.Dict arguments.now) stack) }
    ensures light { IfOk result (λ next. (stack : List Frame) → IsLight stack next stack) }
{
    match arguments {
        [] => Ok(Next::Make(Cell::Dict {
            entries: Entries::new(alloc),
            shape: 0,
        })),
        _ => Ok(Next::Leave(Beyond::Arguments)),
    }
}

/// `range` (Python Library Reference, "Ranges").
#[tactic(auto, unfolding(language_rules::specs::Builtins::builtin_rule))]
pub(crate) fn range(alloc: Global, arguments: &[Value]) -> Result<Next, NoMemory>
    ensures means { IfOk result (λ next. (stack : List Frame) → Means stack next (builtin_rule builtin.Range arguments.now) stack) }
    ensures light { IfOk result (λ next. (stack : List Frame) → IsLight stack next stack) }
{
    match only_ints(alloc, arguments)? {
        Some(ints) => range_over(alloc, ints.as_slice()),
        None => Ok(Next::Leave(Beyond::Arguments)),
    }
}

/// The ints that these are, where all are ints; a bool is none here.
fn only_ints(alloc: Global, arguments: &[Value]) -> Result<Option<Vec<i128>>, NoMemory>
    ensures { IfOk result (λ ints. option_map (λ v. v.items) ints ≡ only_ints arguments.now) }
{
    let mut ints = Vec::new(alloc);
    for argument in arguments {
        match the_int(argument) {
            Some(n) => ints.push(n)?,
            None => return Ok(None),
        }
    }
    Ok(Some(ints))
}

/// The int that a value is; a bool is none here.
fn the_int(value: &Value) -> Option<i128>
    ensures { result ≡ the_int value.now }
{
    match value {
        Value::Plain(Plain::Int(n)) => Some(*n),
        _ => None,
    }
}

/// From 0 and by 1 where that is not said.
fn range_over(alloc: Global, ints: &[i128]) -> Result<Next, NoMemory>
    ensures means { IfOk result (λ next. (stack : List Frame) → Means stack next (range_over (Some ints.now)) stack) }
    ensures light { IfOk result (λ next. (stack : List Frame) → IsLight stack next stack) }
{
    match ints {
        [stop] => new_range(alloc, 0, *stop, 1),
        [start, stop] => new_range(alloc, *start, *stop, 1),
        [start, stop, step] => new_range(alloc, *start, *stop, *step),
        _ => Ok(Next::Leave(Beyond::Arguments)),
    }
}

fn new_range(alloc: Global, start: i128, stop: i128, step: i128) -> Result<Next, NoMemory>
    ensures means { IfOk result (λ next. (stack : List Frame) → Means stack next (new_range start stop step) stack) }
    ensures light { IfOk result (λ next. (stack : List Frame) → IsLight stack next stack) }
{
    if step == 0 {
        fail(alloc, ExcKind::ValueError, "step is zero")
    } else {
        Ok(Next::Make(Cell::Range { start, stop, step }))
    }
}
