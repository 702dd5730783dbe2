ghost use Rattle.std.specs.Prelude.{◌≡◌, IfOk, suc};
ghost use Rattle.language_rules.specs.Codes.{Gives};
ghost use Rattle.language_rules.specs.PlainItems.{number};
ghost use Rattle.eval_searching.specs.Compared.{HasLength, IsLengthTold, IsLightUnlessTold};

use eval_frames::Next;
use object_operations::Completion;
use py_store::{Cell, Store};
use rp_base::{Beyond, NoMemory, Plain, Value};

/// The length that an object gave; else what comes next. `Beyond(NotYet)` for a value that is no length.
pub(crate) fn told_length(completion: Completion) -> Result<u128, Next>
    ensures told { IsLengthTold completion result }
    ensures light { IsLightUnlessTold result }
{
    match completion {
        Completion::Gives(value) => length_in(&value),
        Completion::Raises(raised) => Err(Next::Give(Completion::Raises(raised))),
        Completion::Returns(value) => Err(Next::Give(Completion::Returns(value))),
        Completion::Breaks => Err(Next::Give(Completion::Breaks)),
        Completion::Continues => Err(Next::Give(Completion::Continues)),
        Completion::Drained(values) => Err(Next::Give(Completion::Drained(values))),
    }
}

fn length_in(value: &Value) -> Result<u128, Next>
    ensures told { IsLengthTold (Gives value.now) result }
    ensures light { IsLightUnlessTold result }
{
    match value {
        Value::Plain(Plain::Int(number)) => {
            if *number < 0 {
                Err(Next::Leave(Beyond::NotYet))
            } else {
                Ok(number.unsigned_abs())
            }
        }
        _ => Err(Next::Leave(Beyond::NotYet)),
    }
}

/// Nothing where the list of this number has so many items; else the way out of the subset.
pub(crate) fn changed(store: &Store, list: u32, length: u64) -> Option<Beyond>
    ensures { HasLength store.now.cells list length result }
{
    match store.get(list) {
        Some(Cell::List(items)) => {
            if items.len() as u64 == length {
                None
            } else {
                Some(Beyond::Changed)
            }
        }
        _ => Some(Beyond::NotYet),
    }
}

/// A position as an int.
pub(crate) fn number(position: u64) -> Value
    ensures { result ≡ number position }
{
    Value::Plain(Plain::Int(i128::from(position)))
}

/// The position behind this one. No list has more items than the greatest `u64`.
pub(crate) fn following(position: u64) -> Result<u64, NoMemory>
    ensures { IfOk result (λ n. n ≡ suc position) }
{
    match position.checked_add(1) {
        Some(next) => Ok(next),
        None => Err(NoMemory),
    }
}
