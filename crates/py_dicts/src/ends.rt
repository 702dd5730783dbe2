ghost use Rattle.std.specs.Prelude.{◌≡◌, ◌∷◌, []};
ghost use Rattle.language_rules.specs.AtOnce.{EndsAs};
ghost use Rattle.language_rules.specs.Going.{none, raised};

use rp_base::{ExcKind, OpEnd, Plain, Raised, Value};
use sqlite_items::Items;
use std::alloc::Global;

/// What an operation gives that gives nothing.
pub(crate) fn none() -> Value
    ensures { result ≡ none }
{
    Value::Plain(Plain::None)
}

/// The end with the exception for a key that is missing.
pub(crate) fn missing(alloc: Global, key: Plain) -> OpEnd
    ensures { EndsAs (raised ExcKind.KeyError (key ∷ [])) result }
{
    let mut args = Items::new(alloc);
    match args.push(key) {
        Ok(()) => OpEnd::Raise(Raised {
            kind: ExcKind::KeyError,
            args,
        }),
        Err(_) => OpEnd::NoMemory,
    }
}
