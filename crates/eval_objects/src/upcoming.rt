ghost use Rattle.std.specs.Prelude.{◌≡◌};
ghost use Rattle.eval_objects.specs.Iterators.{coming};

use rp_base::{Beyond, Value};

/// What an iterator comes to.
#[derive(Drop)]
pub(crate) enum Upcoming {
    /// The next item.
    Item(Value),
    /// The end, at which it drops its source.
    End,
    /// It had come to its end before.
    Over,
    /// The way out of the subset.
    Left(Beyond),
}

/// The item, or the end where there is none.
pub(crate) fn coming(item: Option<Value>) -> Upcoming
    ensures { result ≡ coming item }
{
    match item {
        Some(value) => Upcoming::Item(value),
        None => Upcoming::End,
    }
}
