ghost use Rattle.std.specs.Prelude.{◌≡◌, ◌<◌, ◌*◌, ◌/◌, ◌+ℤ◌, ◌-ℤ◌, IfSome, pos};
ghost use Rattle.std.specs.Int.{div_ceil};
ghost use Rattle.std.specs.Ordering.{int_eq};
ghost use Rattle.language_rules.specs.Ranges.{above, range_has, range_item, range_length, range_place};
ghost use Rattle.language_rules.specs.TextFunctions.{as_int, below, place_among};

use rp_base::{Plain, Value};

/// The int that a value is, where a bool counts as one.
pub fn as_int(value: &Value) -> Option<i128>
    ensures { result ≡ as_int value.now }
{
    match value {
        Value::Plain(Plain::Bool(b)) => Some(i128::from(*b)),
        Value::Plain(Plain::Int(n)) => Some(*n),
        _ => None,
    }
}

/// How far an int is above another, and 0 where it is not.
fn above(high: i128, low: i128) -> u128
    ensures { result ≡ above high low }
{
    if high <= low {
        return 0;
    }
    high.abs_diff(low)
}

/// How many steps of this width begin within the distance. No range has steps of width 0.
fn steps(distance: u128, width: u128) -> u128
    ensures { result ≡ div_ceil distance width }
{
    if width == 0 {
        return distance.min(1);
    }
    distance.div_ceil(width)
}

/// How many items a range has.
pub fn range_length(start: i128, stop: i128, step: i128) -> u128
    ensures { result ≡ range_length start stop step }
{
    if step < 0 {
        steps(above(start, stop), step.unsigned_abs())
    } else {
        steps(above(stop, start), step.unsigned_abs())
    }
}

/// The item of a range at a place, which is below its length.
pub fn range_item(start: i128, stop: i128, step: i128, place: u128) -> i128
    requires { place < range_length start stop step }
    ensures { result ≡ range_item start step place }
{
    if step < 0 {
        going_down(start, stop, step.unsigned_abs(), place)
    } else {
        going_up(start, stop, step.unsigned_abs(), place)
    }
}

/// The int that so many steps of this width lead up to, before the stop.
fn going_up(start: i128, stop: i128, width: u128, place: u128) -> i128
    requires { place < div_ceil (above stop start) width }
    ensures { result ≡ start +ℤ pos (place * width) }
{
    start.checked_add_unsigned(place * width).unwrap()
}

/// The int that so many steps of this width lead down to, before the stop.
fn going_down(start: i128, stop: i128, width: u128, place: u128) -> i128
    requires { place < div_ceil (above start stop) width }
    ensures { result ≡ start -ℤ pos (place * width) }
{
    start.checked_sub_unsigned(place * width).unwrap()
}

/// Whether two ints are the same.
fn is_same(a: i128, b: i128) -> bool
    ensures { result ≡ int_eq a b }
{
    a == b
}

/// How many whole steps of this width there are in the distance. No range has steps of width 0.
fn whole_steps(distance: u128, width: u128) -> u128
    ensures { result ≡ distance / width }
{
    if width == 0 {
        return 0;
    }
    distance / width
}

/// The place that an int would have in a range.
fn range_place(start: i128, step: i128, x: i128) -> u128
    ensures { result ≡ range_place start step x }
{
    if step < 0 {
        whole_steps(above(start, x), step.unsigned_abs())
    } else {
        whole_steps(above(x, start), step.unsigned_abs())
    }
}

/// Whether an int is an item of a range.
pub(crate) fn range_has(start: i128, stop: i128, step: i128, x: i128) -> bool
    ensures { result ≡ range_has start stop step x }
{
    let place = range_place(start, step, x);
    if place < range_length(start, stop, step) {
        is_same(range_item(start, stop, step, place), x)
    } else {
        false
    }
}

/// The place of a position among so many items: 0 is the first, and -1 the last.
pub(crate) fn place_among(len: u128, n: i128) -> Option<u128>
    ensures place { result ≡ place_among len n }
    ensures within { IfSome result (λ at. at < len) }
{
    if n < 0 {
        from_end(len, n.unsigned_abs())
    } else {
        from_start(len, n.unsigned_abs())
    }
}

fn from_start(len: u128, n: u128) -> Option<u128>
    ensures place { result ≡ below len (pos n) }
    ensures within { IfSome result (λ at. at < len) }
{
    if n < len { Some(n) } else { None }
}

/// The place that is so far from the end, where the last is at 1.
fn from_end(len: u128, back: u128) -> Option<u128>
    requires { 0 < back }
    ensures place { result ≡ below len (pos len -ℤ pos back) }
    ensures within { IfSome result (λ at. at < len) }
{
    if back <= len { Some(len - back) } else { None }
}
