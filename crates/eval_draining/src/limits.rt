ghost use Rattle.std.specs.Prelude.{◌≡◌, ◌+◌, ◌-◌, ◌^◌, None, Some, fold, if◌then◌else◌, map, max, min, nat_lt};
ghost use Rattle.rp_base.specs.declared.exceptions.Beyond.TheVariants.{Size};
ghost use Rattle.rp_base.specs.Values.{depth_of, tuple_of};
ghost use Rattle.eval_frames.specs.LoopFrames.{container};
ghost use Rattle.language_rules.specs.Draining.{limit_passed, most_items, passes};

use eval_frames::{Collection, are_too_heavy};
use rp_base::{Beyond, DEEPEST_TUPLE, Value, depth};

/// The most items of a list.
const MOST_ITEMS: usize = 1_048_576;

/// The limit that a list or a tuple of these items passes.
pub(crate) fn passed_limit(collection: Collection, items: &[Value]) -> Option<Beyond>
    ensures { result ≡ passes (container collection) items.now }
{
    match collection {
        Collection::List => list_limit(items.len()),
        Collection::Tuple => tuple_limit(items),
    }
}

fn list_limit(items: usize) -> Option<Beyond>
    ensures { result ≡ (if nat_lt most_items items then Some Size else None) }
{
    if items > MOST_ITEMS {
        Some(Beyond::Size)
    } else {
        None
    }
}

/// Weight first, then depth.
fn tuple_limit(items: &[Value]) -> Option<Beyond>
    ensures { result ≡ limit_passed (tuple_of items.now) }
{
    if are_too_heavy(items) {
        Some(Beyond::Size)
    } else if depth_of_tuple(items) > DEEPEST_TUPLE {
        Some(Beyond::Depth)
    } else {
        None
    }
}

/// The depth of the tuple of these items, or the greatest `u32` where it is more.
fn depth_of_tuple(items: &[Value]) -> u32
    ensures { result ≡ min (1 + fold max 0 (map depth_of items.now)) (2 ^ 32 - 1) }
{
    let mut deepest = 0u32;
    for item in items {
        deepest = deepest.max(depth(item));
    }
    deepest.saturating_add(1)
}
