ghost use Rattle.std.specs.Prelude.{◌≡◌, IfOk, reverse};

use rp_base::{NoMemory, Value};
use sqlite_items::Items;
use std::alloc::Global;

/// The numbers, the last first.
pub(crate) fn numbers_reversed(
    alloc: Global,
    mut numbers: Items<u32>,
) -> Result<Items<u32>, NoMemory>
    ensures { IfOk result (λ reversed. reverse reversed ≡ numbers) }
{
    let mut reversed = Items::new(alloc);
    'numbers: while let Some(number) = numbers.pop() {
        reversed.push(number)?;
    }
    Ok(reversed)
}

/// The values, the last first.
pub(crate) fn values_reversed(
    alloc: Global,
    mut values: Items<Value>,
) -> Result<Items<Value>, NoMemory>
    ensures { IfOk result (λ reversed. reverse reversed ≡ values) }
{
    let mut reversed = Items::new(alloc);
    'values: while let Some(value) = values.pop() {
        reversed.push(value)?;
    }
    Ok(reversed)
}
