ghost use Rattle.std.specs.Prelude.{◌≡◌, ◌+◌, ◌++◌, ◌∷◌, [], IfOk, OnOk, length};

use py_store::{Cell, Store};
use rp_base::NoMemory;

/// The most cells that a side may have.
const MOST_CELLS: u32 = 4_000_000_000;

/// Adds a cell and gives its number. A side with 4,000,000,000 cells has no memory for another one.
pub(crate) fn make_cell(store: &mut Store, cell: Cell) -> Result<u32, NoMemory>
    ensures number { IfOk result (λ number. number ≡ length store.old.cells + 1) }
    ensures made { OnOk result (store.new ≡ record store.old { cells = store.old.cells ++ cell ∷ [] }) }
{
    if store.size() >= MOST_CELLS {
        return Err(NoMemory);
    }
    store.make(cell)
}
