ghost use Rattle.std.specs.Prelude.{◌≡◌, ◌+◌, ◌≤◌, IfOk};
ghost use Rattle.py_store.specs.Cells.{most_cells};
ghost use Rattle.slave_service.specs.FirstCells.{AreFirst};

use eval_handlers::reserved_names;
use py_store::{Cell, Store};
use rp_base::{NoMemory, Side, Text};
use sqlite_items::Items;
use std::alloc::Global;

/// The first cells of a side: the namespace, in which these names of handlers are reserved, each once, the root, and a
/// cell for each of so many modules, by their places. A side has at most 4,000,000,000 cells.
pub fn start(alloc: Global, side: Side, names: &[Text], modules: u32) -> Result<Store, NoMemory>
    requires { modules + 2 ≤ most_cells }
    ensures side { IfOk result (λ store. store.side ≡ side) }
    ensures cells { IfOk result (λ store. AreFirst names.now modules store.cells) }
{
    let reserved = reserved_names(alloc, names)?;
    let mut store = Store::new(alloc, side);
    store.make(Cell::Namespace {
        names: Items::new(alloc),
        reserved,
    })?;
    store.make(Cell::Root)?;
    for at in 0..modules {
        store.make(Cell::Host(at))?;
    }
    Ok(store)
}
