ghost use Rattle.std.specs.Prelude.{◌≡◌, IfOk};

use crate::copying::copy_numbers;
use rp_base::{NoMemory, Text};
use sqlite_items::Items;
use std::alloc::Global;

/// What an assignment, a `for` or a `del` has on its left (Python Language Reference, "Assignment statements"). The
/// receiver and the key are expressions.
#[derive(Drop)]
pub enum Target {
    Name(Text),
    Attribute { receiver: u32, name: Text },
    Item { receiver: u32, key: u32 },
    /// Targets with a comma.
    Tuple(Items<u32>),
}

impl Target {
    /// An equal target of its own.
    pub fn copy(&self, alloc: Global) -> Result<Target, NoMemory>
        ensures { IfOk result (λ t. t ≡ self.now) }
    {
        match self {
            Target::Name(text) => Ok(Target::Name(text.copy(alloc)?)),
            Target::Attribute { receiver, name } => Ok(Target::Attribute {
                receiver: *receiver,
                name: name.copy(alloc)?,
            }),
            &Target::Item { receiver, key } => Ok(Target::Item { receiver, key }),
            Target::Tuple(targets) => Ok(Target::Tuple(copy_numbers(targets, alloc)?)),
        }
    }
}
