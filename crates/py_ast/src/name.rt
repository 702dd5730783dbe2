ghost use Rattle.std.specs.Prelude.{◌≡◌, IfOk};

use rp_base::{NoMemory, Text};
use std::alloc::Global;

/// A name with the line on which it stands, counted from 1.
#[derive(Drop)]
pub struct Name {
    pub text: Text,
    pub line: u32,
}

impl Name {
    /// An equal name of its own.
    pub fn copy(&self, alloc: Global) -> Result<Name, NoMemory>
        ensures { IfOk result (λ n. n ≡ self.now) }
    {
        Ok(Name {
            text: self.text.copy(alloc)?,
            line: self.line,
        })
    }
}
