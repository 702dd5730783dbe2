ghost use Rattle.std.specs.Prelude.{◌≡◌, ◌∷◌, [], OnOk, OnErr};
ghost use Rattle.py_lexer.specs.Layout.{top, below};

use std::alloc::{AllocFailed, Global};
use std::marker::Model;

/// The widths of the indentations that are open. Contracts see them from the innermost out.
#[derive(Drop)]
pub(crate) struct Indents {
    widths: Vec<u32>,
}

impl Model for Indents {
    ghost use Rattle.std.specs.Prelude.{ℕ, List, reverse};

    ghost Value = { List ℕ };

    ghost view = { λ i. reverse i.widths.items };
}

impl Indents {
    pub(crate) fn new(alloc: Global) -> Indents
        ensures { result ≡ [] }
    {
        Indents {
            widths: Vec::new(alloc),
        }
    }

    /// The innermost width, or 0.
    pub(crate) fn top(&self) -> u32
        ensures { result ≡ top self.now }
    {
        match self.widths.last() {
            Some(width) => *width,
            None => 0,
        }
    }

    pub(crate) fn push(&mut self, width: u32) -> Result<(), AllocFailed<u32>>
        ensures ok { OnOk result (self.new ≡ width ∷ self.old) }
    {
        self.widths.push(width)
    }

    /// Closes the innermost.
    pub(crate) fn pop(&mut self)
        ensures { self.new ≡ below self.old }
    {
        self.widths.pop();
    }
}
