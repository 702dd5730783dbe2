ghost use Rattle.std.specs.Prelude.{◌≡◌, IfOk};
ghost use Rattle.rp_base.specs.Names.{exception_name, beyond_name};

use crate::ends::NoMemory;
use crate::plain::{Plain, copy_all};
use sqlite_items::Items;
use std::alloc::Global;

/// The exception classes of the language, by their names in Python's `builtins` (Python Library Reference, "Built-in
/// Exceptions").
#[derive(Clone, Copy, Debug, PartialEq, Eq)]
pub enum ExcKind {
    Exception,
    ArithmeticError,
    ZeroDivisionError,
    OverflowError,
    AssertionError,
    AttributeError,
    EOFError,
    ImportError,
    ModuleNotFoundError,
    LookupError,
    IndexError,
    KeyError,
    NameError,
    UnboundLocalError,
    RuntimeError,
    NotImplementedError,
    StopIteration,
    TypeError,
    ValueError,
}

impl ExcKind {
    /// The class's name.
    pub fn text(&self) -> &str
        ensures { result.now ≡ exception_name self.now }
    {
        match self {
            ExcKind::Exception => "Exception",
            ExcKind::ArithmeticError => "ArithmeticError",
            ExcKind::ZeroDivisionError => "ZeroDivisionError",
            ExcKind::OverflowError => "OverflowError",
            ExcKind::AssertionError => "AssertionError",
            ExcKind::AttributeError => "AttributeError",
            ExcKind::EOFError => "EOFError",
            ExcKind::ImportError => "ImportError",
            ExcKind::ModuleNotFoundError => "ModuleNotFoundError",
            ExcKind::LookupError => "LookupError",
            ExcKind::IndexError => "IndexError",
            ExcKind::KeyError => "KeyError",
            ExcKind::NameError => "NameError",
            ExcKind::UnboundLocalError => "UnboundLocalError",
            ExcKind::RuntimeError => "RuntimeError",
            ExcKind::NotImplementedError => "NotImplementedError",
            ExcKind::StopIteration => "StopIteration",
            ExcKind::TypeError => "TypeError",
            ExcKind::ValueError => "ValueError",
        }
    }
}

/// Why a run leaves the subset: Python's answer would need something that is not built here.
#[derive(Clone, Copy, Debug, PartialEq, Eq)]
pub enum Beyond {
    /// An int that does not fit 128 bits.
    Int,
    /// A result that Python gives as a float.
    Float,
    /// A value that is too heavy, or a collection with too many items.
    Size,
    /// A tuple that is too deep.
    Depth,
    /// More printed bytes than a side may print.
    Output,
    Text,
    Name,
    Namespace,
    Key,
    /// An exception's or a module's argument that is not plain.
    Payload,
    /// A text that would show the address of an object.
    Address,
    /// A list or dict that is printed while its own printing is under way.
    CyclicRepr,
    Compare,
    Order,
    Attribute,
    Arguments,
    Truth,
    Drain,
    /// A collection changed while it was gone over.
    Changed,
    /// A text that only some of Python's forms read as an int.
    IntText,
    Operator,
    Base,
    /// The operation is not built yet.
    NotYet,
}

impl Beyond {
    /// The kind's printed name.
    pub fn text(&self) -> &str
        ensures { result.now ≡ beyond_name self.now }
    {
        match self {
            Beyond::Int => "Int",
            Beyond::Float => "Float",
            Beyond::Size => "Size",
            Beyond::Depth => "Depth",
            Beyond::Output => "Output",
            Beyond::Text => "Text",
            Beyond::Name => "Name",
            Beyond::Namespace => "Namespace",
            Beyond::Key => "Key",
            Beyond::Payload => "Payload",
            Beyond::Address => "Address",
            Beyond::CyclicRepr => "CyclicRepr",
            Beyond::Compare => "Compare",
            Beyond::Order => "Order",
            Beyond::Attribute => "Attribute",
            Beyond::Arguments => "Arguments",
            Beyond::Truth => "Truth",
            Beyond::Drain => "Drain",
            Beyond::Changed => "Changed",
            Beyond::IntText => "IntText",
            Beyond::Operator => "Operator",
            Beyond::Base => "Base",
            Beyond::NotYet => "NotYet",
        }
    }
}

/// An exception: its class and its arguments.
#[derive(Drop)]
pub struct Raised {
    pub kind: ExcKind,
    pub args: Items<Plain>,
}

impl Raised {
    pub fn copy(&self, alloc: Global) -> Result<Raised, NoMemory>
        ensures { IfOk result (λ r. r ≡ self.now) }
    {
        Ok(Raised {
            kind: self.kind,
            args: copy_all(alloc, self.args.as_slice())?,
        })
    }
}
