ghost use Rattle.std.specs.Prelude.{◌≡◌};
ghost use Rattle.object_operations.specs.Names.{special_name};

/// The special names that travel between sides (Python Language Reference, "Special method names"), and the root's
/// `getmodule`.
#[derive(Clone, Copy, Debug, PartialEq, Eq)]
pub enum Special {
    Len,
    Bool,
    GetItem,
    SetItem,
    DelItem,
    Contains,
    Iter,
    Next,
    Add,
    Sub,
    Mul,
    FloorDiv,
    Mod,
    Neg,
    IAdd,
    GetModule,
}

impl Special {
    /// The method's name.
    pub fn text(&self) -> &str
        ensures { result.now ≡ special_name self.now }
    {
        match self {
            Special::Len => "__len__",
            Special::Bool => "__bool__",
            Special::GetItem => "__getitem__",
            Special::SetItem => "__setitem__",
            Special::DelItem => "__delitem__",
            Special::Contains => "__contains__",
            Special::Iter => "__iter__",
            Special::Next => "__next__",
            Special::Add => "__add__",
            Special::Sub => "__sub__",
            Special::Mul => "__mul__",
            Special::FloorDiv => "__floordiv__",
            Special::Mod => "__mod__",
            Special::Neg => "__neg__",
            Special::IAdd => "__iadd__",
            Special::GetModule => "getmodule",
        }
    }
}
