/// What a function does with a name (Python Language Reference, "Resolution of names").
#[derive(Clone, Copy, Debug, PartialEq, Eq)]
pub(crate) enum Holding {
    /// The name is one of its locals.
    Own,
    /// It declares the name global.
    Global,
    /// The functions around it decide.
    Passes,
}
