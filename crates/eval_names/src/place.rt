/// Where a name is: a variable of the function that runs, one of a function around it, or a global name. Missing: no
/// state comes to it.
#[derive(Clone, Copy, Debug, PartialEq, Eq)]
pub enum Place {
    Own(u32),
    Outer(u32),
    Global,
    Missing,
}
