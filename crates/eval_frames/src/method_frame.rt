/// What waits for the answer of a method that the class of an instance has.
#[derive(Clone, Copy, Debug, PartialEq, Eq)]
pub enum MethodFrame {
    /// `__init__` of this new instance, which is the value.
    Initialised { instance: u32 },
    /// `__len__`: the length is the value.
    Length,
    /// `__len__`: whether it is above 0 is the value.
    Filled,
    /// `__bool__`.
    Truth,
    /// `__iter__`.
    Iterator,
    /// `__eq__`, whose opposite is the value.
    Opposite,
    /// `__str__` or `__repr__`.
    Text,
    /// An arithmetic method, whose value is the answer unless it is NotImplemented.
    Operator,
}
