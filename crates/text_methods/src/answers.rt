use py_store::Values;
use rp_base::Value;

/// What a method of a text answers.
#[derive(Drop)]
pub enum TextAnswer {
    /// This value.
    Value(Value),
    /// A new list of these texts.
    List(Values),
    /// The argument of `join` has to be gone over first.
    Drain,
}
