ghost use Rattle.std.specs.Prelude.{◌≡◌};
ghost use Rattle.py_ast.specs.Builtins.{builtin_name, builtin_of, first_named};

const BUILTINS: [Builtin; 17] = [
    Builtin::Print,
    Builtin::Len,
    Builtin::Str,
    Builtin::Repr,
    Builtin::Int,
    Builtin::Bool,
    Builtin::Abs,
    Builtin::Ord,
    Builtin::Chr,
    Builtin::Range,
    Builtin::List,
    Builtin::Tuple,
    Builtin::Dict,
    Builtin::Min,
    Builtin::Max,
    Builtin::Sum,
    Builtin::Sorted,
];

/// The builtin functions that a script may call (Python Library Reference, "Built-in Functions").
#[derive(Clone, Copy, Debug, PartialEq, Eq)]
pub enum Builtin {
    Print,
    Len,
    Str,
    Repr,
    Int,
    Bool,
    Abs,
    Ord,
    Chr,
    Range,
    List,
    Tuple,
    Dict,
    Min,
    Max,
    Sum,
    Sorted,
}

impl Builtin {
    /// The function's name.
    pub fn text(&self) -> &str
        ensures { result.now ≡ builtin_name self.now }
    {
        match self {
            Builtin::Print => "print",
            Builtin::Len => "len",
            Builtin::Str => "str",
            Builtin::Repr => "repr",
            Builtin::Int => "int",
            Builtin::Bool => "bool",
            Builtin::Abs => "abs",
            Builtin::Ord => "ord",
            Builtin::Chr => "chr",
            Builtin::Range => "range",
            Builtin::List => "list",
            Builtin::Tuple => "tuple",
            Builtin::Dict => "dict",
            Builtin::Min => "min",
            Builtin::Max => "max",
            Builtin::Sum => "sum",
            Builtin::Sorted => "sorted",
        }
    }

    /// The function of this name.
    #[tactic(auto, unfolding(crate::specs::Builtins::builtin_of))]
    pub fn from_name(name: &[u8]) -> Option<Builtin>
        ensures { result ≡ builtin_of name.now }
    {
        first_named(&BUILTINS, name)
    }
}

/// The first of these functions that has this name.
fn first_named(builtins: &[Builtin], name: &[u8]) -> Option<Builtin>
    ensures { result ≡ first_named builtins.now name.now }
{
    for builtin in builtins {
        if name == builtin.text().as_bytes() {
            return Some(*builtin);
        }
    }
    None
}
