ghost use Rattle.std.specs.Prelude.{◌≡◌};
ghost use Rattle.py_mentions.specs.Rules.{exception_of, first_exception, is_reserved, names_exception, takes};

use py_ast::Builtin;
use rp_base::ExcKind;

const EXCEPTIONS: [ExcKind; 19] = [
    ExcKind::Exception,
    ExcKind::ArithmeticError,
    ExcKind::ZeroDivisionError,
    ExcKind::OverflowError,
    ExcKind::AssertionError,
    ExcKind::AttributeError,
    ExcKind::EOFError,
    ExcKind::ImportError,
    ExcKind::ModuleNotFoundError,
    ExcKind::LookupError,
    ExcKind::IndexError,
    ExcKind::KeyError,
    ExcKind::NameError,
    ExcKind::UnboundLocalError,
    ExcKind::RuntimeError,
    ExcKind::NotImplementedError,
    ExcKind::StopIteration,
    ExcKind::TypeError,
    ExcKind::ValueError,
];

/// The exception class of this name.
#[tactic(auto, unfolding(crate::specs::Rules::exception_of))]
pub fn exception_named(name: &[u8]) -> Option<ExcKind>
    ensures { result ≡ exception_of name.now }
{
    first_exception(&EXCEPTIONS, name)
}

/// The first of these classes that has this name.
fn first_exception(kinds: &[ExcKind], name: &[u8]) -> Option<ExcKind>
    ensures { result ≡ first_exception kinds.now name.now }
{
    for kind in kinds {
        if name == kind.text().as_bytes() {
            return Some(*kind);
        }
    }
    None
}

/// Whether this is the name of an exception class.
pub fn is_exception(name: &[u8]) -> bool
    ensures { result ≡ names_exception name.now }
{
    exception_named(name).is_some()
}

/// Whether this is the name of an exception class or of a builtin function.
pub fn is_reserved(name: &[u8]) -> bool
    ensures { result ≡ is_reserved name.now }
{
    is_exception(name) || Builtin::from_name(name).is_some()
}

/// Whether a builtin function takes so many arguments.
pub fn takes(builtin: Builtin, count: usize) -> bool
    ensures { result ≡ takes builtin count }
{
    match builtin {
        Builtin::Print => true,
        Builtin::Len => count == 1,
        Builtin::Str => count < 2,
        Builtin::Repr => count == 1,
        Builtin::Int => count < 2,
        Builtin::Bool => count < 2,
        Builtin::Abs => count == 1,
        Builtin::Ord => count == 1,
        Builtin::Chr => count == 1,
        Builtin::Range => 0 < count && count < 4,
        Builtin::List => count < 2,
        Builtin::Tuple => count < 2,
        Builtin::Dict => count == 0,
        Builtin::Min => 0 < count,
        Builtin::Max => 0 < count,
        Builtin::Sum => count == 1,
        Builtin::Sorted => count == 1,
    }
}
