ghost use Rattle.std.specs.Prelude.{◌≡◌};
ghost use Rattle.language_rules.specs.Exceptions.{bases_of, catches, exception_named, names_of, names_one};
ghost use Rattle.language_rules.specs.Texts.{has_name};

use py_ast::Name;
use rp_base::ExcKind;

/// The class of exceptions that has this name.
#[tactic(auto, using(crate::proofs::ClassNames::class_of))]
pub(crate) fn class_named(name: &str) -> Option<ExcKind>
    ensures { result ≡ exception_named name.now }
{
    py_mentions::exception_named(name.as_bytes())
}

/// Whether a handler that names these classes takes an exception of this class: of one of them or of one below it, and
/// any exception where it names none (Python Language Reference, "The try statement").
pub(crate) fn catches(kinds: &[Name], kind: ExcKind) -> bool
    ensures { result ≡ catches kinds.now kind }
{
    match kinds {
        [] => true,
        _ => names_one(kinds, kind),
    }
}

fn names_one(kinds: &[Name], kind: ExcKind) -> bool
    ensures { result ≡ names_one kinds.now kind }
{
    for name in kinds {
        if is_within(name.text.as_str(), kind) {
            return true;
        }
    }
    false
}

/// Whether this is the name of the class or of one above it.
fn is_within(name: &str, kind: ExcKind) -> bool
    ensures { result ≡ has_name name.now (names_of kind) }
{
    if name == kind.text() {
        return true;
    }
    let bases = bases_of(kind);
    for base in bases {
        if name == base.text() {
            return true;
        }
    }
    false
}

/// The classes above each class, the nearest first (Python Library Reference, "Exception hierarchy").
fn bases_of(kind: ExcKind) -> &'static [ExcKind]
    ensures { result.now ≡ bases_of kind }
{
    match kind {
        ExcKind::Exception => &[],
        ExcKind::ZeroDivisionError => &[ExcKind::ArithmeticError, ExcKind::Exception],
        ExcKind::OverflowError => &[ExcKind::ArithmeticError, ExcKind::Exception],
        ExcKind::ModuleNotFoundError => &[ExcKind::ImportError, ExcKind::Exception],
        ExcKind::IndexError => &[ExcKind::LookupError, ExcKind::Exception],
        ExcKind::KeyError => &[ExcKind::LookupError, ExcKind::Exception],
        ExcKind::UnboundLocalError => &[ExcKind::NameError, ExcKind::Exception],
        ExcKind::NotImplementedError => &[ExcKind::RuntimeError, ExcKind::Exception],
        _ => &[ExcKind::Exception],
    }
}
