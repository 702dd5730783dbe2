ghost use Rattle.std.specs.Prelude.{◌≡◌, map};
ghost use Rattle.py_scope.specs.Words.{is_one_of, is_reserved, has_ending, begins_with_capital, is_other_exception, is_listed, is_left_out, is_private, takes_key, is_operator, is_special};

use py_ast::Builtin;
use py_mentions::is_exception;

const LEFT_OUT: [&[u8]; 59] = [
    b"aiter",
    b"all",
    b"anext",
    b"any",
    b"ascii",
    b"bin",
    b"breakpoint",
    b"bytearray",
    b"bytes",
    b"callable",
    b"classmethod",
    b"compile",
    b"complex",
    b"copyright",
    b"credits",
    b"delattr",
    b"dir",
    b"divmod",
    b"enumerate",
    b"eval",
    b"exec",
    b"exit",
    b"filter",
    b"float",
    b"format",
    b"frozenset",
    b"getattr",
    b"globals",
    b"hasattr",
    b"hash",
    b"help",
    b"hex",
    b"id",
    b"input",
    b"isinstance",
    b"issubclass",
    b"iter",
    b"license",
    b"locals",
    b"map",
    b"memoryview",
    b"next",
    b"object",
    b"oct",
    b"open",
    b"pow",
    b"property",
    b"quit",
    b"reversed",
    b"round",
    b"set",
    b"setattr",
    b"slice",
    b"staticmethod",
    b"super",
    b"type",
    b"vars",
    b"zip",
    b"Ellipsis",
];

/// How the names of Python's exception classes end.
const ENDINGS: [&[u8]; 7] = [
    b"Error",
    b"Warning",
    b"Exit",
    b"Interrupt",
    b"Exception",
    b"Group",
    b"Iteration",
];

/// The methods for comparisons and for arithmetic.
const OPERATORS: [&[u8]; 10] = [
    b"__eq__",
    b"__lt__",
    b"__le__",
    b"__gt__",
    b"__ge__",
    b"__add__",
    b"__sub__",
    b"__mul__",
    b"__floordiv__",
    b"__mod__",
];

/// Special methods with no parameter but the receiver.
const OF_RECEIVER: [&[u8]; 7] = [
    b"__str__",
    b"__repr__",
    b"__len__",
    b"__bool__",
    b"__neg__",
    b"__iter__",
    b"__next__",
];

/// Special methods with a key or an item besides the receiver.
const OF_KEY: [&[u8]; 3] = [b"__getitem__", b"__delitem__", b"__contains__"];

fn is_one_of(words: &[&[u8]], name: &[u8]) -> bool
    ensures { result ≡ is_one_of (map (λ w. w.now) words.now) name.now }
{
    for word in words {
        if name == *word {
            return true;
        }
    }
    false
}

/// Whether the name is one that no script may bind: a builtin's, an exception class's or `NotImplemented`.
#[tactic(auto, unfolding(crate::specs::Words::is_reserved, crate::specs::Words::is_builtin))]
pub(crate) fn is_reserved(name: &str) -> bool
    ensures { result ≡ is_reserved name.now }
{
    Builtin::from_name(name.as_bytes()).is_some()
        || is_exception(name.as_bytes())
        || name == "NotImplemented"
}

fn has_ending(words: &[&[u8]], name: &[u8]) -> bool
    ensures { result ≡ has_ending (map (λ w. w.now) words.now) name.now }
{
    for word in words {
        if name.ends_with(word) {
            return true;
        }
    }
    false
}

fn begins_with_capital(name: &[u8]) -> bool
    ensures { result ≡ begins_with_capital name.now }
{
    matches!(name, [b'A'..=b'Z', ..])
}

/// Whether the name is spelled as that of an exception class, and no exception class of the language has it.
#[tactic(auto, unfolding(crate::specs::Words::is_other_exception))]
fn is_other_exception(name: &[u8]) -> bool
    ensures { result ≡ is_other_exception name.now }
{
    begins_with_capital(name) && has_ending(&ENDINGS, name) && !is_exception(name)
}

#[tactic(auto, unfolding(crate::specs::Words::is_listed))]
fn is_listed(name: &[u8]) -> bool
    ensures { result ≡ is_listed name.now }
{
    is_one_of(&LEFT_OUT, name)
}

/// Whether the name is one of Python that is left out.
pub(crate) fn is_left_out(name: &str) -> bool
    ensures { result ≡ is_left_out name.now }
{
    is_listed(name.as_bytes()) || is_other_exception(name.as_bytes())
}

/// Whether the name begins with two underscores.
pub(crate) fn is_private(name: &str) -> bool
    ensures { result ≡ is_private name.now }
{
    name.as_bytes().starts_with(b"__")
}

/// Whether a method of this name stands for a comparison or for arithmetic.
#[tactic(auto, unfolding(crate::specs::Words::is_operator))]
pub(crate) fn is_operator(name: &str) -> bool
    ensures { result ≡ is_operator name.now }
{
    is_one_of(&OPERATORS, name.as_bytes())
}

/// Whether a method of this name is a special method with one parameter besides the receiver.
#[tactic(auto, unfolding(crate::specs::Words::takes_key))]
fn takes_key(name: &str) -> bool
    ensures { result ≡ takes_key name.now }
{
    is_operator(name) || is_one_of(&OF_KEY, name.as_bytes())
}

/// Whether a method of this name with so many parameters, the receiver among them, is a special method.
#[tactic(auto, unfolding(crate::specs::Words::is_special))]
pub(crate) fn is_special(name: &str, count: usize) -> bool
    ensures { result ≡ is_special name.now count }
{
    if name == "__init__" {
        count > 0
    } else if name == "__setitem__" {
        count == 3
    } else if takes_key(name) {
        count == 2
    } else {
        count == 1 && is_one_of(&OF_RECEIVER, name.as_bytes())
    }
}
