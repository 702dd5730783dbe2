ghost use Rattle.std.specs.Prelude.{◌≡◌, slice_get};
ghost use Rattle.py_mentions.specs.Surroundings.{catches, class_at, function_at, is_caught, may_break, may_raise, may_return};

use crate::place::Construct;
use py_ast::{Node, Program, Statement};

/// The innermost function.
pub fn function_at(constructs: &[Construct]) -> Option<u32>
    ensures { result ≡ function_at constructs.now }
{
    let mut function = None;
    for construct in constructs {
        if let Construct::Function(number) = construct {
            function = Some(*number);
        }
    }
    function
}

/// The suite of the class body whose names are seen: a function hides it.
pub fn class_at(constructs: &[Construct]) -> Option<u32>
    ensures { result ≡ class_at constructs.now }
{
    let mut class = None;
    for construct in constructs {
        match construct {
            Construct::Function(_) => class = None,
            Construct::Class(suite) => class = Some(*suite),
            _ => {}
        }
    }
    class
}

/// Whether a `return` may stand there.
pub fn may_return(constructs: &[Construct]) -> bool
    ensures { result ≡ may_return constructs.now }
{
    let mut may = false;
    for construct in constructs {
        match construct {
            Construct::Function(_) => may = true,
            Construct::Class(_) | Construct::Finally => may = false,
            _ => {}
        }
    }
    may
}

/// Whether a `break` or `continue` may stand there.
pub fn may_break(constructs: &[Construct]) -> bool
    ensures { result ≡ may_break constructs.now }
{
    let mut may = false;
    for construct in constructs {
        match construct {
            Construct::Loop => may = true,
            Construct::Handler(_) => {}
            Construct::Function(_) | Construct::Class(_) | Construct::Finally => may = false,
        }
    }
    may
}

/// Whether a bare `raise` may stand there.
pub fn may_raise(constructs: &[Construct]) -> bool
    ensures { result ≡ may_raise constructs.now }
{
    let mut may = false;
    for construct in constructs {
        match construct {
            Construct::Handler(_) => may = true,
            Construct::Function(_) => may = false,
            _ => {}
        }
    }
    may
}

/// Whether a handler of this name stands around, with no function in between.
pub fn is_caught(program: &Program, name: &[u8], constructs: &[Construct]) -> bool
    ensures { result ≡ is_caught program.now name.now constructs.now }
{
    let mut is_caught = false;
    for construct in constructs {
        match construct {
            Construct::Handler(handler) => is_caught = catches(program, name, *handler)
                || is_caught,
            Construct::Function(_) => is_caught = false,
            _ => {}
        }
    }
    is_caught
}

/// Whether this node is a handler that binds the name.
fn catches(program: &Program, name: &[u8], handler: u32) -> bool
    ensures { result ≡ catches name.now (slice_get program.now.nodes handler) }
{
    match program.nodes.get(handler as usize) {
        Some(
            Node::Statement(
                Statement::Except {
                    name: Some(bound),
                    ..
                },
            ),
        ) => name == bound.text.as_str().as_bytes(),
        _ => false,
    }
}
