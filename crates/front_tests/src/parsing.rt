use py_lexer::tokens;
use py_parser::{ParseEnd, parse, parse_expr};
use rp_base::{Refused, Rule};
use std::alloc::Global;
use std::test::Fail;

/// A text, and its refusal if it has one.
type Row = (&'static str, Option<(u32, Rule)>);

const SCRIPTS: [Row; 24] = [
    ("", None),
    ("x = 1, 2\nx[0], y.z = f(x,)[()]\n", None),
    (
        "if a < b is not c:\n  pass\nelif not a: return\nelse:\n  raise E(1)\n",
        None,
    ),
    ("for f(x).a, b in y: del b[0]\n", None),
    (
        "try:\n  x\nexcept (A, B) as e:\n  y\nexcept: z\nfinally: w\n",
        None,
    ),
    (
        "def f(a, b,):\n  return lambda: a ** -b if a else b\n",
        None,
    ),
    ("class C(D):\n  x = {1: 2, 3: 4,}\n\nx //= 2", None),
    ("f(x) = 1\n", Some((1, Rule::P2))),
    ("(a) = 1\n", Some((1, Rule::P2))),
    ("a, b += 1\n", Some((1, Rule::P1))),
    ("f(,)\n", Some((1, Rule::P1))),
    ("y\nx = (\n\n", Some((3, Rule::P1))),
    ("a if b\n", Some((1, Rule::P1))),
    ("a = b = c\n", Some((1, Rule::P2))),
    ("for f(x) in y: pass\n", Some((1, Rule::P1))),
    ("del x\n", Some((1, Rule::P1))),
    ("lambda a, : a\n", Some((1, Rule::P2))),
    ("x = 'a' 'b'\n", Some((1, Rule::P2))),
    ("\n\nimport x\n", Some((3, Rule::P2))),
    ("x;\n", Some((1, Rule::P2))),
    ("if x:\n", Some((1, Rule::P1))),
    ("  x\n", Some((1, Rule::P1))),
    ("f(*x)\n", Some((1, Rule::P2))),
    ("1 2\n", Some((1, Rule::P1))),
];

const EXPRESSIONS: [Row; 4] = [
    ("# one\n\n(a,\n b)\n", None),
    ("1, 2", Some((1, Rule::P1))),
    ("", Some((1, Rule::P1))),
    ("x = 1", Some((1, Rule::P2))),
];

fn refusal(alloc: Global, text: &str, is_expression: bool) -> Result<Option<(u32, Rule)>, Fail> {
    if text.len() > 1_048_576 {
        return Ok(None);
    }
    let tokens = tokens(alloc, text)?;
    let parsed = if is_expression {
        parse_expr(alloc, tokens.as_slice(), text)
    } else {
        parse(alloc, tokens.as_slice(), text)
    };
    match parsed {
        Ok(_) => Ok(None),
        Err(ParseEnd::Refused(Refused { line, rule })) => Ok(Some((line, rule))),
        Err(end) => Err(Fail::from(end)),
    }
}

#[test]
fn scripts_and_their_refusals(rt: HostRuntime) -> Result<(), Fail> {
    for (text, expected) in &SCRIPTS {
        assert_eq!(rt; refusal(rt.alloc(), text, false)?, *expected);
    }
    Ok(())
}

#[test]
fn expressions_and_their_refusals(rt: HostRuntime) -> Result<(), Fail> {
    for (text, expected) in &EXPRESSIONS {
        assert_eq!(rt; refusal(rt.alloc(), text, true)?, *expected);
    }
    Ok(())
}
