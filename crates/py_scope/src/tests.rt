use crate::accepting::{accept, accept_expr};
use crate::ending::AcceptEnd;
use crate::facts::Facts;
use crate::scopes::handler_names;
use py_ast::FunctionInfo;
use py_mentions::{Form, Mention};
use rp_base::{NoMemory, Refused, Rule, Text};
use sqlite_items::Items;
use std::alloc::{AllocError, Global};
use std::test::Fail;

/// A mention on each line: the name, its function (0 where it stands at the top, else one more than the number), the form.
type Row = (&'static str, u32, Form);

fn mention(alloc: Global, line: u32, row: &Row) -> Result<Mention, NoMemory> {
    let (name, function, form) = row;
    Ok(Mention {
        name: Text::from_str(alloc, *name)?,
        line,
        function: function.checked_sub(1),
        form: *form,
        is_guarded: false,
        class: None,
    })
}

fn mentions(alloc: Global, rows: &[Row]) -> Result<Items<Mention>, NoMemory> {
    let mut mentions = Items::new(alloc);
    let mut line = 1u32;
    for row in rows {
        mentions.push(mention(alloc, line, row)?)?;
        line = line.saturating_add(1);
    }
    Ok(mentions)
}

/// Functions, each inside the one before.
fn functions(alloc: Global, count: u32) -> Result<Items<FunctionInfo>, NoMemory> {
    let mut functions = Items::new(alloc);
    for number in 0..count {
        functions.push(FunctionInfo {
            name: Text::from_str(alloc, "f")?,
            parameters: Items::new(alloc),
            locals: Items::new(alloc),
            free: Items::new(alloc),
            has_inner: false,
            parent: number.checked_sub(1),
            body: 0,
        })?;
    }
    Ok(functions)
}

fn refused(alloc: Global, rows: &[Row], count: u32) -> Result<Option<Refused>, NoMemory> {
    let mentions = mentions(alloc, rows)?;
    let functions = functions(alloc, count)?;
    let facts = Facts::of(alloc, mentions.as_slice(), functions.as_slice())?;
    facts.judge_all(alloc, None)
}

#[test]
fn rules_on_names(rt: HostRuntime) -> Result<(), Fail> {
    let alloc = rt.alloc();
    let rows: [(&[Row], u32, Option<(u32, Rule)>); 12] = [
        (&[("len", 0, Form::Read), ("x", 0, Form::Target)], 0, None),
        (
            &[("x", 0, Form::Target), ("len", 0, Form::Target)],
            0,
            Some((2, Rule::S1)),
        ),
        (
            &[("map", 0, Form::Attribute), ("OSError", 0, Form::Exception)],
            0,
            Some((2, Rule::S1)),
        ),
        (
            &[("e", 0, Form::Raised), ("x", 0, Form::Target)],
            0,
            Some((1, Rule::S2)),
        ),
        (
            &[("KeyError", 0, Form::Raised), ("__x", 0, Form::Attribute)],
            0,
            Some((2, Rule::S4)),
        ),
        (
            &[
                ("__init__", 0, Form::Method(1)),
                ("__len__", 0, Form::Method(2)),
            ],
            0,
            Some((2, Rule::S4)),
        ),
        (
            &[("e", 0, Form::Attribute), ("e", 0, Form::Caught)],
            0,
            Some((1, Rule::S6)),
        ),
        (&[("x", 1, Form::Global), ("x", 1, Form::Target)], 1, None),
        (
            &[("x", 1, Form::Read), ("x", 1, Form::Global)],
            1,
            Some((2, Rule::S11)),
        ),
        (
            &[("x", 0, Form::Global), ("x", 0, Form::Target)],
            0,
            Some((1, Rule::S11)),
        ),
        (&[("x", 1, Form::Target), ("x", 2, Form::Nonlocal)], 2, None),
        (
            &[("x", 1, Form::Global), ("x", 2, Form::Nonlocal)],
            2,
            Some((2, Rule::S11)),
        ),
    ];
    for (row, count, wanted) in rows {
        let wanted = wanted.map(|(line, rule)| Refused { line, rule });
        assert_eq!(rt; refused(alloc, row, count)?, wanted);
    }
    Ok(())
}

fn has_names(set: &[Text], names: &[&str]) -> bool {
    if set.len() != names.len() {
        return false;
    }
    for i in 0..names.len() {
        if set[i].as_str() != names[i] {
            return false;
        }
    }
    true
}

fn keeps(function: Option<&FunctionInfo>, locals: &[&str], free: &[&str], has_inner: bool) -> bool {
    match function {
        None => false,
        Some(info) => {
            has_names(info.locals.as_slice(), locals)
                && has_names(info.free.as_slice(), free)
                && info.has_inner == has_inner
        }
    }
}

#[test]
fn names_that_functions_keep(rt: HostRuntime) -> Result<(), Fail> {
    let alloc = rt.alloc();
    let rows: [Row; 11] = [
        ("f", 0, Form::Function),
        ("b", 1, Form::Read),
        ("a", 1, Form::Target),
        ("b", 1, Form::Target),
        ("e", 1, Form::Caught),
        ("g", 1, Form::Function),
        ("c", 2, Form::Target),
        ("b", 3, Form::Read),
        ("c", 3, Form::Nonlocal),
        ("c", 3, Form::Target),
        ("b", 3, Form::Read),
    ];
    let mentions = mentions(alloc, &rows)?;
    let functions = functions(alloc, 3)?;
    let facts = Facts::of(alloc, mentions.as_slice(), functions.as_slice())?;
    let finished = facts.finished(alloc)?;
    let functions = finished.as_slice();
    assert!(rt; keeps(functions.get(0), &["a", "b", "g"], &[], true));
    assert!(rt; keeps(functions.get(1), &["c"], &["b"], true));
    assert!(rt; keeps(functions.get(2), &[], &["b", "c"], false));
    let handlers = handler_names(alloc, mentions.as_slice())?.texts(alloc)?;
    assert!(rt; has_names(handlers.as_slice(), &["e"]));
    Ok(())
}

/// What a text is refused for.
fn refusal(alloc: Global, text: &[u8]) -> Option<AcceptEnd> {
    match accept(alloc, text) {
        Ok(_) => None,
        Err(end) => Some(end),
    }
}

#[test]
fn refused_texts(rt: HostRuntime) -> Result<(), Fail> {
    let texts: [(&[u8], u32, Rule); 26] = [
        (b"x\n\ty", 2, Rule::L1),
        (b"if x:\n  y\n z", 3, Rule::L2),
        (b"x $ y", 1, Rule::L3),
        (b"x = 01", 1, Rule::L4),
        (
            b"abcdefghijklmnopqrstuvwxyzabcdefghijklmnopqrstuvwxyzabcdefghijklm",
            1,
            Rule::L5,
        ),
        (b"x = 1\ny = '\xff'", 2, Rule::L6),
        (b"$\n\xff", 1, Rule::L3),
        (b"x = (", 1, Rule::P1),
        (b"x\nwith x:", 2, Rule::P2),
        (b"x = 1\nlen = 1", 2, Rule::S1),
        (b"x = len", 1, Rule::S2),
        (b"raise oops", 1, Rule::S2),
        (b"len()", 1, Rule::S3),
        (b"x.__y", 1, Rule::S4),
        (b"class A:\n def __init__():\n  pass", 2, Rule::S4),
        (b"a = [1]\nb = [1]\nprint(a is b)", 3, Rule::S5),
        (b"try:\n x = 1\nexcept KeyError as e:\n x = e", 4, Rule::S6),
        (b"raise StopIteration(1)", 1, Rule::S7),
        (b"class A(A):\n pass", 1, Rule::S8),
        (
            b"class A:\n pass\ndef A():\n pass\nclass B(A):\n pass",
            5,
            Rule::S8,
        ),
        (
            b"class A:\n def __eq__(self, x):\n  return 1\nclass B(A):\n pass",
            1,
            Rule::S8,
        ),
        (b"class A:\n print(1)", 2, Rule::S9),
        (b"return 1", 1, Rule::S10),
        (b"def f():\n x = 1\n global x", 3, Rule::S11),
        (
            b"def f():\n x = 1\n def g():\n  global x\n  def h():\n   nonlocal x",
            6,
            Rule::S11,
        ),
        (b"def f(a,\n a):\n pass", 2, Rule::S12),
    ];
    for (text, line, rule) in texts {
        let refused = AcceptEnd::Refused(Refused { line, rule });
        assert_eq!(rt; refusal(rt.alloc(), text), Some(refused));
    }
    Ok(())
}

#[test]
fn accepted_texts(rt: HostRuntime) -> Result<(), Fail> {
    let texts: [&[u8]; 11] = [
        b"",
        b"x = len('a')\nx.next()",
        b"try:\n x = 1\nexcept KeyError as e:\n raise e",
        b"try:\n x = 1\nexcept (KeyError, TypeError) as e:\n x = str(e)",
        b"class A:\n def __init__(self):\n  self.x = 1\n def __eq__(self, x):\n  return 1",
        b"print(x is None)",
        b"raise StopIteration",
        b"class B:\n x = 1\nclass A(B):\n 'a text'\n pass",
        b"def f():\n while 1:\n  break\n return 1",
        b"def f():\n x = 1\n def g():\n  nonlocal x\n  x = 2",
        b"def f(a, b):\n global c\n c = a",
    ];
    for text in texts {
        assert_eq!(rt; refusal(rt.alloc(), text), None);
    }
    let expression = accept_expr(rt.alloc(), b"(x + 1, len('a'))")?;
    assert!(rt; expression.is_expression && expression.functions.is_empty());
    assert!(rt; accept_expr(rt.alloc(), b"x = 1").is_err());
    Ok(())
}

/// `many` between two parts, so many times.
fn repeated(
    alloc: Global,
    front: &str,
    many: &str,
    times: u32,
    back: &str,
) -> Result<Vec<u8>, AllocError> {
    let mut text = Vec::from_slice(alloc, front.as_bytes())?;
    for _time in 0..times {
        text.extend_from_slice(many.as_bytes())?;
    }
    text.extend_from_slice(back.as_bytes())?;
    Ok(text)
}

#[test]
fn limits_of_the_grammar(rt: HostRuntime) -> Result<(), Fail> {
    let texts: [(&str, &str, u32, &str, Option<Rule>); 4] = [
        ("", "(", 100, "x", Some(Rule::P1)),
        ("", "(", 101, "x", Some(Rule::P3)),
        ("f(", "0,", 255, ")", None),
        ("f(", "0,", 255, "0)", Some(Rule::P4)),
    ];
    for (front, many, times, back, rule) in texts {
        let text = repeated(rt.alloc(), front, many, times, back)?;
        let wanted = rule.map(|rule| AcceptEnd::Refused(Refused { line: 1, rule }));
        assert_eq!(rt; refusal(rt.alloc(), text.as_slice()), wanted);
    }
    Ok(())
}
