use py_plain::{
    PlainEnd, plain_binary, plain_compare, plain_repr, plain_str, plain_truth, plain_unary,
};
use rp_base::BinaryOp::{Add, And, Div, FloorDiv, Mod, Mul, Or, Pow, Shl, Shr, Sub, Xor};
use rp_base::CmpOp::{Eq, Ge, Gt, Le, Lt, Ne};
use rp_base::UnaryOp::{Invert, Neg, Pos};
use rp_base::{BinaryOp, Blob, CmpOp, Plain, Text, UnaryOp};
use sqlite_items::Items;
use std::alloc::Global;
use std::test::Fail;

/// What stands in a row of a table for a value that is no tuple.
#[derive(Clone, Copy)]
enum Atom {
    Nil,
    Bool(bool),
    Int(i128),
    Str(&'static str),
    Raw(&'static str),
    NotImpl,
    Dots,
}

/// What stands there for any value: a tuple has up to two items.
#[derive(Clone, Copy)]
enum Item {
    Atom(Atom),
    Zero,
    One(Atom),
    Two(Atom, Atom),
}

use Atom::{Bool, Dots, Int, Nil, NotImpl, Raw, Str};
use Item::{One, Two, Zero};

fn of_atom(alloc: Global, atom: Atom) -> Result<Plain, Fail> {
    match atom {
        Atom::Nil => Ok(Plain::None),
        Atom::Bool(b) => Ok(Plain::Bool(b)),
        Atom::Int(n) => Ok(Plain::Int(n)),
        Atom::Str(s) => Ok(Plain::Text(Text::from_str(alloc, s)?)),
        Atom::Raw(s) => Ok(Plain::Bytes(Blob::from_vec(s.as_bytes().to_vec(alloc)?))),
        Atom::NotImpl => Ok(Plain::NotImpl),
        Atom::Dots => Ok(Plain::Ellipsis),
    }
}

fn value(alloc: Global, item: Item) -> Result<Plain, Fail> {
    let mut items = Items::new(alloc);
    match item {
        Item::Atom(atom) => return of_atom(alloc, atom),
        Item::Zero => {}
        Item::One(a) => items.push(of_atom(alloc, a)?)?,
        Item::Two(a, b) => {
            items.push(of_atom(alloc, a)?)?;
            items.push(of_atom(alloc, b)?)?;
        }
    }
    Ok(Plain::Tuple(items))
}

/// The repr of a value, the class and the text of an exception, or the kind beyond the subset.
fn shown(alloc: Global, answer: Result<Plain, PlainEnd>) -> Result<String, Fail> {
    let mut out = String::new(alloc);
    let printed = match answer {
        Ok(value) => plain_repr(&value, u64::MAX, &mut out),
        Err(PlainEnd::Beyond(kind)) => return Ok(String::from_str(alloc, kind.text())?),
        Err(PlainEnd::Raise(raised)) => {
            out.push_str(raised.kind.text())?;
            out.push_str(": ")?;
            match raised.args.get(0) {
                Some(arg) => plain_str(arg, u64::MAX, &mut out),
                None => Ok(()),
            }
        }
        Err(PlainEnd::NoMemory) => Err(PlainEnd::NoMemory),
    };
    printed.ok().ok_or("the answer is printed")?;
    Ok(out)
}

/// What `a op b` gives.
fn binary(alloc: Global, a: Item, op: BinaryOp, b: Item) -> Result<String, Fail> {
    shown(
        alloc,
        plain_binary(alloc, op, &value(alloc, a)?, &value(alloc, b)?),
    )
}

/// What the comparison gives.
fn compared(alloc: Global, a: Item, op: CmpOp, b: Item) -> Result<String, Fail> {
    match plain_compare(alloc, op, &value(alloc, a)?, &value(alloc, b)?) {
        Ok(holds) => shown(alloc, Ok(Plain::Bool(holds))),
        Err(end) => shown(alloc, Err(end)),
    }
}

const TOP: i128 = i128::MAX;

const LOW: i128 = i128::MIN;

const DIVIDED: &str = "ZeroDivisionError: division by zero";

const REFUSED: &str = "TypeError: unsupported operand";

const NO_ORDER: &str = "TypeError: no order";

const INTS: [(i128, BinaryOp, i128, &str); 23] = [
    (TOP, Add, 0, "170141183460469231731687303715884105727"),
    (TOP, Add, 1, "Int"),
    (LOW, Sub, 1, "Int"),
    (
        1 << 63,
        Mul,
        -(1 << 64),
        "-170141183460469231731687303715884105728",
    ),
    (1 << 63, Mul, 1 << 64, "Int"),
    (LOW, FloorDiv, -1, "Int"),
    (-7, FloorDiv, 2, "-4"),
    (-7, Mod, 2, "1"),
    (7, Mod, -2, "-1"),
    (7, Mod, 0, DIVIDED),
    (-2, Pow, 127, "-170141183460469231731687303715884105728"),
    (2, Pow, 127, "Int"),
    (2, Pow, -1, "Float"),
    (0, Pow, -1, DIVIDED),
    (1, Div, 2, "Float"),
    (1, Div, 0, DIVIDED),
    (1, Shl, 126, "85070591730234615865843651857942052864"),
    (1, Shl, 127, "Int"),
    (1, Shl, -1, "ValueError: negative shift count"),
    (-1, Shr, 200, "-1"),
    (6, And, 3, "2"),
    (6, Or, 3, "7"),
    (-1, Xor, 5, "-6"),
];

#[test]
fn ints_at_the_ends_of_128_bits(rt: HostRuntime) -> Result<(), Fail> {
    for (a, op, b, wanted) in INTS {
        let answer = binary(rt.alloc(), Item::Atom(Int(a)), op, Item::Atom(Int(b)))?;
        assert_eq!(rt; answer.as_str(), wanted);
    }
    Ok(())
}

const OTHERS: [(Item, BinaryOp, Item, &str); 29] = [
    (Item::Atom(Bool(true)), Add, Item::Atom(Bool(true)), "2"),
    (
        Item::Atom(Bool(true)),
        And,
        Item::Atom(Bool(false)),
        "False",
    ),
    (Item::Atom(Bool(false)), Or, Item::Atom(Bool(true)), "True"),
    (Item::Atom(Bool(true)), Xor, Item::Atom(Bool(true)), "False"),
    (Item::Atom(Bool(true)), And, Item::Atom(Int(3)), "1"),
    (Item::Atom(Str("ab")), Mul, Item::Atom(Int(3)), "'ababab'"),
    (Item::Atom(Int(2)), Mul, Item::Atom(Raw("ab")), "b'abab'"),
    (
        Two(Int(1), Str("a")),
        Mul,
        Item::Atom(Int(2)),
        "(1, 'a', 1, 'a')",
    ),
    (Item::Atom(Bool(true)), Mul, Item::Atom(Str("ab")), "'ab'"),
    (Item::Atom(Raw("ab")), Mul, Item::Atom(Int(-1)), "b''"),
    (One(Nil), Mul, Item::Atom(Int(0)), "()"),
    (
        Item::Atom(Str("")),
        Mul,
        Item::Atom(Int((1 << 63) - 1)),
        "''",
    ),
    (Item::Atom(Str("")), Mul, Item::Atom(Int(1 << 63)), "Int"),
    (One(Nil), Mul, Item::Atom(Int(-(1 << 63))), "()"),
    (One(Nil), Mul, Item::Atom(Int(-(1 << 63) - 1)), "Int"),
    (Zero, Mul, Item::Atom(Int((1 << 63) - 1)), "()"),
    (Item::Atom(Str("a")), Mul, Item::Atom(Int(1 << 20)), "Size"),
    (One(Nil), Mul, Item::Atom(Int(1 << 20)), "Size"),
    (Item::Atom(Str("a")), Add, Item::Atom(Str("b")), "'ab'"),
    (Item::Atom(Raw("a")), Add, Item::Atom(Raw("b")), "b'ab'"),
    (Two(Int(1), Str("a")), Add, One(Nil), "(1, 'a', None)"),
    (Item::Atom(Str("a")), Add, Item::Atom(Raw("b")), REFUSED),
    (Item::Atom(Str("a")), Mul, Item::Atom(Str("b")), REFUSED),
    (Item::Atom(Str("%s")), Mod, Item::Atom(Int(1)), "Operator"),
    (Item::Atom(Raw("")), Mod, Item::Atom(Nil), "Operator"),
    (Item::Atom(Int(5)), Mod, Item::Atom(Str("a")), REFUSED),
    (One(Nil), Mod, Item::Atom(Int(2)), REFUSED),
    (Item::Atom(Nil), Mul, Item::Atom(Int(1 << 100)), REFUSED),
    (Item::Atom(NotImpl), Sub, Item::Atom(Dots), REFUSED),
];

#[test]
fn bools_texts_bytes_and_tuples(rt: HostRuntime) -> Result<(), Fail> {
    for (a, op, b, wanted) in OTHERS {
        assert_eq!(rt; binary(rt.alloc(), a, op, b)?.as_str(), wanted);
    }
    Ok(())
}

const SIGNS: [(UnaryOp, Atom, &str); 5] = [
    (Neg, Bool(true), "-1"),
    (Pos, Bool(false), "0"),
    (Invert, Int(TOP), "-170141183460469231731687303715884105728"),
    (Neg, Int(LOW), "Int"),
    (Neg, Nil, REFUSED),
];

#[test]
fn one_operand(rt: HostRuntime) -> Result<(), Fail> {
    let alloc = rt.alloc();
    for (op, a, wanted) in SIGNS {
        let answer = plain_unary(alloc, op, &of_atom(alloc, a)?);
        assert_eq!(rt; shown(alloc, answer)?.as_str(), wanted);
    }
    Ok(())
}

#[test]
fn the_heaviest_text(rt: HostRuntime) -> Result<(), Fail> {
    let alloc = rt.alloc();
    let line = of_atom(alloc, Str("0123456789abcdefghijklmno"))?;
    let piece = plain_binary(alloc, Mul, &line, &Plain::Int(41))
        .ok()
        .ok_or("1,025 bytes")?;
    let heaviest = plain_binary(alloc, Mul, &piece, &Plain::Int(1023))
        .ok()
        .ok_or("2^20 - 1 bytes")?;
    assert_eq!(rt; heaviest.weight(), 1 << 20);
    let more = plain_binary(alloc, Add, &heaviest, &of_atom(alloc, Str("a"))?);
    assert_eq!(rt; shown(alloc, more)?.as_str(), "Size");
    let same = plain_binary(alloc, Add, &heaviest, &of_atom(alloc, Str(""))?);
    assert!(rt; same.is_ok());
    Ok(())
}

const ORDERS: [(Item, CmpOp, Item, &str); 18] = [
    (Item::Atom(Bool(true)), Lt, Item::Atom(Int(2)), "True"),
    (Item::Atom(Int(0)), Ge, Item::Atom(Bool(false)), "True"),
    (Item::Atom(Str("Z")), Lt, Item::Atom(Str("a")), "True"),
    (
        Item::Atom(Str("\u{ffff}")),
        Lt,
        Item::Atom(Str("\u{10000}")),
        "True",
    ),
    (Item::Atom(Str("ab")), Le, Item::Atom(Str("a")), "False"),
    (Item::Atom(Raw("a")), Lt, Item::Atom(Raw("ab")), "True"),
    (One(Int(1)), Lt, Two(Int(1), Int(2)), "True"),
    (One(Int(2)), Lt, Two(Int(1), Int(5)), "False"),
    (Two(Nil, Int(1)), Lt, Two(Nil, Int(2)), "True"),
    (Two(Int(1), Nil), Gt, Two(Bool(true), Int(2)), NO_ORDER),
    (Two(Int(1), Nil), Gt, Two(Int(0), Str("")), "True"),
    (One(Nil), Le, One(Nil), "True"),
    (One(Nil), Lt, One(Nil), "False"),
    (Item::Atom(Nil), Le, Item::Atom(Nil), NO_ORDER),
    (Item::Atom(Int(1)), Lt, Item::Atom(Str("a")), NO_ORDER),
    (Item::Atom(Str("a")), Eq, Item::Atom(Raw("a")), "False"),
    (One(Int(1)), Eq, One(Bool(true)), "True"),
    (Item::Atom(NotImpl), Ne, Item::Atom(NotImpl), "False"),
];

#[test]
fn values_are_compared(rt: HostRuntime) -> Result<(), Fail> {
    for (a, op, b, wanted) in ORDERS {
        assert_eq!(rt; compared(rt.alloc(), a, op, b)?.as_str(), wanted);
    }
    Ok(())
}

const TRUTHS: [(Item, Option<bool>); 11] = [
    (Item::Atom(Nil), Some(false)),
    (Item::Atom(Bool(true)), Some(true)),
    (Item::Atom(Int(0)), Some(false)),
    (Item::Atom(Int(-1)), Some(true)),
    (Item::Atom(Str("")), Some(false)),
    (Item::Atom(Str("0")), Some(true)),
    (Item::Atom(Raw("")), Some(false)),
    (Zero, Some(false)),
    (One(Nil), Some(true)),
    (Item::Atom(Dots), Some(true)),
    (Item::Atom(NotImpl), None),
];

#[test]
fn truths(rt: HostRuntime) -> Result<(), Fail> {
    for (a, wanted) in TRUTHS {
        assert_eq!(rt; plain_truth(&value(rt.alloc(), a)?).ok(), wanted);
    }
    Ok(())
}

#[test]
fn values_are_printed(rt: HostRuntime) -> Result<(), Fail> {
    let alloc = rt.alloc();
    let mut items = Items::new(alloc);
    items.push(value(alloc, One(Str("it's")))?)?;
    items.push(value(alloc, Two(Raw("\0'\""), Dots))?)?;
    let nested = Plain::Tuple(items);
    let mut out = String::from_str(alloc, "x")?;
    assert!(rt;
        plain_str(&of_atom(alloc, Str("it's\n"))?, 6, &mut out).is_ok() && out.as_str() == "xit's\n"
    );
    assert!(rt;
        plain_str(&of_atom(alloc, Str("a"))?, 6, &mut out).is_err() && out.as_str() == "xit's\n"
    );
    assert!(rt; matches!(plain_repr(&nested, 40, &mut out), Err(PlainEnd::Beyond(_))));
    assert_eq!(rt; out.as_str(), "xit's\n");
    assert!(rt; plain_repr(&nested, 41, &mut out).is_ok());
    assert_eq!(rt;
        out.as_str(),
        "xit's\n((\"it's\",), (b'\\x00\\'\"', Ellipsis))"
    );
    Ok(())
}
