use item_sorting::sorted_items;
use py_plain::plain_repr;
use py_store::Values;
use rp_base::{Blob, NoMemory, OpEnd, Plain, Text, Value};
use sqlite_items::Items;
use std::alloc::Global;
use std::test::Fail;

/// What stands in a row of the table for an item.
#[derive(Clone, Copy)]
enum Atom {
    Nil,
    Bool(bool),
    Int(i128),
    Str(&'static str),
    Raw,
    Empty,
    Cell,
    /// No item.
    Gone,
}

use Atom::{Bool, Cell, Empty, Gone, Int, Nil, Raw, Str};

fn value_of(alloc: Global, atom: Atom) -> Result<Option<Value>, NoMemory> {
    match atom {
        Atom::Nil => Ok(Some(Value::Plain(Plain::None))),
        Atom::Bool(b) => Ok(Some(Value::Plain(Plain::Bool(b)))),
        Atom::Int(n) => Ok(Some(Value::Plain(Plain::Int(n)))),
        Atom::Str(text) => Ok(Some(Value::Plain(Plain::Text(Text::from_str(alloc, text)?)))),
        Atom::Raw => Ok(Some(Value::Plain(Plain::Bytes(Blob::from_vec(Vec::new(alloc)))))),
        Atom::Empty => Ok(Some(Value::Plain(Plain::Tuple(Items::new(alloc))))),
        Atom::Cell => Ok(Some(Value::Own(0))),
        Atom::Gone => Ok(None),
    }
}

fn values_of(alloc: Global, atoms: &[Atom]) -> Result<Values, NoMemory> {
    let mut items = Values::new(alloc);
    for atom in atoms {
        if let Some(value) = value_of(alloc, *atom)? {
            items.push(value)?;
        }
    }
    Ok(items)
}

/// The items in order, each as `repr` writes it and with a blank behind it, or the end's name.
fn told(alloc: Global, atoms: &[Atom]) -> Result<String, NoMemory> {
    let items = values_of(alloc, atoms)?;
    match sorted_items(alloc, items.as_slice()) {
        Ok(sorted) => printed(alloc, sorted.as_slice()),
        Err(OpEnd::Beyond(beyond)) => Ok(String::from_str(alloc, beyond.text())?),
        Err(OpEnd::Raise(raised)) => Ok(String::from_str(alloc, raised.kind.text())?),
        Err(OpEnd::NoMemory) => Err(NoMemory),
    }
}

fn printed(alloc: Global, items: &[Value]) -> Result<String, NoMemory> {
    let mut out = String::new(alloc);
    for item in items {
        match item {
            Value::Plain(plain) => {
                if plain_repr(plain, 1000, &mut out).is_err() {
                    return Err(NoMemory);
                }
            }
            _ => out.push_str("..")?,
        }
        out.push(' ')?;
    }
    Ok(out)
}

fn made(answer: Result<Values, OpEnd>) -> Result<Values, NoMemory> {
    match answer {
        Ok(values) => Ok(values),
        Err(_) => Err(NoMemory),
    }
}

const ROWS: [([Atom; 5], &str); 10] = [
    ([Gone, Gone, Gone, Gone, Gone], ""),
    ([Int(3), Int(-2), Int(10), Gone, Gone], "-2 3 10 "),
    (
        [Int(1), Bool(true), Int(0), Bool(false), Int(1)],
        "0 False 1 True 1 ",
    ),
    (
        [Str("b"), Str(""), Str("ab"), Str("B"), Str("a")],
        "'' 'B' 'a' 'ab' 'b' ",
    ),
    (
        [Str("\u{1f600}"), Str("\u{4e00}"), Gone, Gone, Gone],
        "'\u{4e00}' '\u{1f600}' ",
    ),
    ([Int(1), Str("a"), Gone, Gone, Gone], "Order"),
    ([Nil, Gone, Gone, Gone, Gone], "Order"),
    ([Raw, Raw, Gone, Gone, Gone], "Order"),
    ([Empty, Gone, Gone, Gone, Gone], "Order"),
    ([Int(1), Cell, Gone, Gone, Gone], "Order"),
];

#[test]
fn items_in_order(rt: HostRuntime) -> Result<(), Fail> {
    for (atoms, wanted) in ROWS {
        assert_eq!(rt; told(rt.alloc(), &atoms)?.as_str(), wanted);
    }
    Ok(())
}

fn falling(alloc: Global) -> Result<Values, NoMemory> {
    let mut items = Values::new(alloc);
    for n in 0..100u8 {
        items.push(Value::Plain(Plain::Int(-i128::from(n))))?;
    }
    Ok(items)
}

/// The int that stands there, and 0 where none does.
fn number_at(values: &Values, place: usize) -> i128 {
    match values.as_slice().get(place) {
        Some(Value::Plain(Plain::Int(n))) => *n,
        _ => 0,
    }
}

/// More items than are sorted without a buffer.
#[test]
fn many_items(rt: HostRuntime) -> Result<(), Fail> {
    let alloc = rt.alloc();
    let items = falling(alloc)?;
    let sorted = made(sorted_items(alloc, items.as_slice()))?;
    assert_eq!(rt; number_at(&sorted, 0), -99);
    assert_eq!(rt; number_at(&sorted, 98), -1);
    assert_eq!(rt; sorted.len(), 100);
    Ok(())
}
