ghost use Rattle.py_dicts.specs.DictCells.{IsChanging, IsDirect, IsReading};

use object_operations::{BuiltinMethod, Special};
use py_dicts::{change_dict, dict_method, dict_view, read_dict};
use py_store::{Cell, Entries, Store, Which};
use rp_base::{Beyond, ExcKind, NoMemory, OpEnd, Plain, Raised, Side, Value};
use std::alloc::Global;
use std::test::Fail;

/// What a call told.
#[derive(Clone, Copy, Debug, PartialEq, Eq)]
enum Told {
    None,
    Bool(bool),
    Int(i128),
    Cell(u32),
    /// A `KeyError` with this int.
    Missing(i128),
    Beyond(Beyond),
    Other,
}

fn int(n: i128) -> Value {
    Value::Plain(Plain::Int(n))
}

fn truth() -> Value {
    Value::Plain(Plain::Bool(true))
}

fn told_by(answer: Result<Value, OpEnd>) -> Told {
    match answer {
        Ok(Value::Plain(Plain::None)) => Told::None,
        Ok(Value::Plain(Plain::Bool(b))) => Told::Bool(b),
        Ok(Value::Plain(Plain::Int(n))) => Told::Int(n),
        Ok(Value::Own(number)) => Told::Cell(number),
        Ok(_) => Told::Other,
        Err(OpEnd::Raise(raised)) => missing(&raised),
        Err(OpEnd::Beyond(beyond)) => Told::Beyond(beyond),
        Err(OpEnd::NoMemory) => Told::Other,
    }
}

fn missing(raised: &Raised) -> Told {
    match raised.args.as_slice() {
        [Plain::Int(n)] if raised.kind == ExcKind::KeyError => Told::Missing(*n),
        _ => Told::Other,
    }
}

/// One cell: {1: 10}.
fn one_dict(alloc: Global) -> Result<Store, NoMemory> {
    let mut entries = Entries::new(alloc);
    entries.put(Plain::Int(1), int(10))?;
    let mut store = Store::new(alloc, Side::A);
    if store.size() < 9 {
        store.make(Cell::Dict { entries, shape: 0 })?;
    }
    Ok(store)
}

/// The number of entries, the key of the first and the int of the last, each -1 where it is none, and the shape.
fn contents(store: &Store) -> (usize, i128, i128, u64) {
    match store.get(1) {
        Some(Cell::Dict { entries, shape }) => {
            (
                entries.len(),
                first_key(entries),
                last_value(entries),
                *shape,
            )
        }
        _ => (0, -1, -1, 9),
    }
}

fn first_key(entries: &Entries) -> i128 {
    if entries.len() == 0 {
        return -1;
    }
    match entries.key_at(0) {
        Plain::Int(n) => *n,
        _ => -1,
    }
}

fn last_value(entries: &Entries) -> i128 {
    if entries.len() == 0 {
        return -1;
    }
    match entries.value_at(entries.len() - 1) {
        Value::Plain(Plain::Int(n)) => *n,
        _ => -1,
    }
}

fn method(alloc: Global, store: &mut Store, method: BuiltinMethod, arguments: &[Value]) -> Told
    requires { IsDirect method }
{
    match store.get(1) {
        Some(Cell::Dict { .. }) => {}
        _ => return Told::Other,
    }
    told_by(dict_method(alloc, store, 1, method, arguments))
}

fn change(alloc: Global, store: &mut Store, special: Special, arguments: &[Value]) -> Told
    requires { IsChanging special }
{
    match store.get(1) {
        Some(Cell::Dict { .. }) => {}
        _ => return Told::Other,
    }
    told_by(change_dict(alloc, store, 1, special, arguments))
}

fn read(alloc: Global, store: &Store, special: Special, arguments: &[Value]) -> Told
    requires { IsReading special }
{
    match store.get(1) {
        Some(Cell::Dict { .. }) => {}
        _ => return Told::Other,
    }
    told_by(read_dict(alloc, store, 1, special, arguments))
}

fn view(store: &mut Store) -> Told {
    match store.get(1) {
        Some(Cell::Dict { .. }) => {}
        _ => return Told::Other,
    }
    if store.size() > 9 {
        return Told::Other;
    }
    told_by(dict_view(store, 1, Which::Keys))
}

#[test]
fn methods(rt: HostRuntime) -> Result<(), Fail> {
    let alloc = rt.alloc();
    let mut store = one_dict(alloc)?;
    let got = method(alloc, &mut store, BuiltinMethod::Get, &[truth()]);
    let other = method(alloc, &mut store, BuiltinMethod::Get, &[int(2), int(7)]);
    assert_eq!(rt; (got, other), (Told::Int(10), Told::Int(7)));
    let known = method(
        alloc,
        &mut store,
        BuiltinMethod::SetDefault,
        &[truth(), int(7)],
    );
    let added = method(
        alloc,
        &mut store,
        BuiltinMethod::SetDefault,
        &[int(2), int(7)],
    );
    assert_eq!(rt;
        (known, added, contents(&store)),
        (Told::Int(10), Told::Int(7), (2, 1, 7, 1))
    );
    let popped = method(alloc, &mut store, BuiltinMethod::Pop, &[truth()]);
    let absent = method(alloc, &mut store, BuiltinMethod::Pop, &[int(1)]);
    let other = method(alloc, &mut store, BuiltinMethod::Pop, &[int(1), int(8)]);
    assert_eq!(rt;
        (popped, absent, other),
        (Told::Int(10), Told::Missing(1), Told::Int(8))
    );
    let cell = method(alloc, &mut store, BuiltinMethod::Pop, &[Value::Own(1)]);
    assert_eq!(rt;
        (cell, contents(&store)),
        (Told::Beyond(Beyond::Key), (1, 2, 7, 2))
    );
    let cleared = method(alloc, &mut store, BuiltinMethod::Clear, &[]);
    assert_eq!(rt; (cleared, contents(&store)), (Told::None, (0, -1, -1, 3)));
    Ok(())
}

#[test]
fn operations(rt: HostRuntime) -> Result<(), Fail> {
    let alloc = rt.alloc();
    let mut store = one_dict(alloc)?;
    let known = change(alloc, &mut store, Special::SetItem, &[truth(), int(12)]);
    assert_eq!(rt; (known, contents(&store)), (Told::None, (1, 1, 12, 0)));
    let added = change(alloc, &mut store, Special::SetItem, &[int(2), int(13)]);
    assert_eq!(rt; (added, contents(&store)), (Told::None, (2, 1, 13, 1)));
    let item = read(alloc, &store, Special::GetItem, &[truth()]);
    let absent = read(alloc, &store, Special::GetItem, &[int(3)]);
    assert_eq!(rt; (item, absent), (Told::Int(12), Told::Missing(3)));
    let length = read(alloc, &store, Special::Len, &[]);
    let filled = read(alloc, &store, Special::Bool, &[]);
    let has = read(alloc, &store, Special::Contains, &[int(3)]);
    assert_eq!(rt;
        (length, filled, has),
        (Told::Int(2), Told::Bool(true), Told::Bool(false))
    );
    let deleted = change(alloc, &mut store, Special::DelItem, &[truth()]);
    assert_eq!(rt; (deleted, contents(&store)), (Told::None, (1, 2, 13, 2)));
    assert_eq!(rt; view(&mut store), Told::Cell(2));
    Ok(())
}
