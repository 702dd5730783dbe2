ghost use Rattle.py_lists.specs.Lists.{IsDirect};

use object_operations::{BuiltinMethod, Special};
use py_lists::{change_list, list_method, read_list};
use py_store::{Cell, Store, Values};
use rp_base::{ExcKind, NoMemory, OpEnd, Plain, Side, Value};
use std::alloc::Global;
use std::test::Fail;

fn int(n: i128) -> Value {
    Value::Plain(Plain::Int(n))
}

/// The int, or -1.
fn number(value: &Value) -> i128 {
    match value {
        Value::Plain(Plain::Int(n)) => *n,
        _ => -1,
    }
}

/// One cell: an empty list.
fn one_list(alloc: Global) -> Result<Store, NoMemory> {
    let mut store = Store::new(alloc, Side::A);
    if store.size() < 9 {
        store.make(Cell::List(Values::new(alloc)))?;
    }
    Ok(store)
}

/// What a method of the first cell gives, where that is a list: its int, or -1.
fn call(
    alloc: Global,
    store: &mut Store,
    method: BuiltinMethod,
    arguments: &[Value],
) -> Result<i128, OpEnd>
    requires { IsDirect method }
{
    match store.get(1) {
        Some(Cell::List(_)) => {}
        _ => return Ok(-1),
    }
    let value = list_method(alloc, store, 1, method, arguments)?;
    Ok(number(&value))
}

/// An item of the first cell, where that is a list: its int, or -1.
fn item(alloc: Global, store: &Store, at: i128) -> Result<i128, OpEnd> {
    match store.get(1) {
        Some(Cell::List(_)) => {}
        _ => return Ok(-1),
    }
    let value = read_list(alloc, store, 1, Special::GetItem, &[int(at)])?;
    Ok(number(&value))
}

/// Sets an item of the first cell, where that is a list.
fn put(alloc: Global, store: &mut Store, at: i128, item: i128) -> Result<(), OpEnd> {
    match store.get(1) {
        Some(Cell::List(_)) => {}
        _ => return Ok(()),
    }
    change_list(alloc, store, 1, Special::SetItem, &[int(at), int(item)])?;
    Ok(())
}

/// Calls in turn, and what those tell that give something.
fn answers(alloc: Global) -> Result<(i128, i128, i128, i128), OpEnd> {
    let mut store = one_list(alloc)?;
    call(alloc, &mut store, BuiltinMethod::Append, &[int(1)])?;
    call(alloc, &mut store, BuiltinMethod::Append, &[int(2)])?;
    call(alloc, &mut store, BuiltinMethod::Insert, &[int(0), int(3)])?;
    let last = item(alloc, &store, -1)?;
    call(alloc, &mut store, BuiltinMethod::Reverse, &[])?;
    let popped = call(alloc, &mut store, BuiltinMethod::Pop, &[])?;
    let first = call(alloc, &mut store, BuiltinMethod::Pop, &[int(0)])?;
    put(alloc, &mut store, -1, 9)?;
    let left = item(alloc, &store, 0)?;
    Ok((last, popped, first, left))
}

#[test]
fn calls(rt: HostRuntime) -> Result<(), Fail> {
    let told = match answers(rt.alloc()) {
        Ok(told) => told,
        Err(_) => (0, 0, 0, 0),
    };
    assert_eq!(rt; told, (2, 3, 2, 9));
    Ok(())
}

/// Whether it is an IndexError with this text.
fn is_index_error(answer: Result<i128, OpEnd>, text: &str) -> bool {
    let Err(OpEnd::Raise(raised)) = answer else {
        return false;
    };
    match raised.args.as_slice() {
        [Plain::Text(t)] => raised.kind == ExcKind::IndexError && t.as_str() == text,
        _ => false,
    }
}

#[test]
fn missing_items(rt: HostRuntime) -> Result<(), Fail> {
    let mut store = one_list(rt.alloc())?;
    let read = item(rt.alloc(), &store, 0);
    let popped = call(rt.alloc(), &mut store, BuiltinMethod::Pop, &[]);
    assert_eq!(rt; is_index_error(read, "list index out of range"), true);
    assert_eq!(rt; is_index_error(popped, "pop from empty list"), true);
    Ok(())
}
