use py_store::{Binding, Cell, Entries, Key, Store, Values, bind, bound, cell_number, unbind};
use rp_base::{NoMemory, Plain, Side, Text, Value};
use sqlite_items::Items;
use std::alloc::Global;
use std::test::Fail;

fn int(n: i128) -> Value {
    Value::Plain(Plain::Int(n))
}

/// The int, or -1.
fn number(value: Option<&Value>) -> i128 {
    match value {
        Some(Value::Plain(Plain::Int(n))) => *n,
        _ => -1,
    }
}

/// The int at this place, or -1.
fn value_at(entries: &Entries, at: usize) -> i128 {
    if at < entries.len() {
        number(Some(entries.value_at(at)))
    } else {
        -1
    }
}

/// Whether the key at this place is an int.
fn is_int_at(entries: &Entries, at: usize) -> bool {
    at < entries.len() && matches!(entries.key_at(at), Plain::Int(_))
}

/// {1: 12, None: 11}, where 12 came by the key `True`, and the int that it took the place of
fn two_entries(alloc: Global) -> Result<(Entries, i128), NoMemory> {
    let mut entries = Entries::new(alloc);
    entries.put(Plain::Int(1), int(10))?;
    entries.put(Plain::None, int(11))?;
    let old = entries.put(Plain::Bool(true), int(12))?;
    Ok((entries, number(old.as_ref())))
}

#[test]
fn entries(rt: HostRuntime) -> Result<(), Fail> {
    let (mut entries, old) = two_entries(rt.alloc())?;
    assert_eq!(rt; (old, is_int_at(&entries, 0)), (10, true));
    assert_eq!(rt; (value_at(&entries, 0), value_at(&entries, 1)), (12, 11));
    entries.take(&Key::new(Plain::Bool(true)));
    assert_eq!(rt; (value_at(&entries, 0), value_at(&entries, 1)), (11, -1));
    Ok(())
}

/// [1, 3, 2], where 3 was put in front of 2
fn three_values(alloc: Global) -> Result<Values, NoMemory> {
    let mut values = Values::new(alloc);
    values.push(int(1))?;
    values.push(int(2))?;
    if values.len() > 1 {
        values.insert(1, int(3))?;
    }
    Ok(values)
}

#[test]
fn values(rt: HostRuntime) -> Result<(), Fail> {
    let mut values = three_values(rt.alloc())?;
    values.reverse();
    let numbers = (
        number(values.as_slice().first()),
        number(values.as_slice().get(1)),
        number(values.as_slice().get(2)),
    );
    assert_eq!(rt; numbers, (2, 3, 1));
    Ok(())
}

/// a = 3, b = 2
fn two_names(alloc: Global) -> Result<Items<Binding>, NoMemory> {
    let mut names = Items::new(alloc);
    bind(&mut names, Text::from_str(alloc, "a")?, int(1))?;
    bind(&mut names, Text::from_str(alloc, "b")?, int(2))?;
    bind(&mut names, Text::from_str(alloc, "a")?, int(3))?;
    Ok(names)
}

#[test]
fn names(rt: HostRuntime) -> Result<(), Fail> {
    let mut names = two_names(rt.alloc())?;
    assert_eq!(rt; (names.len(), number(bound(names.as_slice(), "a"))), (2, 3));
    unbind(&mut names, "a");
    assert_eq!(rt; (names.len(), number(bound(names.as_slice(), "b"))), (1, 2));
    Ok(())
}

fn add(store: &mut Store, cell: Cell) -> Result<(), NoMemory> {
    if store.size() < 9 {
        store.make(cell)?;
    }
    Ok(())
}

fn class(alloc: Global, name: &str, base: Option<u32>) -> Result<Cell, NoMemory> {
    let name = Text::from_str(alloc, name)?;
    let attributes = two_names(alloc)?;
    Ok(Cell::Class {
        name,
        base,
        attributes,
    })
}

/// A class `Base` with `a` and `b`, a class on it, and an instance of that without attributes.
fn three_cells(alloc: Global) -> Result<Store, NoMemory> {
    let mut store = Store::new(alloc, Side::B);
    add(&mut store, class(alloc, "Base", None)?)?;
    add(&mut store, class(alloc, "C", Some(1))?)?;
    add(
        &mut store,
        Cell::Instance {
            class: 2,
            attributes: Items::new(alloc),
        },
    )?;
    Ok(store)
}

/// The number of the cell that has the attribute, or 0, and the attribute's int, or -1.
fn attribute(store: &Store, of: u32, name: &str) -> (u32, i128) {
    match store.get_attr(of, name) {
        Some((holder, value)) => (holder, number(Some(value))),
        None => (0, -1),
    }
}

fn replace_second(store: &mut Store, cell: Cell) -> bool {
    store.size() == 3 && matches!(store.replace(2, cell), Cell::Class { .. })
}

#[test]
fn cells(rt: HostRuntime) -> Result<(), Fail> {
    let mut store = three_cells(rt.alloc())?;
    let id = store.id_pack(rt.alloc(), 3)?;
    assert_eq!(rt; id.name.as_str(), "__main__.C");
    assert_eq!(rt; (id.class_no, cell_number(&id)), (2, 3));
    assert_eq!(rt; attribute(&store, 3, "b"), (2, 2));
    assert_eq!(rt; attribute(&store, 3, "c"), (0, -1));
    let is_replaced = replace_second(&mut store, Cell::Root);
    assert_eq!(rt; (is_replaced, attribute(&store, 3, "b")), (true, (0, -1)));
    Ok(())
}
