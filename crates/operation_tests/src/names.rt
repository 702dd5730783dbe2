use eval_names::{bind_name, read_name};
use object_operations::Env;
use py_ast::{FunctionInfo, Program};
use py_store::{Cell, Store};
use rp_base::{Beyond, ExcKind, NoMemory, OpEnd, Plain, Side, Text, Value};
use sqlite_items::Items;
use std::alloc::Global;
use std::test::Fail;

/// The top of the text, the function, and the one inside it, each in its own scope.
const TOP: Env = Env {
    text: 0,
    function: None,
    scope: 1,
};

const OUTER: Env = Env {
    text: 0,
    function: Some(0),
    scope: 2,
};

const INNER: Env = Env {
    text: 0,
    function: Some(1),
    scope: 3,
};

fn one_name(alloc: Global, name: &str) -> Result<Items<Text>, NoMemory> {
    let mut names = Items::new(alloc);
    names.push(Text::from_str(alloc, name)?)?;
    Ok(names)
}

fn function(
    alloc: Global,
    own: &str,
    free: &str,
    parent: Option<u32>,
) -> Result<FunctionInfo, NoMemory> {
    Ok(FunctionInfo {
        name: Text::from_str(alloc, "f")?,
        parameters: Items::new(alloc),
        locals: one_name(alloc, own)?,
        free: one_name(alloc, free)?,
        has_inner: false,
        parent,
        body: 0,
    })
}

/// A function with the name `a`, and inside it one with `b`, which takes `a` from around it.
fn text(alloc: Global) -> Result<Program, NoMemory> {
    let mut functions = Items::new(alloc);
    functions.push(function(alloc, "a", "", None)?)?;
    functions.push(function(alloc, "b", "a", Some(0))?)?;
    Ok(Program {
        nodes: Items::new(alloc),
        lines: Items::new(alloc),
        root: 0,
        functions,
        handler_names: Items::new(alloc),
        is_expression: false,
    })
}

fn add(store: &mut Store, cell: Cell) -> Result<(), NoMemory> {
    if store.size() < 9 {
        store.make(cell)?;
    }
    Ok(())
}

/// The namespace, in which `e` is reserved, and the scopes of the two functions.
fn cells(alloc: Global) -> Result<Store, NoMemory> {
    let mut store = Store::new(alloc, Side::A);
    let names = Items::new(alloc);
    let reserved = one_name(alloc, "e")?;
    add(&mut store, Cell::Namespace { names, reserved })?;
    for parent in 1..3 {
        let names = Items::new(alloc);
        add(&mut store, Cell::Scope { names, parent })?;
    }
    Ok(store)
}

/// What a name stands for: its int, or -1.
fn read(
    alloc: Global,
    store: &Store,
    text: &[Program],
    env: Env,
    name: &str,
) -> Result<i128, OpEnd> {
    match read_name(alloc, store, text, env, name)? {
        Value::Plain(Plain::Int(n)) => Ok(n),
        _ => Ok(-1),
    }
}

/// Three names that the inner function binds, as they are read at their places.
fn bound_names(alloc: Global) -> Result<(i128, i128, i128), OpEnd> {
    let text = [text(alloc)?];
    let mut store = cells(alloc)?;
    for (name, n) in [("a", 1), ("b", 2), ("g", 3)] {
        let name = Text::from_str(alloc, name)?;
        bind_name(
            alloc,
            &mut store,
            &text,
            INNER,
            name,
            Value::Plain(Plain::Int(n)),
        )?;
    }
    let a = read(alloc, &store, &text, OUTER, "a")?;
    let b = read(alloc, &store, &text, INNER, "b")?;
    let g = read(alloc, &store, &text, TOP, "g")?;
    Ok((a, b, g))
}

#[test]
fn names_at_their_places(rt: HostRuntime) -> Result<(), Fail> {
    let told = match bound_names(rt.alloc()) {
        Ok(told) => told,
        Err(_) => (0, 0, 0),
    };
    assert_eq!(rt; told, (1, 2, 3));
    Ok(())
}

/// Whether it is an exception of this kind with this text.
fn is_raised(answer: Result<i128, OpEnd>, kind: ExcKind, text: &str) -> bool {
    let Err(OpEnd::Raise(raised)) = answer else {
        return false;
    };
    match raised.args.as_slice() {
        [Plain::Text(t)] => raised.kind == kind && t.as_str() == text,
        _ => false,
    }
}

#[test]
fn unbound_names(rt: HostRuntime) -> Result<(), Fail> {
    let alloc = rt.alloc();
    let text = [text(alloc)?];
    let store = cells(alloc)?;
    let own = read(alloc, &store, &text, INNER, "b");
    let outer = read(alloc, &store, &text, INNER, "a");
    let global = read(alloc, &store, &text, TOP, "a");
    let reserved = read(alloc, &store, &text, TOP, "e");
    assert_eq!(rt; is_raised(own, ExcKind::UnboundLocalError, "b"), true);
    assert_eq!(rt; is_raised(outer, ExcKind::NameError, "a"), true);
    assert_eq!(rt; is_raised(global, ExcKind::NameError, "a"), true);
    assert_eq!(rt; matches!(reserved, Err(OpEnd::Beyond(Beyond::Name))), true);
    Ok(())
}
