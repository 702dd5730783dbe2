use py_store::Cell;
use rp_base::{Side, Text};
use slave_service::start;
use std::test::Fail;

/// What the first cells are, and the place of a module.
fn kind(cell: Option<&Cell>) -> (&'static str, usize) {
    match cell {
        Some(Cell::Namespace { reserved, .. }) => ("namespace", reserved.len()),
        Some(Cell::Root) => ("root", 0),
        Some(Cell::Host(at)) => ("module", *at as usize),
        Some(_) => ("another", 0),
        None => ("none", 0),
    }
}

#[test]
fn a_side_with_two_modules(rt: HostRuntime) -> Result<(), Fail> {
    let alloc = rt.alloc();
    let names = [
        Text::from_str(alloc, "e")?,
        Text::from_str(alloc, "error")?,
        Text::from_str(alloc, "e")?,
    ];
    let store = start(alloc, Side::B, &names, 2)?;
    assert_eq!(rt; store.side(), Side::B);
    assert_eq!(rt; kind(store.get(1)), ("namespace", 2));
    assert_eq!(rt; kind(store.get(2)), ("root", 0));
    assert_eq!(rt; kind(store.get(3)), ("module", 0));
    assert_eq!(rt; kind(store.get(4)), ("module", 1));
    assert_eq!(rt; kind(store.get(5)), ("none", 0));
    Ok(())
}
