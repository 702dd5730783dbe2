use rp_base::{
    Beyond, Blob, ExcKind, Handler, IdPack, Kind, Plain, Raised, Rule, Text, TupleEnd, Value,
    depth, equal, kind_of, make_tuple, to_plain, weight,
};
use sqlite_items::Items;
use std::alloc::Global;
use std::test::Fail;

/// ("hé", b"\x01\x02", -1)
fn three(alloc: Global) -> Result<Plain, Fail> {
    let mut items = Items::new(alloc);
    items.push(Plain::Text(Text::from_str(alloc, "hé")?))?;
    items.push(Plain::Bytes(Blob::from_vec([1, 2].to_vec(alloc)?)))?;
    items.push(Plain::Int(-1))?;
    Ok(Plain::Tuple(items))
}

#[test]
fn plain_values(rt: HostRuntime) -> Result<(), Fail> {
    let alloc = rt.alloc();
    let value = three(alloc)?;
    let copy = value.copy(alloc)?;
    assert_eq!(rt;
        (copy.weight(), copy.depth(), equal(&value, &copy)),
        (10, 1, true)
    );
    Ok(())
}

/// ((first,),)
fn wrapped(alloc: Global, first: Plain) -> Result<Plain, Fail> {
    let mut inner = Items::new(alloc);
    inner.push(first)?;
    let mut outer = Items::new(alloc);
    outer.push(Plain::Tuple(inner))?;
    Ok(Plain::Tuple(outer))
}

#[test]
fn equal_values(rt: HostRuntime) -> Result<(), Fail> {
    let alloc = rt.alloc();
    let truth = wrapped(alloc, Plain::Bool(true))?;
    let one = wrapped(alloc, Plain::Int(1))?;
    assert_eq!(rt;
        (
            truth.depth(),
            equal(&truth, &one),
            equal(&truth, &Plain::None)
        ),
        (2, true, false)
    );
    Ok(())
}

fn id_of(alloc: Global, name: &str, inst_no: u64) -> Result<IdPack, Fail> {
    Ok(IdPack {
        name: Text::from_str(alloc, name)?,
        class_no: 7,
        inst_no,
    })
}

/// (item,)
fn tuple_with(alloc: Global, item: Value) -> Result<Result<Value, TupleEnd>, Fail> {
    let mut items = Items::new(alloc);
    items.push(item)?;
    Ok(make_tuple(alloc, items))
}

#[test]
fn plain_tuple(rt: HostRuntime) -> Result<(), Fail> {
    let alloc = rt.alloc();
    let tuple = tuple_with(alloc, Value::Plain(three(alloc)?))??;
    assert_eq!(rt;
        (
            weight(&tuple),
            depth(&tuple),
            matches!(tuple, Value::Plain(_))
        ),
        (11, 2, true)
    );
    Ok(())
}

#[test]
fn tuple_with_reference(rt: HostRuntime) -> Result<(), Fail> {
    let alloc = rt.alloc();
    let id = id_of(alloc, "builtins.list", 5)?;
    let tuple = tuple_with(alloc, Value::Proxy(id))??.copy(alloc)?;
    let plain = to_plain(alloc, &tuple)?;
    assert_eq!(rt;
        (weight(&tuple), depth(&tuple), plain.is_none()),
        (9, 1, true)
    );
    Ok(())
}

/// A reference within this many tuples.
fn nested(alloc: Global, count: u32) -> Result<Value, Fail> {
    let mut value = Value::Own(3);
    for _ in 0..count {
        value = tuple_with(alloc, value)??;
    }
    Ok(value)
}

#[test]
fn limits_of_tuples(rt: HostRuntime) -> Result<(), Fail> {
    let alloc = rt.alloc();
    let deep = tuple_with(alloc, nested(alloc, 32)?)?.err();
    assert_eq!(rt; deep, Some(TupleEnd::Beyond(Beyond::Depth)));
    let blob = Blob::from_vec(Vec::from_elem(alloc, 0u8, 1_048_575)?);
    let heavy = tuple_with(alloc, Value::Plain(Plain::Bytes(blob)))?.err();
    assert_eq!(rt; heavy, Some(TupleEnd::Beyond(Beyond::Size)));
    Ok(())
}

fn kind(alloc: Global, name: &str, inst_no: u64) -> Result<Kind, Fail> {
    let id = id_of(alloc, name, inst_no)?;
    Ok(kind_of(&id.copy(alloc)?))
}

#[test]
fn kinds(rt: HostRuntime) -> Result<(), Fail> {
    let alloc = rt.alloc();
    assert_eq!(rt; kind(alloc, "builtins.dict", 1)?, Kind::Namespace);
    assert_eq!(rt; kind(alloc, "builtins.dict", 4)?, Kind::Dict);
    assert_eq!(rt;
        kind(alloc, "rpyc.core.protocol.Connection", 2)?,
        Kind::Conn
    );
    assert_eq!(rt; kind(alloc, "__main__.C", 0)?, Kind::Class);
    assert_eq!(rt; kind(alloc, "__main__.C", 9)?, Kind::Instance);
    Ok(())
}

#[test]
fn names(rt: HostRuntime) -> Result<(), Fail> {
    assert_eq!(rt; Rule::S12.text(), "S12");
    assert_eq!(rt; Beyond::CyclicRepr.text(), "CyclicRepr");
    assert_eq!(rt; ExcKind::ModuleNotFoundError.text(), "ModuleNotFoundError");
    assert_eq!(rt; Handler::CallAttr.text(), "CALLATTR");
    assert_eq!(rt; Handler::Del.number(), 15);
    Ok(())
}

#[test]
fn raised(rt: HostRuntime) -> Result<(), Fail> {
    let alloc = rt.alloc();
    let raised = Raised {
        kind: ExcKind::KeyError,
        args: Items::new(alloc),
    };
    assert_eq!(rt; raised.copy(alloc)?.kind, ExcKind::KeyError);
    Ok(())
}
