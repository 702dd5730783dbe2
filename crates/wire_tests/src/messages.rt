use message_core::{Message, MsgFault, PeerFault, PeerKind, check_args, read, spell};
use rp_base::{Handler, NoMemory, Plain, Text, Value, equal};
use sqlite_items::Items;
use std::alloc::Global;
use std::test::Fail;

fn pair(alloc: Global, first: Plain, second: Plain) -> Result<Plain, NoMemory> {
    let mut items = Items::new(alloc);
    items.push(first)?;
    items.push(second)?;
    Ok(Plain::Tuple(items))
}

fn triple(alloc: Global, first: Plain, second: Plain, third: Plain) -> Result<Plain, NoMemory> {
    let mut items = Items::new(alloc);
    items.push(first)?;
    items.push(second)?;
    items.push(third)?;
    Ok(Plain::Tuple(items))
}

fn text(alloc: Global, text: &str) -> Result<Plain, NoMemory> {
    Ok(Plain::Text(Text::from_str(alloc, text)?))
}

/// Whether the message is the value, and the value is read as what is the value again.
fn meets(alloc: Global, message: &Message, value: &Plain) -> Result<bool, Fail> {
    let spelled = spell(alloc, message)?;
    let found = read(alloc, &spelled).ok().ok_or("a message is read")?;
    Ok(equal(&spelled, value) && equal(&spell(alloc, &found)?, value))
}

#[test]
fn messages_and_their_values(rt: HostRuntime) -> Result<(), Fail> {
    let alloc = rt.alloc();
    let request = Message::Request {
        seq: 7,
        handler: Handler::GetAttr,
        args: Plain::Int(5),
    };
    let asked = pair(alloc, Plain::Int(4), Plain::Int(5))?;
    assert!(rt;
        meets(
            alloc,
            &request,
            &triple(alloc, Plain::Int(1), Plain::Int(7), asked)?
        )?
    );

    let most = Plain::Int(18_446_744_073_709_551_615);
    let reply = Message::Reply {
        seq: u64::MAX,
        value: Plain::None,
    };
    assert!(rt;
        meets(
            alloc,
            &reply,
            &triple(alloc, Plain::Int(2), most, Plain::None)?
        )?
    );

    let stop = Message::Exception {
        seq: 0,
        content: Plain::Int(1),
    };
    assert!(rt;
        meets(
            alloc,
            &stop,
            &triple(alloc, Plain::Int(3), Plain::Int(0), Plain::Int(1))?
        )?
    );
    Ok(())
}

/// The fault of a tuple of three parts.
fn fault(alloc: Global, kind: Plain, seq: Plain, content: Plain) -> Result<Option<MsgFault>, Fail> {
    let value = triple(alloc, kind, seq, content)?;
    Ok(read(alloc, &value).err())
}

/// The fault of a request to the handler of this number.
fn request_fault(alloc: Global, number: i128) -> Result<Option<MsgFault>, Fail> {
    let content = pair(alloc, Plain::Int(number), Plain::None)?;
    fault(alloc, Plain::Int(1), Plain::Int(0), content)
}

#[test]
fn values_of_no_message(rt: HostRuntime) -> Result<(), Fail> {
    let alloc = rt.alloc();
    let shape = Some(MsgFault::M1);
    let zero = Plain::Int(0);
    let kind = Plain::Int(2);
    assert!(rt; read(alloc, &zero).err() == shape);
    assert!(rt;
        fault(
            alloc,
            Plain::Bool(true),
            zero.copy(alloc)?,
            zero.copy(alloc)?
        )? == shape
    );
    assert!(rt; fault(alloc, kind.copy(alloc)?, Plain::Int(-1), zero.copy(alloc)?)? == shape);
    assert!(rt; fault(alloc, kind, Plain::Int(1 << 64), zero.copy(alloc)?)? == shape);
    assert!(rt; fault(alloc, Plain::Int(1), zero.copy(alloc)?, zero.copy(alloc)?)? == shape);
    assert!(rt; fault(alloc, Plain::Int(4), zero.copy(alloc)?, zero)? == Some(MsgFault::M2(4)));
    assert!(rt; request_fault(alloc, 0)? == Some(MsgFault::M3(0)));
    assert!(rt; request_fault(alloc, 21)? == Some(MsgFault::M3(21)));
    assert!(rt; request_fault(alloc, 12)? == Some(MsgFault::M4(12)));
    assert!(rt; request_fault(alloc, 20)? == Some(MsgFault::M4(20)));
    assert!(rt; request_fault(alloc, 16)? == None);
    Ok(())
}

/// The fault of a special call of the reader's cell 5 with one argument.
fn call_fault(alloc: Global, name: &str, kwargs: Plain) -> Result<Result<(), MsgFault>, Fail> {
    let mut args = Items::new(alloc);
    args.push(Plain::None)?;
    let mut items = Items::new(alloc);
    items.push(Value::Own(5))?;
    items.push(Value::Plain(text(alloc, name)?))?;
    items.push(Value::Plain(Plain::Tuple(args)))?;
    items.push(Value::Plain(kwargs))?;
    Ok(check_args(Handler::CallAttr, &Value::Tuple(items)))
}

#[test]
fn arguments_of_calls(rt: HostRuntime) -> Result<(), Fail> {
    let alloc = rt.alloc();
    let none = Plain::Tuple(Items::new(alloc));
    assert!(rt; call_fault(alloc, "__getitem__", none.copy(alloc)?)? == Ok(()));
    assert!(rt; call_fault(alloc, "__len__", none.copy(alloc)?)? == Err(MsgFault::M5(8)));
    assert!(rt; call_fault(alloc, "getmodule", none)? == Ok(()));

    let named = pair(alloc, text(alloc, "key")?, Plain::Int(1))?;
    let unnamed = pair(alloc, Plain::Int(1), Plain::Int(1))?;
    let mut good = Items::new(alloc);
    good.push(named.copy(alloc)?)?;
    let good = Plain::Tuple(good);
    assert!(rt; call_fault(alloc, "f", good)? == Ok(()));
    assert!(rt; call_fault(alloc, "f", pair(alloc, named, unnamed)?)? == Err(MsgFault::M5(8)));
    Ok(())
}

#[test]
fn arguments_without_objects(rt: HostRuntime) -> Result<(), Fail> {
    let alloc = rt.alloc();
    let id = triple(
        alloc,
        text(alloc, "builtins.list")?,
        Plain::Int(0),
        Plain::Int(5),
    )?;
    let mut items = Items::new(alloc);
    items.push(id)?;
    let one = Value::Plain(Plain::Tuple(items));
    assert!(rt; check_args(Handler::Inspect, &one) == Ok(()));
    assert!(rt; check_args(Handler::Ping, &one) == Ok(()));
    assert!(rt; check_args(Handler::Close, &one) == Err(MsgFault::M5(2)));
    assert!(rt; check_args(Handler::Repr, &one) == Err(MsgFault::M5(9)));
    assert!(rt; check_args(Handler::Ping, &Value::Own(1)) == Err(MsgFault::M5(1)));
    Ok(())
}

#[test]
fn codes_of_faults(rt: HostRuntime) {
    let fault = PeerFault {
        what: PeerKind::M2(4),
        at: 6,
    };
    assert!(rt; fault.what.text() == "M2" && PeerKind::X3(1).text() == "X3");
}
