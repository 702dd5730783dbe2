use channel_frames::frame;
use message_core::Message;
use report_text::{dump, message_line};
use rp_base::{Blob, Handler, Plain};
use std::test::Fail;

#[test]
fn a_conversation_is_lines(rt: HostRuntime) -> Result<(), Fail> {
    let alloc = rt.alloc();
    let messages: [(&[u8], &str); 8] = [
        (
            b"\x12\x51\x50\x11\x53\x11\x51\x02",
            "request 0 GETROOT (1, ())\n",
        ),
        (
            b"\x12\x52\x50\x11\x54\x12\x08\x0e\x1erpyc.core.service.SlaveService\x50\x52",
            "reply 0 (4, ('rpyc.core.service.SlaveService', 0, 2))\n",
        ),
        (
            b"\x12\x51\x51\x11\x54\x11\x52\x11\x11\x53\x12\x08\x0e\x1erpyc.core.service.SlaveService\x50\x52\x11\x51\x08\x0e\x09namespace",
            "request 1 GETATTR (2, ((3, ('rpyc.core.service.SlaveService', 0, 2)), (1, 'namespace')))\n",
        ),
        (
            b"\x12\x52\x51\x11\x54\x12\x08\x0e\x0dbuiltins.dict\x50\x51",
            "reply 1 (4, ('builtins.dict', 0, 1))\n",
        ),
        (
            b"\x12\x51\x52\x11\x58\x11\x52\x13\x11\x53\x12\x08\x0e\x0dbuiltins.dict\x50\x51\x11\x51\x08\x0e\x0b__getitem__\x11\x51\x10\x08\x0ax\x11\x51\x02",
            "request 2 CALLATTR (2, ((3, ('builtins.dict', 0, 1)), (1, '__getitem__'), (1, ('x',)), (1, ())))\n",
        ),
        (b"\x12\x52\x52\x11\x51\x55", "reply 2 (1, 5)\n"),
        (
            b"\x12\x51\x53\x11\x52\x11\x51\x02",
            "request 3 CLOSE (1, ())\n",
        ),
        (b"\x12\x53\x53\x51", "exception 3 1\n"),
    ];
    let mut stream = Vec::new(alloc);
    let mut text = String::new(alloc);
    for (data, line) in messages {
        frame(data, &mut stream)?;
        text.push_str(line)?;
    }
    let dumped = dump(alloc, stream.as_slice())?;
    assert!(rt; dumped.text.as_str() == text.as_str());
    assert!(rt; dumped.fault.is_none());
    Ok(())
}

// Each fault with its place, and what is no fault here: an argument too many, and a reply that is no box.
#[test]
fn a_fault_ends_the_text(rt: HostRuntime) -> Result<(), Fail> {
    let alloc = rt.alloc();
    let streams: [(&[u8], &str); 25] = [
        (b"", ""),
        (b"\x04\x00\x00\x01\x00", "fault F1 0\n"),
        (b"\x00\x00\x00\x01\x01", "fault F2 4\n"),
        (b"\x00\x00\x00\x00\x02\x0a", "fault F3 4\n"),
        (b"\x00\x00\x00\x01\x00\x00\x0b", "fault F4 6\n"),
        (b"\x00\x00\x00\x08\x00\x12", "fault F5 6\n"),
        (
            b"\x00\x00\x00\x08\x00\x12\x51\x50\x11\x53\x11\x51\x02\x0a\x00\x00\x00\x01",
            "request 0 GETROOT (1, ())\nfault F5 18\n",
        ),
        (
            b"\x00\x00\x00\x04\x00\x12\x52\x50\x51\x0a\x00\x00\x00\x02\x00\x00\x00\x00",
            "reply 0 1\nfault F4 17\n",
        ),
        (b"\x00\x00\x00\x01\x00\x07\x0a", "fault B1 5\n"),
        (
            b"\x00\x00\x00\x08\x00\x12\x51\x50\x11\x53\x11\x51\x02\x0a\x00\x00\x00\x03\x00\x12\x51\x18\x0a\x00\x00\x00\x04\x00\x12\x52\x50\x51\x0a",
            "request 0 GETROOT (1, ())\nfault B2 21\n",
        ),
        (b"\x00\x00\x00\x01\x00\x10\x0a", "fault B3 6\n"),
        (b"\x00\x00\x00\x00\x00\x0a\x00", "fault B3 5\n"),
        (b"\x00\x00\x00\x03\x00\x16\x015\x0a", "fault B4 5\n"),
        (b"\x00\x00\x00\x04\x00\x16\x0205\x0a", "fault B5 5\n"),
        (
            b"\x00\x00\x00\x2a\x00\x16\x28-170141183460469231731687303715884105729\x0a",
            "fault B6 5\n",
        ),
        (b"\x00\x00\x00\x04\x00\x10\x08\x0a\xff\x0a", "fault B7 6\n"),
        (b"\x00\x00\x00\x02\x00\x00\x00\x0a", "fault B9 6\n"),
        (b"\x00\x00\x00\x01\x00\x00\x0a", "fault M1 5\n"),
        (b"\x00\x00\x00\x04\x00\x12\x54\x50\x50\x0a", "fault M2 5\n"),
        (
            b"\x00\x00\x00\x06\x00\x12\x51\x50\x11\x65\x02\x0a",
            "fault M3 5\n",
        ),
        (
            b"\x00\x00\x00\x04\x00\x12\x52\x50\x51\x0a\x00\x00\x00\x06\x00\x12\x51\x50\x11\x5c\x02\x0a",
            "reply 0 1\nfault M4 15\n",
        ),
        (
            b"\x00\x00\x00\x04\x00\x12\x54\x50\x50\x0a\x00\x00\x00\x01\x01",
            "fault M2 5\n",
        ),
        (
            b"\x00\x00\x00\x01\x02\x00\x0a\x00\x00\x00\x04\x00\x12\x52\x50\x51\x0a",
            "fault F3 4\n",
        ),
        (
            b"\x00\x00\x00\x09\x00\x12\x51\x50\x11\x53\x11\x51\x10\x55\x0a",
            "request 0 GETROOT (1, (5,))\n",
        ),
        (
            b"\x00\x00\x00\x06\x00\x12\x52\x50\x08\x0aa\x0a",
            "reply 0 'a'\n",
        ),
    ];
    for (bytes, text) in streams {
        let dumped = dump(alloc, bytes)?;
        assert!(rt; dumped.text.as_str() == text);
        assert!(rt; dumped.fault.is_some() == text.contains("fault"));
    }

    // A hundred tuples one in the other, and one more.
    let mut data = Vec::new(alloc);
    data.resize(100, 0x10)?;
    data.push(0x02)?;
    let mut deep = Vec::new(alloc);
    frame(data.as_slice(), &mut deep)?;
    let dumped = dump(alloc, deep.as_slice())?;
    assert!(rt; dumped.text.as_str() == "fault B8 105\n");
    assert!(rt; dumped.fault.is_some_and(|fault| fault.at == 105));
    Ok(())
}

#[test]
fn a_line_has_no_end_of_its_own(rt: HostRuntime) -> Result<(), Fail> {
    let alloc = rt.alloc();
    let request = Message::Request {
        seq: 18_446_744_073_709_551_615,
        handler: Handler::Del,
        args: Plain::Bool(true),
    };
    let line = message_line(alloc, &request)?;
    assert!(rt; line.as_str() == "request 18446744073709551615 DEL True");
    let reply = Message::Reply {
        seq: 0,
        value: Plain::Bytes(Blob::from_vec(Vec::from_slice(alloc, b"\n'")?)),
    };
    let line = message_line(alloc, &reply)?;
    assert!(rt; line.as_str() == "reply 0 b\"\\n'\"");
    let exception = Message::Exception {
        seq: 10,
        content: Plain::Int(-3),
    };
    let line = message_line(alloc, &exception)?;
    assert!(rt; line.as_str() == "exception 10 -3");
    Ok(())
}
