use brine_codec::{BrineFault, BrineKind, DecodeEnd, decode, encode};
use rp_base::{Blob, NoMemory, Plain, Text, equal};
use sqlite_items::Items;
use std::alloc::Global;
use std::test::Fail;

/// Whether the bytes decode to the value, and the value has these bytes again.
fn meets(alloc: Global, bytes: &[u8], value: &Plain) -> Result<bool, Fail> {
    let found = decode(alloc, bytes).ok().ok_or("the bytes are a value")?;
    let mut out = [7].to_vec(alloc)?;
    encode(&found, &mut out)?;
    Ok(equal(&found, value) && out[0] == 7 && &out[1..] == bytes)
}

#[test]
fn ints_and_their_bytes(rt: HostRuntime) -> Result<(), Fail> {
    let alloc = rt.alloc();
    let rows: [(i128, &[u8]); 8] = [
        (-48, &[0x20]),
        (-49, &[0x16, 0x03, 0x2d, 0x34, 0x39]),
        (0, &[0x50]),
        (159, &[0xef]),
        (160, &[0x16, 0x03, 0x31, 0x36, 0x30]),
        (-1000, b"\x16\x05-1000"),
        (
            i128::MAX,
            b"\x16\x27170141183460469231731687303715884105727",
        ),
        (
            i128::MIN,
            b"\x16\x28-170141183460469231731687303715884105728",
        ),
    ];
    for (n, bytes) in rows {
        assert!(rt; meets(alloc, bytes, &Plain::Int(n))?);
    }
    Ok(())
}

fn text(alloc: Global, text: &str) -> Result<Plain, NoMemory> {
    Ok(Plain::Text(Text::from_str(alloc, text)?))
}

/// `(None, True, False, NotImplemented, ..., 1, 160, "", "été", b"", b"12345", (None,))`
fn every_kind(alloc: Global) -> Result<Plain, Fail> {
    let mut one = Items::new(alloc);
    one.push(Plain::None)?;
    let mut items = Items::new(alloc);
    items.push(Plain::None)?;
    items.push(Plain::Bool(true))?;
    items.push(Plain::Bool(false))?;
    items.push(Plain::NotImpl)?;
    items.push(Plain::Ellipsis)?;
    items.push(Plain::Int(1))?;
    items.push(Plain::Int(160))?;
    items.push(text(alloc, "")?)?;
    items.push(text(alloc, "été")?)?;
    items.push(Plain::Bytes(Blob::from_vec(Vec::new(alloc))))?;
    items.push(Plain::Bytes(Blob::from_vec(b"12345".to_vec(alloc)?)))?;
    items.push(Plain::Tuple(one))?;
    Ok(Plain::Tuple(items))
}

#[test]
fn values_and_their_bytes(rt: HostRuntime) -> Result<(), Fail> {
    let alloc = rt.alloc();
    let all =
        b"\x14\x0c\x00\x03\x04\x05\x06\x51\x16\x03160\x08\x01\x08\x0e\x05\xc3\xa9t\xc3\xa9\x01\x0e\x0512345\x10\x00";
    assert!(rt; meets(alloc, all, &every_kind(alloc)?)?);
    for (length, front) in [
        (4usize, &b"\x0d"[..]),
        (5, b"\x0e\x05"),
        (255, b"\x0e\xff"),
        (256, b"\x0f\x00\x00\x01\x00"),
        (66051, b"\x0f\x00\x01\x02\x03"),
    ] {
        let content = [9].repeat(alloc, length)?;
        let mut bytes = front.to_vec(alloc)?;
        bytes.extend_from_slice(&content)?;
        assert!(rt; meets(alloc, &bytes, &Plain::Bytes(Blob::from_vec(content)))?);
    }
    Ok(())
}

#[test]
fn faults_and_their_places(rt: HostRuntime) {
    let alloc = rt.alloc();
    let rows: [(&[u8], u64, BrineKind); 25] = [
        (&[0x07], 0, BrineKind::B1),
        (&[0x11, 0x50, 0xf0], 2, BrineKind::B1),
        (&[0x18], 0, BrineKind::B2(0x18)),
        (&[0x10, 0x1b], 1, BrineKind::B2(0x1b)),
        (&[], 0, BrineKind::B3),
        (&[0x10], 1, BrineKind::B3),
        (&[0x08], 1, BrineKind::B3),
        (&[0x08, 0x0b, 0xff], 3, BrineKind::B3),
        (&[0x0f, 0xff, 0xff, 0xff, 0xff, 0x00], 6, BrineKind::B3),
        (&[0x15, 0xff, 0xff, 0xff, 0xff, 0x00], 6, BrineKind::B3),
        (&[0x16, 0x01, 0x35], 0, BrineKind::B4),
        (&[0x16, 0x01, 0x30], 0, BrineKind::B4),
        (&[0x08, 0x0e, 0x04], 1, BrineKind::B4),
        (&[0x14, 0x04], 0, BrineKind::B4),
        (&[0x0f, 0x00, 0x00, 0x00, 0xff], 0, BrineKind::B4),
        (&[0x17, 0x00, 0x00, 0x00, 0xff], 0, BrineKind::B4),
        (&[0x16, 0x02, 0x30, 0x35], 0, BrineKind::B5),
        (&[0x16, 0x02, 0x2d, 0x30], 0, BrineKind::B5),
        (&[0x16, 0x00], 0, BrineKind::B5),
        (
            b"\x16\x27170141183460469231731687303715884105728",
            0,
            BrineKind::B6,
        ),
        (
            b"\x16\x28-170141183460469231731687303715884105729",
            0,
            BrineKind::B6,
        ),
        (&[0x08, 0x00], 0, BrineKind::B7),
        (&[0x10, 0x08, 0x0a, 0xff], 1, BrineKind::B7),
        (&[0x00, 0x00], 1, BrineKind::B9),
        (&[0x02, 0x18], 1, BrineKind::B9),
    ];
    for (bytes, at, what) in rows {
        let fault = DecodeEnd::Fault(BrineFault { at, what });
        assert!(rt; decode(alloc, bytes).err() == Some(fault));
    }
}

/// Tuples in tuples, so deep.
fn nested(alloc: Global, depth: u32) -> Result<Vec<u8>, Fail> {
    let mut bytes = Vec::new(alloc);
    for _ in 1..depth {
        bytes.push(0x10)?;
    }
    bytes.push(0x02)?;
    Ok(bytes)
}

#[test]
fn deepest_tuple(rt: HostRuntime) -> Result<(), Fail> {
    let alloc = rt.alloc();
    let value = decode(alloc, &nested(alloc, 100)?)
        .ok()
        .ok_or("100 levels are a value")?;
    assert_eq!(rt; value.depth(), 100);
    let fault = BrineFault {
        at: 100,
        what: BrineKind::B8,
    };
    assert!(rt; decode(alloc, &nested(alloc, 101)?).err() == Some(DecodeEnd::Fault(fault)));
    Ok(())
}
