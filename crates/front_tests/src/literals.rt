use py_literals::{bytes_literal, int_literal, text_literal};
use std::test::Fail;

#[test]
fn ints(rt: HostRuntime) -> Result<(), Fail> {
    let rows: [(&str, Option<i128>); 12] = [
        ("0", Some(0)),
        ("9", Some(9)),
        ("120", Some(120)),
        ("0xfF", Some(255)),
        ("0x00a", Some(10)),
        ("170141183460469231731687303715884105727", Some(i128::MAX)),
        ("0x7fffffffffffffffffffffffffffffff", Some(i128::MAX)),
        ("170141183460469231731687303715884105728", None),
        ("0x80000000000000000000000000000000", None),
        ("01", None),
        ("0x", None),
        ("+1", None),
    ];
    for (text, value) in rows {
        assert_eq!(rt; int_literal(text.as_bytes()), value);
    }
    Ok(())
}

#[test]
fn texts(rt: HostRuntime) -> Result<(), Fail> {
    let rows: [(&str, Option<&str>); 14] = [
        ("''", Some("")),
        ("\"it's é\"", Some("it's é")),
        ("'\\n\\t\\r\\\\\\'\\\"'", Some("\n\t\r\\'\"")),
        ("'\\x41\\xe9'", Some("Aé")),
        ("'\\u00e9\\u20AC\\uFFFF'", Some("é€\u{ffff}")),
        ("'\\x00\t\r'", Some("\0\t\r")),
        ("'a", None),
        ("'a'b", None),
        ("'\n'", None),
        ("'\\x4'", None),
        ("'\\a'", None),
        ("'\\ud800'", None),
        ("b''", None),
        ("", None),
    ];
    for (text, value) in rows {
        let found = text_literal(rt.alloc(), text)?;
        assert_eq!(rt; found.as_ref().map(|t| t.as_str()), value);
    }
    Ok(())
}

#[test]
fn byte_strings(rt: HostRuntime) -> Result<(), Fail> {
    let rows: [(&str, Option<&[u8]>); 9] = [
        ("b''", Some(b"")),
        ("b\"it's\"", Some(b"it's")),
        ("b'\\n\\t\\r\\\\\\'\\\"'", Some(b"\n\t\r\\'\"")),
        ("b'\\xff\\x00A'", Some(b"\xff\0A")),
        ("b'\\u0041'", None),
        ("b'é'", None),
        ("B''", None),
        ("''", None),
        ("b", None),
    ];
    for (text, value) in rows {
        let found = bytes_literal(rt.alloc(), text.as_bytes())?;
        assert_eq!(rt; found.as_ref().map(|b| b.as_slice()), value);
    }
    Ok(())
}
