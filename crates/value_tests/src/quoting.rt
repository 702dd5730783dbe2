use py_strs::{StrEnd, repr_bytes, repr_text};
use std::alloc::Global;
use std::test::Fail;

/// Whether Python prints the text like this.
fn prints(alloc: Global, text: &str, printed: &str) -> Result<bool, Fail> {
    let mut out = String::new(alloc);
    repr_text(text, u64::MAX, &mut out)
        .ok()
        .ok_or("the text is printed")?;
    Ok(out.as_str() == printed)
}

#[test]
fn texts_as_python_prints_them(rt: HostRuntime) -> Result<(), Fail> {
    let rows = [
        ("", "''"),
        ("a b", "'a b'"),
        ("it's", "\"it's\""),
        ("q\"", "'q\"'"),
        ("'\"", "'\\'\"'"),
        ("\\", "'\\\\'"),
        ("\n\r\t", "'\\n\\r\\t'"),
        ("\0\x7f", "'\\x00\\x7f'"),
        ("é€", "'é€'"),
        ("\u{a0}\u{ad}", "'\\xa0\\xad'"),
        ("\u{378}\u{2028}\u{e000}", "'\\u0378\\u2028\\ue000'"),
        ("\u{1F600}", "'\u{1F600}'"),
        ("\u{e0001}\u{10ffff}", "'\\U000e0001\\U0010ffff'"),
    ];
    for (text, printed) in rows {
        assert!(rt; prints(rt.alloc(), text, printed)?);
    }
    Ok(())
}

#[test]
fn bytes_as_python_prints_them(rt: HostRuntime) -> Result<(), Fail> {
    let mut out = String::new(rt.alloc());
    let rows: [&[u8]; 4] = [b"\x00a'\xff", b"", b"~\x7f \n\\", b"'\""];
    for bytes in rows {
        assert_eq!(rt; repr_bytes(bytes, u64::MAX, &mut out), Ok(()));
    }
    assert_eq!(rt;
        out.as_str(),
        "b\"\\x00a'\\xff\"b''b'~\\x7f \\n\\\\'b'\\'\"'"
    );
    Ok(())
}

#[test]
fn limits_met_and_passed(rt: HostRuntime) -> Result<(), Fail> {
    let mut out = String::from_str(rt.alloc(), "x=")?;
    assert_eq!(rt; repr_text("é\n", 7, &mut out), Err(StrEnd::Size));
    assert_eq!(rt; repr_bytes(b"\xff", 8, &mut out), Err(StrEnd::Size));
    assert_eq!(rt; repr_bytes(b"", 1, &mut out), Err(StrEnd::Size));
    assert_eq!(rt; out.as_str(), "x=");
    assert_eq!(rt; repr_text("é\n", 8, &mut out), Ok(()));
    assert_eq!(rt; repr_bytes(b"\xff", 15, &mut out), Ok(()));
    assert_eq!(rt; out.as_str(), "x='é\\n'b'\\xff'");
    Ok(())
}
