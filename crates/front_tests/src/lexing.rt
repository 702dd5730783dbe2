use py_lexer::{LexEnd, Token, TokenKind, tokens};
use rp_base::{Refused, Rule};
use std::test::Fail;

fn token(kind: TokenKind, start: u32, stop: u32, line: u32) -> Token {
    Token {
        kind,
        start,
        stop,
        line,
    }
}

#[test]
fn lines_and_suites(rt: HostRuntime) -> Result<(), Fail> {
    let found = tokens(rt.alloc(), "if x:\r\n  # no\n\n  y = (\n1)\n")?;
    let expected = [
        token(TokenKind::Keyword, 0, 2, 1),
        token(TokenKind::Name, 3, 4, 1),
        token(TokenKind::Sign, 4, 5, 1),
        token(TokenKind::Newline, 5, 7, 1),
        token(TokenKind::Indent, 17, 17, 4),
        token(TokenKind::Name, 17, 18, 4),
        token(TokenKind::Sign, 19, 20, 4),
        token(TokenKind::Sign, 21, 22, 4),
        token(TokenKind::Int, 23, 24, 5),
        token(TokenKind::Sign, 24, 25, 5),
        token(TokenKind::Newline, 25, 26, 5),
        token(TokenKind::Dedent, 26, 26, 5),
    ];
    assert_eq!(rt; found.as_slice(), expected.as_slice());
    Ok(())
}

#[test]
fn literals_and_signs(rt: HostRuntime) -> Result<(), Fail> {
    let found = tokens(rt.alloc(), "a**=b'\\x00'...'\\u00e9\"'0xF\t")?;
    let expected = [
        token(TokenKind::Name, 0, 1, 1),
        token(TokenKind::Sign, 1, 4, 1),
        token(TokenKind::Bytes, 4, 11, 1),
        token(TokenKind::Sign, 11, 14, 1),
        token(TokenKind::Text, 14, 23, 1),
        token(TokenKind::Int, 23, 26, 1),
        token(TokenKind::Newline, 27, 27, 1),
    ];
    assert_eq!(rt; found.as_slice(), expected.as_slice());
    let escapes = "'\\n\\t\\r\\\\\\'\\\"\\x7f\\uFFFF'b'\\n\\t\\r\\\\\\'\\\"\\x7f'";
    let found = tokens(rt.alloc(), escapes)?;
    let expected = [
        token(TokenKind::Text, 0, 24, 1),
        token(TokenKind::Bytes, 24, 43, 1),
        token(TokenKind::Newline, 43, 43, 1),
    ];
    assert_eq!(rt; found.as_slice(), expected.as_slice());
    assert!(rt; tokens(rt.alloc(), "")?.is_empty() && tokens(rt.alloc(), " \t# x\n")?.is_empty());
    Ok(())
}

#[test]
fn long_names_and_two_dedents(rt: HostRuntime) -> Result<(), Fail> {
    let name = "abcdefghijklmnopqrstuvwxyz_ABCDEFGHIJKLMNOPQRSTUVWXYZ_0123456789";
    let found = tokens(rt.alloc(), name)?;
    let expected = [
        token(TokenKind::Name, 0, 64, 1),
        token(TokenKind::Newline, 64, 64, 1),
    ];
    assert_eq!(rt; found.as_slice(), expected.as_slice());
    let found = tokens(rt.alloc(), "if a:\n if b:\n  c\nd")?;
    let expected = [
        token(TokenKind::Dedent, 17, 17, 4),
        token(TokenKind::Dedent, 17, 17, 4),
        token(TokenKind::Name, 17, 18, 4),
        token(TokenKind::Newline, 18, 18, 4),
    ];
    assert!(rt; found.len() == 16);
    assert_eq!(rt; &found[12..], expected.as_slice());
    Ok(())
}

#[test]
fn refused_texts(rt: HostRuntime) -> Result<(), Fail> {
    let texts: [(&str, u32, Rule); 16] = [
        ("\n\tx", 2, Rule::L1),
        ("if x:\n  y\n z", 3, Rule::L2),
        ("x\n$", 2, Rule::L3),
        ("x\r\ny\r", 2, Rule::L3),
        ("x ! y", 1, Rule::L3),
        ("01", 1, Rule::L4),
        ("170141183460469231731687303715884105728", 1, Rule::L4),
        ("0x80000000000000000000000000000000", 1, Rule::L4),
        ("(\n1_0", 2, Rule::L4),
        (".5", 1, Rule::L4),
        ("'x\n'", 1, Rule::L4),
        ("'\\ud800'", 1, Rule::L4),
        ("b'é'", 1, Rule::L4),
        ("F''", 1, Rule::L4),
        ("'''x'''", 1, Rule::L4),
        (
            "abcdefghijklmnopqrstuvwxyzabcdefghijklmnopqrstuvwxyzabcdefghijklm",
            1,
            Rule::L5,
        ),
    ];
    for (text, line, rule) in texts {
        let refused = LexEnd::Refused(Refused { line, rule });
        assert_eq!(rt; tokens(rt.alloc(), text).err(), Some(refused));
    }
    Ok(())
}
