use py_strs::{
    StrEnd, ends_with, find_text, join_texts, replace_text, split_text, starts_with, strip_text,
    text_at, text_len,
};
use std::alloc::Global;
use std::test::Fail;

#[test]
fn characters_and_places(rt: HostRuntime) {
    assert!(rt; text_len("") == 0 && text_len("aéb\u{1f600}") == 4);
    assert!(rt; find_text("aéb", "b") == Some(2) && find_text("abab", "ab") == Some(0));
    assert!(rt; find_text("abab", "") == Some(0) && find_text("abab", "ba") == Some(1));
    assert!(rt; find_text("ab", "c").is_none() && find_text("", "a").is_none());
    assert!(rt; text_at("aéb", 1) == Some('é') && text_at("aéb", -1) == Some('b'));
    assert!(rt; text_at("aéb", 3).is_none() && text_at("aéb", -4).is_none());
    assert!(rt; starts_with("éa", "é") && !starts_with("éa", "a") && ends_with("éa", "a"));
}

#[test]
fn white_space_is_stripped(rt: HostRuntime) {
    assert_eq!(rt; strip_text("\u{2003} a b\u{3000}\n"), "a b");
    assert_eq!(rt; strip_text("\u{1c}\u{85}"), "");
    assert_eq!(rt; strip_text("\u{200b}"), "\u{200b}");
}

fn show(alloc: Global, s: &str, sep: Option<&str>) -> Result<String, StrEnd> {
    let pieces = split_text(alloc, s, sep)?;
    join_texts(alloc, "|", &pieces)
}

#[test]
fn texts_are_split(rt: HostRuntime) -> Result<(), Fail> {
    let table = [
        ("a  b", None, "a|b"),
        ("\u{2003}é\tb ", None, "é|b"),
        ("", None, ""),
        ("a,b,", Some(","), "a|b|"),
        ("", Some(","), ""),
        ("aaa", Some("aa"), "|a"),
    ];
    for (text, sep, shown) in table {
        let pieces = show(rt.alloc(), text, sep)?;
        assert_eq!(rt; pieces.as_str(), shown);
    }
    assert_eq!(rt; split_text(rt.alloc(), "", None)?.len(), 0);
    assert_eq!(rt; split_text(rt.alloc(), "", Some(","))?.len(), 1);
    assert!(rt;
        matches!(
            split_text(rt.alloc(), "ab", Some("")),
            Err(StrEnd::EmptySep)
        )
    );
    Ok(())
}

#[test]
fn texts_are_joined_and_replaced(rt: HostRuntime) -> Result<(), Fail> {
    let parts = split_text(rt.alloc(), "a b c", None)?;
    let joined = join_texts(rt.alloc(), ", ", &parts)?;
    assert_eq!(rt; joined.as_str(), "a, b, c");
    let replaced = replace_text(rt.alloc(), "a-b-", "-", "+é")?;
    assert_eq!(rt; replaced.as_str(), "a+éb+é");
    Ok(())
}
