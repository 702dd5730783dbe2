use builtin_functions::text_of;
use object_operations::BuiltinMethod;
use rp_base::{NoMemory, OpEnd, Plain, Text, Value};
use std::alloc::Global;
use std::test::Fail;
use text_methods::{TextAnswer, join, text_method};

fn text(alloc: Global, text: &str) -> Result<Value, NoMemory> {
    Ok(Value::Plain(Plain::Text(Text::from_str(alloc, text)?)))
}

/// What `print` writes for what a method gives, the texts of its list with `|` between them, `..` for what has to be gone
/// over, or an end's name.
fn told(
    alloc: Global,
    of: &str,
    method: BuiltinMethod,
    arguments: &[Value],
) -> Result<Text, NoMemory> {
    match text_method(alloc, of, method, arguments) {
        Ok(TextAnswer::Value(value)) => printed(alloc, &value),
        Ok(TextAnswer::List(items)) => shown(alloc, join(alloc, "|", items.as_slice())),
        Ok(TextAnswer::Drain) => Text::from_str(alloc, ".."),
        Err(end) => name(alloc, &end),
    }
}

fn shown(alloc: Global, answer: Result<Value, OpEnd>) -> Result<Text, NoMemory> {
    match answer {
        Ok(value) => printed(alloc, &value),
        Err(end) => name(alloc, &end),
    }
}

fn name(alloc: Global, end: &OpEnd) -> Result<Text, NoMemory> {
    match end {
        OpEnd::Raise(raised) => Text::from_str(alloc, raised.kind.text()),
        OpEnd::Beyond(beyond) => Text::from_str(alloc, beyond.text()),
        OpEnd::NoMemory => Err(NoMemory),
    }
}

fn printed(alloc: Global, value: &Value) -> Result<Text, NoMemory> {
    match text_of(alloc, value) {
        Ok(Some(text)) => Ok(text),
        Ok(None) => Text::from_str(alloc, ".."),
        Err(_) => Err(NoMemory),
    }
}

#[test]
fn methods_of_one_argument(rt: HostRuntime) -> Result<(), Fail> {
    let alloc = rt.alloc();
    let table = [
        ("a\u{e4}b", BuiltinMethod::StartsWith, "a\u{e4}", "True"),
        ("a\u{e4}b", BuiltinMethod::EndsWith, "a", "False"),
        ("a\u{e4}b", BuiltinMethod::Find, "b", "2"),
        ("a\u{e4}b", BuiltinMethod::Find, "c", "-1"),
        ("a,b,", BuiltinMethod::Split, ",", "a|b|"),
        ("ab", BuiltinMethod::Split, "", "ValueError"),
        (", ", BuiltinMethod::Join, "ab", ".."),
    ];
    for (of, method, argument, wanted) in table {
        let told = told(alloc, of, method, &[text(alloc, argument)?])?;
        assert_eq!(rt; told.as_str(), wanted);
    }
    Ok(())
}

#[test]
fn methods_of_other_arguments(rt: HostRuntime) -> Result<(), Fail> {
    let alloc = rt.alloc();
    let words = "\u{3000}a  b\n";
    assert_eq!(rt;
        told(alloc, words, BuiltinMethod::Split, &[])?.as_str(),
        "a|b"
    );
    assert_eq!(rt;
        told(alloc, words, BuiltinMethod::Strip, &[])?.as_str(),
        "a  b"
    );
    let both = [text(alloc, "-")?, text(alloc, "+")?];
    assert_eq!(rt;
        told(alloc, "a-b-", BuiltinMethod::Replace, &both)?.as_str(),
        "a+b+"
    );
    let mixed = [text(alloc, "a")?, Value::Plain(Plain::Int(1))];
    assert_eq!(rt;
        shown(alloc, join(alloc, ", ", &mixed))?.as_str(),
        "TypeError"
    );
    assert_eq!(rt; shown(alloc, join(alloc, ", ", &both))?.as_str(), "-, +");
    Ok(())
}
