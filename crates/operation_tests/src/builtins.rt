use builtin_functions::{builtin, items_at_hand, text_of};
use py_ast::Builtin;
use rp_base::{Blob, NoMemory, OpEnd, Plain, Text, Value};
use std::alloc::Global;
use std::test::Fail;

fn int(n: i128) -> Value {
    Value::Plain(Plain::Int(n))
}

fn text(alloc: Global, text: &str) -> Result<Value, NoMemory> {
    Ok(Value::Plain(Plain::Text(Text::from_str(alloc, text)?)))
}

/// The text that `print` writes for what a function gives, an exception's name, or `..` where it goes on.
fn told(alloc: Global, function: Builtin, arguments: &[Value]) -> Result<Text, NoMemory> {
    match builtin(alloc, function, arguments) {
        Ok(Some(value)) => printed(alloc, &value),
        Ok(None) => Text::from_str(alloc, ".."),
        Err(OpEnd::Raise(raised)) => Text::from_str(alloc, raised.kind.text()),
        Err(OpEnd::Beyond(beyond)) => Text::from_str(alloc, beyond.text()),
        Err(OpEnd::NoMemory) => Err(NoMemory),
    }
}

fn printed(alloc: Global, value: &Value) -> Result<Text, NoMemory> {
    match text_of(alloc, value) {
        Ok(Some(text)) => Ok(text),
        Ok(None) => Text::from_str(alloc, ".."),
        Err(_) => Err(NoMemory),
    }
}

#[test]
fn functions_of_one_argument(rt: HostRuntime) -> Result<(), Fail> {
    let alloc = rt.alloc();
    let word = [text(alloc, " -12\u{3000}")?];
    assert_eq!(rt; told(alloc, Builtin::Int, &word)?.as_str(), "-12");
    assert_eq!(rt; told(alloc, Builtin::Len, &word)?.as_str(), "5");
    assert_eq!(rt;
        told(alloc, Builtin::Repr, &word)?.as_str(),
        "' -12\\u3000'"
    );
    assert_eq!(rt; told(alloc, Builtin::Str, &word)?.as_str(), " -12\u{3000}");
    assert_eq!(rt; told(alloc, Builtin::Bool, &word)?.as_str(), "True");
    assert_eq!(rt; told(alloc, Builtin::Abs, &[int(-7)])?.as_str(), "7");
    assert_eq!(rt; told(alloc, Builtin::Chr, &[int(228)])?.as_str(), "\u{e4}");
    assert_eq!(rt;
        told(alloc, Builtin::Ord, &[text(alloc, "\u{e4}")?])?.as_str(),
        "228"
    );
    Ok(())
}

#[test]
fn functions_of_items(rt: HostRuntime) -> Result<(), Fail> {
    let alloc = rt.alloc();
    let numbers = [int(3), int(9), int(-4)];
    assert_eq!(rt; told(alloc, Builtin::Min, &numbers)?.as_str(), "-4");
    assert_eq!(rt; told(alloc, Builtin::Max, &numbers)?.as_str(), "9");
    let bytes = Value::Plain(Plain::Bytes(Blob::from_vec(vec![in alloc; 1u8, 2]?)));
    let both = [bytes];
    assert_eq!(rt; told(alloc, Builtin::Sum, &both)?.as_str(), "3");
    assert_eq!(rt; told(alloc, Builtin::Tuple, &both)?.as_str(), "(1, 2)");
    let items = items_at_hand(alloc, &text(alloc, "a\u{e4}")?)?;
    assert_eq!(rt; items.is_some(), true);
    Ok(())
}
