use eval_frames::{Next, PrintingFrame};
use object_operations::{Completion, Operation};
use print_output::{give_printing, print};
use rp_base::{NoMemory, Plain, Text, Value};
use sqlite_items::Items;
use std::alloc::Global;
use std::test::Fail;

/// What three calls print, with whether the last ended with None.
fn three_lines(alloc: Global) -> Result<(String, bool), NoMemory> {
    let mut printed = String::new(alloc);
    let mut stack = Vec::new(alloc);
    print(alloc, &mut stack, &mut printed, Items::new(alloc))?;
    let mut one = Items::new(alloc);
    one.push(text(alloc, "a b")?)?;
    print(alloc, &mut stack, &mut printed, one)?;
    let mut two = Items::new(alloc);
    two.push(Value::Plain(Plain::Int(7)))?;
    two.push(Value::Plain(Plain::Bool(true)))?;
    let next = print(alloc, &mut stack, &mut printed, two)?;
    Ok((printed, is_none(&next)))
}

/// What is printed of an int, an object whose text is `x`, and a bool, with whether the object was asked, and whether the
/// end was None.
fn asked_line(alloc: Global) -> Result<(String, bool, bool), NoMemory> {
    let mut printed = String::new(alloc);
    let mut stack = Vec::new(alloc);
    let mut values = Items::new(alloc);
    values.push(Value::Plain(Plain::Int(7)))?;
    values.push(Value::Own(3))?;
    values.push(Value::Plain(Plain::Bool(true)))?;
    let next = print(alloc, &mut stack, &mut printed, values)?;
    let asked = asks_third(&next) && stack.len() == 1;
    let answer = Completion::Gives(text(alloc, "x")?);
    let mut waiting = Items::new(alloc);
    waiting.push(Value::Plain(Plain::Bool(true)))?;
    let frame = PrintingFrame::Print { waiting };
    let next = give_printing(alloc, &mut stack, &mut printed, frame, answer)?;
    Ok((printed, asked, is_none(&next)))
}

fn text(alloc: Global, text: &str) -> Result<Value, NoMemory> {
    Ok(Value::Plain(Plain::Text(Text::from_str(alloc, text)?)))
}

fn is_none(next: &Next) -> bool {
    match next {
        Next::Give(completion) => gives_none(completion),
        _ => false,
    }
}

fn gives_none(completion: &Completion) -> bool {
    match completion {
        Completion::Gives(value) => is_none_value(value),
        _ => false,
    }
}

fn is_none_value(value: &Value) -> bool {
    match value {
        Value::Plain(plain) => matches!(plain, Plain::None),
        _ => false,
    }
}

/// Whether the third cell is asked for its text.
fn asks_third(next: &Next) -> bool {
    match next {
        Next::Perform(operation) => is_str_of_third(operation),
        _ => false,
    }
}

fn is_str_of_third(operation: &Operation) -> bool {
    match operation {
        Operation::Str(value) => matches!(value, Value::Own(3)),
        _ => false,
    }
}

#[test]
fn values_are_printed(rt: HostRuntime) -> Result<(), Fail> {
    let (printed, gave) = three_lines(rt.alloc())?;
    assert_eq!(rt; printed.as_str(), "\na b\n7 True\n");
    assert!(rt; gave);
    Ok(())
}

#[test]
fn an_object_is_asked(rt: HostRuntime) -> Result<(), Fail> {
    let (printed, asked, gave) = asked_line(rt.alloc())?;
    assert_eq!(rt; printed.as_str(), "7 x True\n");
    assert!(rt; asked);
    assert!(rt; gave);
    Ok(())
}
