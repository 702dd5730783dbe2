use py_ast::Comparison;
use rp_base::{BinaryOp, CmpOp, NoMemory, OpEnd, Plain, Text, UnaryOp, Value};
use sqlite_items::Items;
use std::alloc::Global;
use std::test::Fail;
use value_operators::{binary, item, link, truth, unary};

fn int(n: i128) -> Value {
    Value::Plain(Plain::Int(n))
}

fn text(alloc: Global, letters: &str) -> Result<Value, NoMemory> {
    Ok(Value::Plain(Plain::Text(Text::from_str(alloc, letters)?)))
}

/// The tuple of an int and a reference.
fn pair(alloc: Global, n: i128) -> Result<Value, NoMemory> {
    let mut items = Items::new(alloc);
    items.push(int(n))?;
    items.push(Value::Own(5))?;
    Ok(Value::Tuple(items))
}

/// The answer, where there is one.
fn there(answer: Option<Value>) -> Result<Value, OpEnd> {
    answer.ok_or(OpEnd::NoMemory)
}

/// The int, or the bool as one, or -1.
fn number(value: &Value) -> i128 {
    match value {
        Value::Plain(Plain::Int(n)) => *n,
        Value::Plain(Plain::Bool(b)) => i128::from(*b),
        _ => -1,
    }
}

/// Of plain values: `-5`, `7 - 3`, `'aé'[-1] == 'é'`, `'é' in 'aé'`.
fn plain_answers(alloc: Global) -> Result<(i128, i128, i128, i128), OpEnd> {
    let whole = text(alloc, "aé")?;
    let last = text(alloc, "é")?;
    let negative = there(unary(alloc, UnaryOp::Neg, &int(5))?)?;
    let difference = there(binary(alloc, BinaryOp::Sub, &int(7), &int(3))?)?;
    let letter = there(item(alloc, &whole, &int(-1))?)?;
    let same = there(link(alloc, Comparison::Order(CmpOp::Eq), &letter, &last)?)?;
    let within = there(link(alloc, Comparison::In, &last, &whole)?)?;
    Ok((
        number(&negative),
        number(&difference),
        number(&same),
        number(&within),
    ))
}

/// Of tuples with a reference: `((1, x) + (2, x))[2]`, `((3, x) * 2)[-2]`, whether `(4, x)` is true, and whether `-x` has
/// to be asked.
fn tuple_answers(alloc: Global) -> Result<(i128, i128, bool, bool), OpEnd> {
    let sum = there(binary(alloc, BinaryOp::Add, &pair(alloc, 1)?, &pair(alloc, 2)?)?)?;
    let copies = there(binary(alloc, BinaryOp::Mul, &pair(alloc, 3)?, &int(2))?)?;
    let second = there(item(alloc, &sum, &int(2))?)?;
    let third = there(item(alloc, &copies, &int(-2))?)?;
    let holds = truth(&pair(alloc, 4)?)? == Some(true);
    let asked = unary(alloc, UnaryOp::Neg, &Value::Own(5))?.is_none();
    Ok((number(&second), number(&third), holds, asked))
}

#[test]
fn plain_values(rt: HostRuntime) -> Result<(), Fail> {
    let told = match plain_answers(rt.alloc()) {
        Ok(told) => told,
        Err(_) => (0, 0, 0, 0),
    };
    assert_eq!(rt; told, (-5, 4, 1, 1));
    Ok(())
}

#[test]
fn tuples_with_a_reference(rt: HostRuntime) -> Result<(), Fail> {
    let told = match tuple_answers(rt.alloc()) {
        Ok(told) => told,
        Err(_) => (0, 0, false, false),
    };
    assert_eq!(rt; told, (2, 3, true, true));
    Ok(())
}
