ghost use Rattle.std.specs.Prelude.{◌≡◌, map};
ghost use Rattle.std.specs.List.{list_all};
ghost use Rattle.rp_base.specs.declared.value.Value.TheVariants as value;
ghost use Rattle.message_core.specs.Arguments.{items_of, is_tuple, on_items, is_text, is_name, is_number, is_triple, is_identity, is_keyword, are_keywords, is_op_name, beside, special_names, is_count, arguments_fit, fitting, checked};

use crate::faults::MsgFault;
use rp_base::{Handler, Plain, Text, Value};

/// Whether the arguments of a request are of the number and the kinds that its handler takes; M5 where they are not.
pub fn check_args(handler: Handler, args: &Value) -> Result<(), MsgFault>
    ensures { result ≡ checked handler args.now }
{
    if fits(handler, args) {
        Ok(())
    } else {
        Err(MsgFault::M5(handler.number()))
    }
}

fn fits(handler: Handler, args: &Value) -> bool
    ensures { result ≡ fitting handler args.now }
{
    match args {
        Value::Plain(Plain::Tuple(items)) => plain_items_fit(handler, items.as_slice()),
        Value::Tuple(items) => items_fit(handler, items.as_slice()),
        _ => false,
    }
}

/// With no reference among them, most handlers have no object to work on.
fn plain_items_fit(handler: Handler, items: &[Plain]) -> bool
    ensures { result ≡ arguments_fit handler (map value.Plain items.now) }
{
    match handler {
        Handler::Ping => items.len() == 1,
        Handler::Close | Handler::GetRoot => items.is_empty(),
        Handler::Inspect => match items {
            [id] => is_plain_identity(id),
            _ => false,
        },
        _ => false,
    }
}

fn items_fit(handler: Handler, items: &[Value]) -> bool
    ensures { result ≡ arguments_fit handler items.now }
{
    match (handler, items) {
        (Handler::Ping, [_]) => true,
        (Handler::Close | Handler::GetRoot, []) => true,
        (Handler::Inspect, [id]) => is_identity(id),
        (Handler::Repr | Handler::Str, [Value::Own(_)]) => true,
        (Handler::GetAttr | Handler::DelAttr, [Value::Own(_), name]) => is_text(name),
        (Handler::Del, [Value::Own(_), Value::Plain(Plain::Int(_))]) => true,
        (Handler::SetAttr, [Value::Own(_), name, _]) => is_text(name),
        (Handler::Cmp, [Value::Own(_), _, Value::Plain(Plain::Text(op))]) => is_op_name(op),
        (Handler::Call, [Value::Own(_), args, kwargs]) => is_tuple(args) && are_keywords(kwargs),
        (Handler::CallAttr, [Value::Own(_), Value::Plain(Plain::Text(name)), args, kwargs]) => {
            count_fits(name, args) && are_keywords(kwargs)
        }
        _ => false,
    }
}

fn is_text(v: &Value) -> bool
    ensures { result ≡ is_text v.now }
{
    matches!(v, Value::Plain(Plain::Text(_)))
}

fn is_tuple(v: &Value) -> bool
    ensures { result ≡ is_tuple v.now }
{
    matches!(v, Value::Plain(Plain::Tuple(_)) | Value::Tuple(_))
}

fn is_op_name(name: &Text) -> bool
    ensures { result ≡ is_op_name name.now }
{
    matches!(
        name.as_str(),
        "__eq__" | "__ne__" | "__lt__" | "__le__" | "__gt__" | "__ge__"
    )
}

/// Whether these are as many arguments as a special name takes. Any other name takes any number.
fn count_fits(name: &Text, args: &Value) -> bool
    ensures { result ≡ on_items (is_count (beside name.now special_names)) (items_of args.now) }
{
    let count = match args {
        Value::Plain(Plain::Tuple(items)) => items.len(),
        Value::Tuple(items) => items.len(),
        _ => return false,
    };
    match special_count(name) {
        Some(wanted) => count == wanted,
        None => true,
    }
}

/// How many arguments the operation of a special name takes, beside its object.
fn special_count(name: &Text) -> Option<usize>
    ensures { result ≡ beside name.now special_names }
{
    match name.as_str() {
        "__len__" => Some(0),
        "__bool__" => Some(0),
        "__getitem__" => Some(1),
        "__setitem__" => Some(2),
        "__delitem__" => Some(1),
        "__contains__" => Some(1),
        "__iter__" => Some(0),
        "__next__" => Some(0),
        "__add__" => Some(1),
        "__sub__" => Some(1),
        "__mul__" => Some(1),
        "__floordiv__" => Some(1),
        "__mod__" => Some(1),
        "__neg__" => Some(0),
        "__iadd__" => Some(1),
        _ => None,
    }
}

/// Keyword arguments: a tuple of pairs of a text and a value.
fn are_keywords(v: &Value) -> bool
    ensures { result ≡ are_keywords v.now }
{
    match v {
        Value::Plain(Plain::Tuple(items)) => are_plain_keywords(items.as_slice()),
        Value::Tuple(items) => are_keyword_items(items.as_slice()),
        _ => false,
    }
}

fn are_plain_keywords(items: &[Plain]) -> bool
    ensures { result ≡ list_all is_keyword (map value.Plain items.now) }
{
    for item in items {
        if !is_plain_keyword(item) {
            return false;
        }
    }
    true
}

fn are_keyword_items(items: &[Value]) -> bool
    ensures { result ≡ list_all is_keyword items.now }
{
    for item in items {
        if !is_keyword(item) {
            return false;
        }
    }
    true
}

fn is_plain_keyword(p: &Plain) -> bool
    ensures { result ≡ is_keyword (value.Plain p.now) }
{
    let Plain::Tuple(pair) = p else {
        return false;
    };
    matches!(pair.as_slice(), [Plain::Text(_), _])
}

fn is_keyword(v: &Value) -> bool
    ensures { result ≡ is_keyword v.now }
{
    match v {
        Value::Plain(p) => is_plain_keyword(p),
        Value::Tuple(pair) => matches!(pair.as_slice(), [Value::Plain(Plain::Text(_)), _]),
        _ => false,
    }
}

/// An identity: the name of a class, and two numbers.
fn is_identity(v: &Value) -> bool
    ensures { result ≡ is_identity v.now }
{
    match v {
        Value::Plain(p) => is_plain_identity(p),
        Value::Tuple(items) => is_identity_triple(items.as_slice()),
        _ => false,
    }
}

fn is_identity_triple(items: &[Value]) -> bool
    ensures { result ≡ is_triple items.now }
{
    match items {
        [
            Value::Plain(Plain::Text(name)),
            Value::Plain(Plain::Int(class_no)),
            Value::Plain(Plain::Int(inst_no)),
        ] => is_name(name) && is_number(*class_no) && is_number(*inst_no),
        _ => false,
    }
}

fn is_plain_identity(p: &Plain) -> bool
    ensures { result ≡ is_identity (value.Plain p.now) }
{
    let Plain::Tuple(items) = p else {
        return false;
    };
    match items.as_slice() {
        [Plain::Text(name), Plain::Int(class_no), Plain::Int(inst_no)] => {
            is_name(name) && is_number(*class_no) && is_number(*inst_no)
        }
        _ => false,
    }
}

fn is_name(name: &Text) -> bool
    ensures { result ≡ is_name name.now }
{
    (1..=255).contains(&name.len())
}

fn is_number(n: i128) -> bool
    ensures { result ≡ is_number n }
{
    u64::try_from(n).is_ok()
}
