ghost use Rattle.std.specs.Prelude.{◌≡◌, ◌<◌, [], ◌∷◌, IfOk, pos, ℕ, ℤ, codes};
ghost use Rattle.std.specs.Option.{option_copied};
ghost use Rattle.rp_base.specs.declared.plain.Plain.{Plain};
ghost use Rattle.rp_base.specs.declared.plain.Plain.TheVariants as plain;
ghost use Rattle.rp_base.specs.declared.handlers.Handler.TheVariants as handlers;
ghost use Rattle.pair_run.specs.declared.messages.Question.TheVariants as question;
ghost use Rattle.pair_run.specs.Messages.{items_of, int_of, text_of, is_int, is_text, content_of, is_identity_in, is_object, root, namespace, number, boxed, by_value, boxed_tuple, receivers, senders, identity, arguments, asks, question_of, question_in, is_empty, no_items, namespace_question, is_named, item_question, letter_in, reply_value_of, object_in, number_in};
ghost use Rattle.message_core.specs.declared.message.Message.TheVariants as messages;

use message_core::Message;
use rp_base::{Handler, NoMemory, Plain, Text};
use sqlite_items::Items;
use std::alloc::Global;

/// What A asks of B in this stage.
#[derive(Clone, Copy, Debug, PartialEq, Eq)]
pub enum Question {
    /// B's root object.
    GetRoot,
    /// The root's attribute `namespace`.
    GetNamespace,
    /// The namespace's item of this lower-case letter.
    GetItem(u8),
    /// That B closes.
    Close,
}

fn number(n: u8) -> Plain
    ensures { result ≡ number n }
{
    Plain::Int(i128::from(n))
}

fn text(alloc: Global, text: &str) -> Result<Plain, NoMemory>
    ensures { IfOk result (λ t. t ≡ plain.Text text.now) }
{
    Ok(Plain::Text(Text::from_str(alloc, text)?))
}

fn tuple<const N: usize>(alloc: Global, items: [Plain; N]) -> Result<Plain, NoMemory>
    ensures { IfOk result (λ t. t ≡ plain.Tuple items.entry) }
{
    Ok(Plain::Tuple(Items::from_vec(Vec::from_array(alloc, items)?)))
}

fn boxed(alloc: Global, label: u8, content: Plain) -> Result<Plain, NoMemory>
    ensures { IfOk result (λ p. p ≡ boxed label content) }
{
    tuple(alloc, [number(label), content])
}

/// The name in the identity of a root object.
const ROOT: &str = "rpyc.core.service.SlaveService";

/// The name in the identity of a namespace, which is that of a dict.
const NAMESPACE: &str = "builtins.dict";

fn identity(alloc: Global, name: &str, class_no: u8, inst_no: u8) -> Result<Plain, NoMemory>
    ensures { IfOk result (λ p. p ≡ identity name.now class_no inst_no) }
{
    tuple(
        alloc,
        [text(alloc, name)?, number(class_no), number(inst_no)],
    )
}

fn by_value(alloc: Global, value: Plain) -> Result<Plain, NoMemory>
    ensures { IfOk result (λ p. p ≡ by_value value) }
{
    boxed(alloc, 1, value)
}

fn boxed_tuple<const N: usize>(alloc: Global, boxes: [Plain; N]) -> Result<Plain, NoMemory>
    ensures { IfOk result (λ p. p ≡ boxed_tuple boxes.entry) }
{
    boxed(alloc, 2, tuple(alloc, boxes)?)
}

fn no_values(alloc: Global) -> Result<Plain, NoMemory>
    ensures { IfOk result (λ p. p ≡ by_value (plain.Tuple [])) }
{
    by_value(alloc, tuple(alloc, [])?)
}

fn name(alloc: Global, name: &str) -> Result<Plain, NoMemory>
    ensures { IfOk result (λ p. p ≡ by_value (plain.Text name.now)) }
{
    by_value(alloc, text(alloc, name)?)
}

fn key(alloc: Global, letter: u8) -> Result<Plain, NoMemory>
    requires { letter < 128 }
    ensures { IfOk result (λ p. p ≡ by_value (plain.Tuple (plain.Text (letter ∷ []) ∷ []))) }
{
    by_value(alloc, tuple(alloc, [letter_text(alloc, letter)?])?)
}

/// Asks for the root.
pub fn get_root(alloc: Global, seq: u64) -> Result<Message, NoMemory>
    ensures { IfOk result (λ m. m ≡ asks seq question.GetRoot) }
{
    Ok(Message::Request {
        seq,
        handler: Handler::GetRoot,
        args: no_values(alloc)?,
    })
}

/// Asks for the attribute `namespace` of the root, of this identity.
pub fn get_namespace(alloc: Global, seq: u64, root: &Plain) -> Result<Message, NoMemory>
    ensures { IfOk result (λ m. m ≡ messages.Request seq handlers.GetAttr (arguments root.now namespace question.GetNamespace)) }
{
    Ok(Message::Request {
        seq,
        handler: Handler::GetAttr,
        args: attribute(alloc, root, "namespace")?,
    })
}

fn attribute(alloc: Global, object: &Plain, attribute: &str) -> Result<Plain, NoMemory>
    ensures { IfOk result (λ p. p ≡ boxed_tuple (receivers object.now ∷ by_value (plain.Text attribute.now) ∷ [])) }
{
    let object = boxed(alloc, 3, object.copy(alloc)?)?;
    boxed_tuple(alloc, [object, name(alloc, attribute)?])
}

/// Asks the namespace of this identity for the item of a letter.
pub fn get_item(alloc: Global, seq: u64, namespace: &Plain, letter: u8) -> Result<Message, NoMemory>
    requires { letter < 128 }
    ensures { IfOk result (λ m. m ≡ messages.Request seq handlers.CallAttr (arguments root namespace.now (question.GetItem letter))) }
{
    Ok(Message::Request {
        seq,
        handler: Handler::CallAttr,
        args: item(alloc, namespace, letter)?,
    })
}

fn item(alloc: Global, namespace: &Plain, letter: u8) -> Result<Plain, NoMemory>
    requires { letter < 128 }
    ensures { IfOk result (λ p. p ≡ arguments root namespace.now (question.GetItem letter)) }
{
    let object = boxed(alloc, 3, namespace.copy(alloc)?)?;
    let name = name(alloc, "__getitem__")?;
    boxed_tuple(
        alloc,
        [object, name, key(alloc, letter)?, no_values(alloc)?],
    )
}

fn letter_text(alloc: Global, letter: u8) -> Result<Plain, NoMemory>
    requires { letter < 128 }
    ensures { IfOk result (λ p. p ≡ plain.Text (letter ∷ [])) }
{
    let mut text = String::new(alloc);
    text.push(char::from(letter))?;
    Ok(Plain::Text(Text::from_string(text)))
}

/// Asks B to close.
pub fn close(alloc: Global, seq: u64) -> Result<Message, NoMemory>
    ensures { IfOk result (λ m. m ≡ asks seq question.Close) }
{
    Ok(Message::Request {
        seq,
        handler: Handler::Close,
        args: no_values(alloc)?,
    })
}

fn items(value: &Plain) -> Option<&[Plain]>
    ensures { option_copied result ≡ items_of value.now }
{
    match value {
        Plain::Tuple(items) => Some(items.as_slice()),
        _ => None,
    }
}

fn is_int(value: &Plain, wanted: u64) -> bool
    ensures { result ≡ is_int (int_of value.now) wanted }
{
    match value {
        Plain::Int(n) => *n == i128::from(wanted),
        _ => false,
    }
}

fn is_text(value: &Plain, wanted: &str) -> bool
    ensures { result ≡ is_text (text_of value.now) wanted.now }
{
    match value {
        Plain::Text(text) => text.as_str() == wanted,
        _ => false,
    }
}

fn content(value: &Plain, label: u64) -> Option<&Plain>
    ensures { option_copied result ≡ content_of label value.now }
{
    match items(value)? {
        [found, content] if is_int(found, label) => Some(content),
        _ => None,
    }
}

fn is_object(value: Option<&Plain>, name: &str, inst_no: u64) -> bool
    ensures { result ≡ is_object name.now inst_no (option_copied value.entry) }
{
    match value {
        Some(identity) => is_identity(identity, name, 0, inst_no),
        None => false,
    }
}

fn is_identity(value: &Plain, wanted: &str, class_no: u64, inst_no: u64) -> bool
    ensures { result ≡ is_identity_in wanted.now class_no inst_no (items_of value.now) }
{
    match items(value) {
        Some([name, class, inst]) => is_text(name, wanted)
            && is_int(class, class_no)
            && is_int(inst, inst_no),
        _ => false,
    }
}

/// The number and the question of a request of this stage.
pub fn read_question(message: &Message) -> Option<(u64, Question)>
    ensures { result ≡ question_of message.now }
{
    match message {
        Message::Request { seq, handler, args } => Some((*seq, question_in(*handler, args)?)),
        _ => None,
    }
}

fn int(value: &Plain) -> Option<i128>
    ensures { result ≡ int_of value.now }
{
    match value {
        Plain::Int(n) => Some(*n),
        _ => None,
    }
}

fn question_in(handler: Handler, args: &Plain) -> Option<Question>
    ensures { result ≡ question_in handler args.now }
{
    match handler {
        Handler::GetRoot if is_nothing(args) => Some(Question::GetRoot),
        Handler::Close if is_nothing(args) => Some(Question::Close),
        Handler::GetAttr => namespace_question(args),
        Handler::CallAttr => item_question(args),
        _ => None,
    }
}

fn is_nothing(args: &Plain) -> bool
    ensures { result ≡ is_empty (content_of 1 args.now) }
{
    match content(args, 1) {
        Some(values) => is_empty_tuple(values),
        None => false,
    }
}

fn is_empty_tuple(value: &Plain) -> bool
    ensures { result ≡ no_items (items_of value.now) }
{
    match items(value) {
        Some(items) => items.is_empty(),
        None => false,
    }
}

fn namespace_question(args: &Plain) -> Option<Question>
    ensures { result ≡ namespace_question (content_of 2 args.now) }
{
    match items(content(args, 2)?)? {
        [object, name] if is_object(content(object, 3), ROOT, 2) && is_name(name, "namespace") =>
            Some(Question::GetNamespace),
        _ => None,
    }
}

fn is_name(value: &Plain, wanted: &str) -> bool
    ensures { result ≡ is_named wanted.now (content_of 1 value.now) }
{
    match content(value, 1) {
        Some(name) => is_text(name, wanted),
        None => false,
    }
}

fn item_question(args: &Plain) -> Option<Question>
    ensures { result ≡ item_question (content_of 2 args.now) }
{
    match items(content(args, 2)?)? {
        [object, name, keys, keywords]
            if is_object(content(object, 3), NAMESPACE, 1)
                && is_name(name, "__getitem__")
                && is_nothing(keywords) => {
            Some(Question::GetItem(letter_in(content(keys, 1)?)?))
        }
        _ => None,
    }
}

fn letter_in(keys: &Plain) -> Option<u8>
    ensures { result ≡ letter_in (items_of keys.now) }
{
    match items(keys)? {
        [Plain::Text(text)] => match text.as_str().as_bytes() {
            [letter] => Some(*letter),
            _ => None,
        },
        _ => None,
    }
}

/// B's root as B sends it.
pub fn own_root(alloc: Global) -> Result<Plain, NoMemory>
    ensures { IfOk result (λ p. p ≡ senders root) }
{
    boxed(alloc, 4, identity(alloc, ROOT, 0, 2)?)
}

/// B's namespace as B sends it.
pub fn own_namespace(alloc: Global) -> Result<Plain, NoMemory>
    ensures { IfOk result (λ p. p ≡ senders namespace) }
{
    boxed(alloc, 4, identity(alloc, NAMESPACE, 0, 1)?)
}

/// A number, sent by value.
pub fn number_by_value(alloc: Global, n: i128) -> Result<Plain, NoMemory>
    ensures { IfOk result (λ p. p ≡ by_value (plain.Int n)) }
{
    by_value(alloc, Plain::Int(n))
}

/// The boxed value of the reply to the request of this number.
pub fn reply_value(message: Message, seq: u64) -> Option<Plain>
    ensures { result ≡ reply_value_of seq message }
{
    match message {
        Message::Reply { seq: number, value } if number == seq => Some(value),
        _ => None,
    }
}

/// The identity of an object of the sender.
pub fn object_in(value: &Plain) -> Option<&Plain>
    ensures { option_copied result ≡ object_in value.now }
{
    content(value, 4)
}

/// The number that was sent by value.
pub fn number_in(value: &Plain) -> Option<i128>
    ensures { result ≡ number_in value.now }
{
    int(content(value, 1)?)
}
