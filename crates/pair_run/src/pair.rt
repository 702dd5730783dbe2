ghost use Rattle.std.specs.Prelude.{◌≡◌, ◌≤◌, ◌<◌, ◌⊎◌, ◌++◌, ◌∷◌, [], ℕ, List, pos, IfOk, OnOk, OnErr, IsErrOf, IsSome, All, length, string_bytes};
ghost use Rattle.std.specs.Fmt.{signed_decimal};
ghost use Rattle.message_core.specs.declared.message.Message.TheVariants as message;
ghost use Rattle.rp_base.specs.declared.plain.Plain.{Plain};
ghost use Rattle.wire_io.specs.Devices.{Rose};
ghost use Rattle.pair_run.specs.declared.messages.Question.{Question};
ghost use Rattle.pair_run.specs.declared.messages.Question.TheVariants as question;
ghost use Rattle.pair_run.specs.Messages.{asks, root, namespace, senders};
ghost use Rattle.pair_run.specs.Scripts.{IsLetter, IsBinding, number_of};
ghost use Rattle.pair_run.specs.Talk.{answer, IsAnswered, IsAsked, IsIdle, exchange, stream, Carries, CarriesFront, value_of, items_from, closing, talk, printed, AreAnswered, PrintsFirst, bytes_of, CarriesPart};

use crate::delivery::{Cut, deliver};
use crate::messages::{
    self, Question, get_item, get_namespace, get_root, number_by_value, number_in, object_in,
    own_namespace, own_root, read_question, reply_value,
};
use crate::scripts::{Binding, number_of};
use channel_frames::Deframer;
use message_core::Message;
use rp_base::{NoMemory, Plain};
use std::alloc::Global;
use std::fmt::Write;
use wire_io::{Over, Wire};

/// The side that asks: what it was sent, and what its script printed.
#[derive(Drop)]
pub struct SideA {
    pub inbox: Deframer,
    pub output: String,
}

/// The side that is served: what it was sent, and what its script bound, the last binding of a letter counting.
#[derive(Drop)]
pub struct SideB {
    pub inbox: Deframer,
    pub bindings: Vec<Binding>,
}

/// B's answer to a question, boxed.
fn answer(alloc: Global, bindings: &[Binding], question: Question) -> Result<Plain, NoMemory>
    requires { IsAnswered bindings.now question }
    ensures { IfOk result (λ value. value ≡ answer bindings.now question) }
{
    match question {
        Question::GetRoot => own_root(alloc),
        Question::GetNamespace => own_namespace(alloc),
        Question::GetItem(letter) => match number_of(bindings, letter) {
            Some(number) => number_by_value(alloc, number),
            None => unreachable!(),
        },
        Question::Close => unreachable!(),
    }
}

/// B's reply to a request, which bears the request's number.
fn reply_to(alloc: Global, request: &Message, bindings: &[Binding]) -> Result<Message, NoMemory>
    requires { (seq : ℕ) × IsAsked bindings.now seq request.now }
    ensures { (seq : ℕ) (q : Question) → request.now ≡ asks seq q → IfOk result (λ r. r ≡ message.Reply seq (answer bindings.now q)) }
{
    match read_question(request) {
        Some((seq, question)) => Ok(Message::Reply {
            seq,
            value: answer(alloc, bindings, question)?,
        }),
        None => unreachable!(),
    }
}

/// Asks B by a request of this number, and gives the boxed value of B's reply.
fn ask<W: Wire>(
    alloc: Global,
    seq: u64,
    request: &Message,
    a: &mut SideA,
    b: &mut SideB,
    ab: &mut W,
    ba: &mut W,
) -> Result<Plain, Cut>
    requires asked { IsAsked b.old.bindings.items seq request.now }
    requires idle { IsIdle (W.queue ab.old) (W.queue ba.old) a.old.inbox b.old.inbox }
    ensures answered { (q : Question) → request.now ≡ asks seq q → IfOk result (λ value. value ≡ answer b.old.bindings.items q) }
    ensures carried { (q : Question) → request.now ≡ asks seq q → OnOk result (Carries (stream (exchange b.old.bindings.items seq q)) (W.carried ab.old) (W.carried ab.new) (W.carried ba.old) (W.carried ba.new)) }
    ensures idle { OnOk result (IsIdle (W.queue ab.new) (W.queue ba.new) a.new.inbox b.new.inbox) }
    ensures part { (q : Question) → request.now ≡ asks seq q → OnErr result (CarriesFront (stream (exchange b.old.bindings.items seq q)) (W.carried ab.old) (W.carried ab.new) (W.carried ba.old) (W.carried ba.new)) }
    ensures kept { (a.new.output ≡ a.old.output) × (b.new.bindings ≡ b.old.bindings) }
    ensures begun { (W.begun ab.new ≡ W.begun ab.old) × (W.begun ba.new ≡ W.begun ba.old) }
    ensures later { (W.fault_count ab.old ≤ W.fault_count ab.new) × (W.fault_count ba.old ≤ W.fault_count ba.new) }
    ensures failed { IsErrOf result Cut.Wire → (Rose (W.fault_count ab.old) (W.fault_count ab.new)) ⊎ (Rose (W.fault_count ba.old) (W.fault_count ba.new)) }
{
    let heard = deliver(alloc, request, ab, &mut b.inbox)?;
    let reply = reply_to(alloc, &heard, &b.bindings)?;
    let heard = deliver(alloc, &reply, ba, &mut a.inbox)?;
    match reply_value(heard, seq) {
        Some(value) => Ok(value),
        None => unreachable!(),
    }
}

/// The identity of the object of B that a value names.
fn object_of(alloc: Global, value: &Plain) -> Result<Plain, NoMemory>
    requires { (object : Plain) × (value.now ≡ senders object) }
    ensures { (object : Plain) → value.now ≡ senders object → IfOk result (λ p. p ≡ object) }
{
    match object_in(value) {
        Some(object) => object.copy(alloc),
        None => unreachable!(),
    }
}

/// Asks B for its root, and gives the root's identity.
fn ask_root<W: Wire>(
    alloc: Global,
    a: &mut SideA,
    b: &mut SideB,
    ab: &mut W,
    ba: &mut W,
) -> Result<Plain, Cut>
    requires idle { IsIdle (W.queue ab.old) (W.queue ba.old) a.old.inbox b.old.inbox }
    ensures answered { IfOk result (λ p. p ≡ root) }
    ensures carried { OnOk result (Carries (stream (exchange b.old.bindings.items 0 question.GetRoot)) (W.carried ab.old) (W.carried ab.new) (W.carried ba.old) (W.carried ba.new)) }
    ensures part { OnErr result (CarriesFront (stream (exchange b.old.bindings.items 0 question.GetRoot)) (W.carried ab.old) (W.carried ab.new) (W.carried ba.old) (W.carried ba.new)) }
    ensures idle { OnOk result (IsIdle (W.queue ab.new) (W.queue ba.new) a.new.inbox b.new.inbox) }
    ensures kept { (a.new.output ≡ a.old.output) × (b.new.bindings ≡ b.old.bindings) }
    ensures begun { (W.begun ab.new ≡ W.begun ab.old) × (W.begun ba.new ≡ W.begun ba.old) }
    ensures later { (W.fault_count ab.old ≤ W.fault_count ab.new) × (W.fault_count ba.old ≤ W.fault_count ba.new) }
    ensures failed { IsErrOf result Cut.Wire → (Rose (W.fault_count ab.old) (W.fault_count ab.new)) ⊎ (Rose (W.fault_count ba.old) (W.fault_count ba.new)) }
{
    let request = get_root(alloc, 0)?;
    let value = ask(alloc, 0, &request, a, b, ab, ba)?;
    Ok(object_of(alloc, &value)?)
}

/// Asks B for the namespace of its root, and gives the namespace's identity.
fn ask_namespace<W: Wire>(
    alloc: Global,
    object: &Plain,
    a: &mut SideA,
    b: &mut SideB,
    ab: &mut W,
    ba: &mut W,
) -> Result<Plain, Cut>
    requires object { object.now ≡ root }
    requires idle { IsIdle (W.queue ab.old) (W.queue ba.old) a.old.inbox b.old.inbox }
    ensures answered { IfOk result (λ p. p ≡ namespace) }
    ensures carried { OnOk result (Carries (stream (exchange b.old.bindings.items 1 question.GetNamespace)) (W.carried ab.old) (W.carried ab.new) (W.carried ba.old) (W.carried ba.new)) }
    ensures part { OnErr result (CarriesFront (stream (exchange b.old.bindings.items 1 question.GetNamespace)) (W.carried ab.old) (W.carried ab.new) (W.carried ba.old) (W.carried ba.new)) }
    ensures idle { OnOk result (IsIdle (W.queue ab.new) (W.queue ba.new) a.new.inbox b.new.inbox) }
    ensures kept { (a.new.output ≡ a.old.output) × (b.new.bindings ≡ b.old.bindings) }
    ensures begun { (W.begun ab.new ≡ W.begun ab.old) × (W.begun ba.new ≡ W.begun ba.old) }
    ensures later { (W.fault_count ab.old ≤ W.fault_count ab.new) × (W.fault_count ba.old ≤ W.fault_count ba.new) }
    ensures failed { IsErrOf result Cut.Wire → (Rose (W.fault_count ab.old) (W.fault_count ab.new)) ⊎ (Rose (W.fault_count ba.old) (W.fault_count ba.new)) }
{
    let request = get_namespace(alloc, 1, object)?;
    let value = ask(alloc, 1, &request, a, b, ab, ba)?;
    Ok(object_of(alloc, &value)?)
}

/// Prints a number on a line of its own.
fn print(output: &mut String, number: i128) -> Result<(), NoMemory>
    ensures { OnOk result (string_bytes output.new ≡ string_bytes output.old ++ (signed_decimal number ++ 10 ∷ [])) }
{
    write!(output, "{number}\n")?;
    Ok(())
}

/// Asks B for the number of a letter, and prints it.
fn print_item<W: Wire>(
    alloc: Global,
    seq: u64,
    letter: u8,
    dict: &Plain,
    a: &mut SideA,
    b: &mut SideB,
    ab: &mut W,
    ba: &mut W,
) -> Result<(), Cut>
    requires answered { IsAnswered b.old.bindings.items (question.GetItem letter) }
    requires dict { dict.now ≡ namespace }
    requires idle { IsIdle (W.queue ab.old) (W.queue ba.old) a.old.inbox b.old.inbox }
    ensures printed { OnOk result (string_bytes a.new.output ≡ string_bytes a.old.output ++ (signed_decimal (value_of b.old.bindings.items letter) ++ 10 ∷ [])) }
    ensures unprinted { IsErrOf result Cut.Wire → a.new.output ≡ a.old.output }
    ensures carried { OnOk result (Carries (stream (exchange b.old.bindings.items seq (question.GetItem letter))) (W.carried ab.old) (W.carried ab.new) (W.carried ba.old) (W.carried ba.new)) }
    ensures part { OnErr result (CarriesFront (stream (exchange b.old.bindings.items seq (question.GetItem letter))) (W.carried ab.old) (W.carried ab.new) (W.carried ba.old) (W.carried ba.new)) }
    ensures idle { OnOk result (IsIdle (W.queue ab.new) (W.queue ba.new) a.new.inbox b.new.inbox) }
    ensures kept { b.new.bindings ≡ b.old.bindings }
    ensures begun { (W.begun ab.new ≡ W.begun ab.old) × (W.begun ba.new ≡ W.begun ba.old) }
    ensures later { (W.fault_count ab.old ≤ W.fault_count ab.new) × (W.fault_count ba.old ≤ W.fault_count ba.new) }
    ensures failed { IsErrOf result Cut.Wire → (Rose (W.fault_count ab.old) (W.fault_count ab.new)) ⊎ (Rose (W.fault_count ba.old) (W.fault_count ba.new)) }
{
    let request = get_item(alloc, seq, dict, letter)?;
    let value = ask(alloc, seq, &request, a, b, ab, ba)?;
    match number_in(&value) {
        Some(number) => Ok(print(&mut a.output, number)?),
        None => unreachable!(),
    }
}

/// Asks B for the number of each letter in turn, and prints it.
fn print_items<W: Wire>(
    alloc: Global,
    letters: &[u8],
    dict: &Plain,
    a: &mut SideA,
    b: &mut SideB,
    ab: &mut W,
    ba: &mut W,
) -> Result<(), Cut>
    requires answered { AreAnswered b.old.bindings.items letters.now }
    requires dict { dict.now ≡ namespace }
    requires idle { IsIdle (W.queue ab.old) (W.queue ba.old) a.old.inbox b.old.inbox }
    ensures printed { OnOk result (string_bytes a.new.output ≡ string_bytes a.old.output ++ printed b.old.bindings.items letters.now) }
    ensures some_printed { IsErrOf result Cut.Wire → PrintsFirst b.old.bindings.items letters.now (string_bytes a.old.output) (string_bytes a.new.output) }
    ensures carried { OnOk result (Carries (stream (items_from b.old.bindings.items 2 letters.now)) (W.carried ab.old) (W.carried ab.new) (W.carried ba.old) (W.carried ba.new)) }
    ensures part { OnErr result (CarriesFront (stream (items_from b.old.bindings.items 2 letters.now)) (W.carried ab.old) (W.carried ab.new) (W.carried ba.old) (W.carried ba.new)) }
    ensures idle { OnOk result (IsIdle (W.queue ab.new) (W.queue ba.new) a.new.inbox b.new.inbox) }
    ensures kept { b.new.bindings ≡ b.old.bindings }
    ensures begun { (W.begun ab.new ≡ W.begun ab.old) × (W.begun ba.new ≡ W.begun ba.old) }
    ensures later { (W.fault_count ab.old ≤ W.fault_count ab.new) × (W.fault_count ba.old ≤ W.fault_count ba.new) }
    ensures failed { IsErrOf result Cut.Wire → (Rose (W.fault_count ab.old) (W.fault_count ab.new)) ⊎ (Rose (W.fault_count ba.old) (W.fault_count ba.new)) }
{
    for (index, letter) in letters.iter().enumerate() {
        print_item(alloc, 2 + index as u64, *letter, dict, a, b, ab, ba)?;
    }
    Ok(())
}

/// Tells B to close, and has B read it.
fn close<W: Wire>(alloc: Global, seq: u64, b: &mut SideB, ab: &mut W) -> Result<(), Cut>
    requires idle { (W.queue ab.old ≡ []) × (b.old.inbox ≡ []) }
    ensures carried { OnOk result (W.carried ab.new ≡ W.carried ab.old ++ bytes_of (asks seq question.Close)) }
    ensures part { OnErr result (CarriesPart (bytes_of (asks seq question.Close)) (W.carried ab.old) (W.carried ab.new)) }
    ensures begun { W.begun ab.new ≡ W.begun ab.old }
    ensures later { W.fault_count ab.old ≤ W.fault_count ab.new }
    ensures failed { IsErrOf result Cut.Wire → Rose (W.fault_count ab.old) (W.fault_count ab.new) }
{
    let request = messages::close(alloc, seq)?;
    let heard = deliver(alloc, &request, ab, &mut b.inbox)?;
    match read_question(&heard) {
        Some((_, Question::Close)) => Ok(()),
        _ => unreachable!(),
    }
}

/// The whole conversation of a pair over two wires with nothing queued.
pub fn converse<W: Wire>(
    alloc: Global,
    letters: &[u8],
    a: &mut SideA,
    b: &mut SideB,
    ab: &mut W,
    ba: &mut W,
) -> Result<(), Cut>
    requires answered { AreAnswered b.old.bindings.items letters.now }
    requires idle { IsIdle (W.queue ab.old) (W.queue ba.old) a.old.inbox b.old.inbox }
    ensures printed { OnOk result (string_bytes a.new.output ≡ string_bytes a.old.output ++ printed b.old.bindings.items letters.now) }
    ensures some_printed { IsErrOf result Cut.Wire → PrintsFirst b.old.bindings.items letters.now (string_bytes a.old.output) (string_bytes a.new.output) }
    ensures carried { OnOk result (Carries (stream (talk b.old.bindings.items letters.now)) (W.carried ab.old) (W.carried ab.new) (W.carried ba.old) (W.carried ba.new)) }
    ensures part { OnErr result (CarriesFront (stream (talk b.old.bindings.items letters.now)) (W.carried ab.old) (W.carried ab.new) (W.carried ba.old) (W.carried ba.new)) }
    ensures begun { (W.begun ab.new ≡ W.begun ab.old) × (W.begun ba.new ≡ W.begun ba.old) }
    ensures later { (W.fault_count ab.old ≤ W.fault_count ab.new) × (W.fault_count ba.old ≤ W.fault_count ba.new) }
    ensures failed { IsErrOf result Cut.Wire → (Rose (W.fault_count ab.old) (W.fault_count ab.new)) ⊎ (Rose (W.fault_count ba.old) (W.fault_count ba.new)) }
{
    let object = ask_root(alloc, a, b, ab, ba)?;
    let dict = ask_namespace(alloc, &object, a, b, ab, ba)?;
    print_items(alloc, letters, &dict, a, b, ab, ba)?;
    close(alloc, 2 + letters.len() as u64, b, ab)?;
    Ok(())
}
