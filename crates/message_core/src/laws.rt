ghost use Rattle.std.specs.Prelude.{◌≡◌, ◌<◌, ◌^◌, Result, Ok};
ghost use Rattle.rp_base.specs.declared.plain.Plain.{Plain};
ghost use Rattle.message_core.specs.declared.message.Message.{Message};
ghost use Rattle.message_core.specs.declared.faults.MsgFault.{MsgFault};
ghost use Rattle.message_core.specs.Messages.{Finds, message_value, message_number};

/// A value is at most one message, or none by at most one fault: no two answers are found of it.
pub fn values_are_one_message()
    ensures { (p : Plain) (r s : Result Message MsgFault) → Finds p r → Finds p s → r ≡ s }
{}

/// What was spelled is read back, and two messages with one value are equal.
pub fn messages_are_read_back()
    ensures read { (m : Message) → message_number m < 2 ^ 64 → Finds (message_value m) (Ok m) }
    ensures equal { (m n : Message) → message_number m < 2 ^ 64 → message_number n < 2 ^ 64 → message_value m ≡ message_value n → m ≡ n }
{}
