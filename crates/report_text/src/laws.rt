ghost use Rattle.std.specs.Prelude.{◌≡◌, ◌⊎◌, ◌+◌, ◌-◌, ◌^◌, ◌++◌, ℕ, List, All, None, Ok, Err, String, string_bytes};
ghost use Rattle.std.specs.Global.{Global};
ghost use Rattle.rp_base.specs.declared.plain.Plain.{Plain};
ghost use Rattle.channel_frames.specs.Frames.{IsBytes};
ghost use Rattle.brine_codec.specs.Reading.{decoded};
ghost use Rattle.brine_codec.specs.declared.ends.BrineFault.{BrineFault};
ghost use Rattle.message_core.specs.Messages.{Finds};
ghost use Rattle.message_core.specs.declared.message.Message.{Message};
ghost use Rattle.message_core.specs.declared.faults.MsgFault.{MsgFault};
ghost use Rattle.message_core.specs.declared.faults.PeerFault.{PeerFault};
ghost use Rattle.py_plain.specs.Printing.{PrintsWithin};
ghost use Rattle.py_plain.specs.declared.ends.PlainEnd.{PlainEnd};
ghost use Rattle.py_plain.specs.declared.ends.PlainEnd.TheVariants as plain_end;
ghost use Rattle.report_text.specs.Dumping.{brine_kind, dump_fault, dump_text, fault_at, judge, lines_of, message_kind};
ghost use Rattle.report_text.specs.Contents.{IsFramed, IsMadeOf, all_framed};

/// The frames of messages are printed as the lines of these messages, with no fault.
pub fn messages_are_printed()
    ensures fault { (messages : List Message) → All IsFramed messages → dump_fault (all_framed messages) ≡ None }
    ensures text { (messages : List Message) → All IsFramed messages → dump_text (all_framed messages) ≡ lines_of messages }
{}

/// Each stream is the frames of messages, whose lines are printed, and then bytes that show the fault that is told, at
/// the place where they stand; no bytes, where no fault is told.
pub fn streams_are_messages()
    ensures { (bytes : List ℕ) → IsBytes bytes → (messages : List Message) × (tail : List ℕ) × IsMadeOf bytes messages tail }
{}

/// A frame is the message that its value is. Else its fault is that of its data, counted from the first of them, or that of its
/// value, at the first of its data.
pub fn frames_are_judged()
    ensures message { (at : ℕ) (body : List ℕ) (m : Message) → judge (at, body) ≡ Ok m
        → (v : Plain) × (decoded body ≡ Ok v) × Finds v (Ok m) }
    ensures fault { (at : ℕ) (body : List ℕ) (f : PeerFault) → judge (at, body) ≡ Err f
        → ((b : BrineFault) × (decoded body ≡ Err b) × (f ≡ fault_at (brine_kind b.what) (at + 5 + b.at)))
        ⊎ ((v : Plain) × (e : MsgFault) × (decoded body ≡ Ok v) × Finds v (Err e) × (f ≡ fault_at (message_kind e) (at + 5))) }
{}

/// Printing with the limit `u64::MAX` has none: where any string could hold what is there and what is to be printed, an error
/// is want of memory.
pub fn reports_have_no_limit()
    ensures { (text old new : List ℕ) (whole : String Global) (end : PlainEnd) → string_bytes whole ≡ old ++ text
        → PrintsWithin (2 ^ 64 - 1) text old new (Err end) → end ≡ plain_end.NoMemory }
{}
