ghost use Rattle.std.specs.Prelude.{◌≡◌};
ghost use Rattle.rp_base.specs.Names.{handler_name, handler_number};

/// What a request asks for, after the handlers of RPyC's module `consts`. The numbers are this product's own.
#[derive(Clone, Copy, Debug, PartialEq, Eq)]
pub enum Handler {
    Ping,
    Close,
    GetRoot,
    GetAttr,
    DelAttr,
    SetAttr,
    Call,
    CallAttr,
    Repr,
    Str,
    Cmp,
    Del,
    Inspect,
}

impl Handler {
    /// The handler's printed name.
    pub fn text(&self) -> &str
        ensures { result.now ≡ handler_name self.now }
    {
        match self {
            Handler::Ping => "PING",
            Handler::Close => "CLOSE",
            Handler::GetRoot => "GETROOT",
            Handler::GetAttr => "GETATTR",
            Handler::DelAttr => "DELATTR",
            Handler::SetAttr => "SETATTR",
            Handler::Call => "CALL",
            Handler::CallAttr => "CALLATTR",
            Handler::Repr => "REPR",
            Handler::Str => "STR",
            Handler::Cmp => "CMP",
            Handler::Del => "DEL",
            Handler::Inspect => "INSPECT",
        }
    }

    /// The handler's number in a message.
    pub fn number(self) -> u8
        ensures { result ≡ handler_number self }
    {
        match self {
            Handler::Ping => 1,
            Handler::Close => 2,
            Handler::GetRoot => 3,
            Handler::GetAttr => 4,
            Handler::DelAttr => 5,
            Handler::SetAttr => 6,
            Handler::Call => 7,
            Handler::CallAttr => 8,
            Handler::Repr => 9,
            Handler::Str => 10,
            Handler::Cmp => 11,
            Handler::Del => 15,
            Handler::Inspect => 16,
        }
    }
}
