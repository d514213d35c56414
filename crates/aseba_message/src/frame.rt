use aseba_words::List;
use std::marker::Model;

/// One message of the network. A payload has at most 1024 bytes.
#[derive(Debug, Drop)]
pub struct Frame {
    /// The id of the node that says it.
    pub source: u16,
    /// An event's number, or a message's type from 0x8000 on.
    pub kind: u16,
    /// What it carries.
    pub payload: List<u8>,
}

impl Model for Frame {
    ghost use Rattle.std.specs.Prelude.{◌≤◌, length};
    ghost use Rattle.aseba_message.specs.Message.{Message, message_code};

    ghost Value = { Message };

    ghost coded = { message_code };

    ghost view = { λ f. record { source = f.source; kind = f.kind; payload = f.payload } };

    ghost invariant = { λ f. length f.payload ≤ 1024 };
}
