ghost use Rattle.std.specs.Prelude.{◌≡◌, ◌≤◌, length, Some, IfOk, OnOk};
ghost use Rattle.aseba_payload.specs.Rows.{HasKind, HasShortTexts, CanBeSpelled, IsPayload, kind_of, bytes_of};
ghost use Rattle.aseba_payload.specs.Writing.{with_payload};
ghost use Rattle.aseba_payload.specs.Decoding.{Says};
ghost use Rattle.aseba_payload.specs.Meaning.{payload_of};

use crate::payload::Payload;
use crate::rows::rows;
use crate::writing;
use aseba_message::Frame;
use aseba_words::{List, Mem};
use std::alloc::Global;

macro_rules! write_field {
    (word $out:ident $field:ident) => {
        writing::word($out, *$field)?
    };
    ($spelled:ident $out:ident $field:ident) => {
        writing::$spelled($out, $field)?
    };
}

macro_rules! encoding {
    (($payload:ident $out:ident) $($number:literal $variant:ident { $($field:ident: $spelled:ident),* })*) => {
        match $payload {
            Payload::User { kind, words } => {
                writing::words($out, words)?;
                Ok(*kind)
            }
            $(Payload::$variant { $($field),* } => {
                $(write_field!($spelled $out $field);)*
                Ok($number)
            })*
        }
    };
}

/// Adds the bytes of the fields, and answers the type.
fn write_row(out: &mut Vec<u8>, payload: &Payload) -> Result<u16, Mem>
    requires { CanBeSpelled payload.now }
    ensures kind { IfOk result (λ kind. kind ≡ kind_of payload.now) }
    ensures bytes { OnOk result (out.new.items ≡ with_payload out.old.items payload.now) }
    ensures value { OnOk result (IsPayload payload.now) }
{
    rows!(encoding(payload out))
}

/// The frame that says the payload, from that source.
pub fn to_frame(alloc: Global, source: u16, payload: &Payload) -> Result<Frame, Mem>
    // An event's number is below 0x8000, a text has at most 255 bytes, and a payload at most 1024.
    requires kind { HasKind payload.now }
    requires texts { HasShortTexts payload.now }
    requires room { length (bytes_of payload.now) ≤ 1024 }
    ensures source { IfOk result (λ frame. frame.source ≡ source) }
    ensures said { IfOk result (λ frame. Says frame.kind frame.payload payload.now) }
    ensures value { OnOk result (IsPayload payload.now) }
    // So `decode` of the frame gives the payload.
    ensures read { IfOk result (λ frame. payload_of frame ≡ Some payload.now) }
{
    let mut bytes = Vec::new(alloc);
    let kind = write_row(&mut bytes, payload)?;
    Ok(Frame {
        source,
        kind,
        payload: List::from_vec(bytes),
    })
}
