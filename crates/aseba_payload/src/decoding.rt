ghost use Rattle.std.specs.Prelude.{◌≡◌, ◌≢◌, IfOk, IfErr, Some, None};
ghost use Rattle.std.specs.Result.{result_ok};
ghost use Rattle.aseba_payload.specs.declared.error.PayloadError.{PayloadError};
ghost use Rattle.aseba_payload.specs.Decoding.{Decodes};
ghost use Rattle.aseba_payload.specs.Meaning.{payload_of};
ghost use Rattle.aseba_payload.specs.Reading.{Gives, row_at, payload_at};

use crate::error::PayloadError;
use crate::fault::Fault;
use crate::payload::Payload;
use crate::reading;
use crate::rows::rows;
use aseba_message::Frame;
use std::alloc::Global;

macro_rules! read {
    (word $alloc:ident $rest:ident) => {
        reading::word($rest)?
    };
    ($field:ident $alloc:ident $rest:ident) => {
        reading::$field($alloc, $rest)?
    };
}

macro_rules! decoding {
    (($alloc:ident $kind:ident $bytes:ident) $($number:literal $variant:ident { $($field:ident: $spelled:ident),* })*) => {
        match $kind {
            0..=0x7fff => {
                let (words, rest) = reading::words($alloc, $bytes)?;
                Ok((Payload::User { kind: $kind, words }, rest))
            }
            $($number => {
                let rest = $bytes;
                $(let ($field, rest) = read!($spelled $alloc rest);)*
                Ok((Payload::$variant { $($field),* }, rest))
            })*
            _ => Err(Fault::UnknownType),
        }
    };
}

fn row(alloc: Global, kind: u16, bytes: &[u8]) -> Result<(Payload, &[u8]), Fault>
    ensures { Gives (λ x. (x.0, x.1.now)) result (row_at kind bytes.now) }
{
    rows!(decoding(alloc kind bytes))
}

fn payload(alloc: Global, kind: u16, bytes: &[u8]) -> Result<Payload, Fault>
    ensures { Gives (λ x. x) result (payload_at kind bytes.now) }
{
    let (payload, rest) = row(alloc, kind, bytes)?;
    if rest.is_empty() {
        Ok(payload)
    } else {
        Err(Fault::Long {
            at: bytes.len() - rest.len(),
        })
    }
}

/// What a frame says: the one payload of its type that its bytes spell, or what is wrong with them.
pub fn decode(alloc: Global, frame: &Frame) -> Result<Payload, PayloadError>
    ensures said { Decodes frame.now.kind frame.now.payload result }
    ensures payload { IfOk result (λ payload. payload_of frame.now ≡ Some payload) }
    ensures none { IfErr result (λ error. error ≢ PayloadError.Mem → payload_of frame.now ≡ None) }
{
    decoded(alloc, frame.kind, frame.payload.as_slice())
}

fn decoded(alloc: Global, kind: u16, bytes: &[u8]) -> Result<Payload, PayloadError>
    ensures said { Decodes kind bytes.now result }
    ensures payload { IfOk result (λ payload. result_ok (payload_at kind bytes.now) ≡ Some payload) }
    ensures none { IfErr result (λ error. error ≢ PayloadError.Mem → result_ok (payload_at kind bytes.now) ≡ None) }
{
    match payload(alloc, kind, bytes) {
        Ok(payload) => Ok(payload),
        Err(fault) => Err(fault.in_payload(kind, bytes.len())),
    }
}
