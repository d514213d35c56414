//! What a line of format 1 tells behind its source.
ghost use Rattle.std.specs.Prelude.{◌≡◌, ◌<◌, ◌≤◌, length, IfOk};
ghost use Rattle.hex.specs.Hex.{decode_of};
ghost use Rattle.aseba_text.specs.Names.{is_same};
ghost use Rattle.aseba_record.specs.Reading as spec;

use crate::fault::LineFault;
use crate::fields::cut;
use aseba_message::Frame;
use aseba_words::{List, is_within};
use hex::FromHexError;
use std::alloc::Global;

/// The frame of an event from a source, whose number and bytes a text tells.
#[tactic(auto, unfolding(crate::specs::Reading::old_of))]
pub fn old_frame(alloc: Global, source: u16, text: &[u8]) -> Result<Frame, LineFault>
    ensures { spec.Gives (λ frame. frame) result (spec.old_of source text.now) }
{
    let (word, rest) = cut(text)?;
    let kind = kind(word)?;
    let payload = payload(alloc, rest)?;
    Ok(Frame {
        source,
        kind,
        payload,
    })
}

/// The number of an event, which is four hexadecimal digits below 8000.
#[tactic(auto, unfolding(crate::specs::Reading::kind_of))]
fn kind(word: &[u8]) -> Result<u16, LineFault>
    ensures { spec.Gives (λ n. n) result (spec.kind_of word.now) }
{
    let [a, b, c, d] = word else {
        return Err(LineFault::Bad);
    };
    let first = digit(*a)?;
    let second = digit(*b)?;
    let third = digit(*c)?;
    let fourth = digit(*d)?;
    if first >= 8 {
        return Err(LineFault::Bad);
    }
    Ok(first * 4096 + second * 256 + third * 16 + fourth)
}

/// The number of a hexadecimal digit in lower case.
fn digit(b: u8) -> Result<u16, LineFault>
    ensures value { spec.Gives (λ n. n) result (spec.digit_of b) }
    ensures small { IfOk result (λ n. n < 16) }
{
    if is_within(b'0', b'9', b) {
        Ok(u16::from(b - b'0'))
    } else if is_within(b'a', b'f', b) {
        Ok(u16::from(b - b'a') + 10)
    } else {
        Err(LineFault::Bad)
    }
}

/// The bytes of an event: a dash where there are none.
fn payload(alloc: Global, text: &[u8]) -> Result<List<u8>, LineFault>
    ensures value { spec.Gives (λ bytes. bytes) result (spec.payload_of text.now) }
    ensures few { IfOk result (λ bytes. length bytes ≤ 1024) }
{
    if text == b"-".as_slice() {
        return Ok(List::new(alloc));
    }
    words(alloc, text)
}

/// The bytes of some words, each as two hexadecimal digits in lower case.
#[tactic(auto, unfolding(crate::specs::Reading::bytes_of))]
fn words(alloc: Global, text: &[u8]) -> Result<List<u8>, LineFault>
    ensures value { spec.Gives (λ bytes. bytes) result (spec.bytes_of text.now) }
    ensures few { IfOk result (λ bytes. length bytes ≤ 1024) }
{
    let bytes = spelled_bytes(alloc, text)?;
    if !are_words(&bytes) {
        return Err(LineFault::Bad);
    }
    Ok(List::from_vec(bytes))
}

/// Whether bytes are those of some words, and few enough for a frame.
fn are_words(bytes: &[u8]) -> bool
    ensures { result ≡ spec.are_words bytes.now }
{
    !bytes.is_empty() && bytes.len() <= 1024 && bytes.len() % 2 == 0
}

/// The bytes of which a text is the one spelling.
fn spelled_bytes(alloc: Global, text: &[u8]) -> Result<Vec<u8>, LineFault>
    ensures { spec.Gives (λ bytes. bytes.items) result (spec.spelled_by text.now (decode_of text.now)) }
{
    let bytes = match hex::decode(alloc, text) {
        Ok(bytes) => bytes,
        Err(FromHexError::OutOfMemory) => return Err(LineFault::Mem),
        Err(_) => return Err(LineFault::Bad),
    };
    let Ok(again) = hex::encode(alloc, bytes.as_slice()) else {
        return Err(LineFault::Mem);
    };
    if again.as_bytes() != text {
        return Err(LineFault::Bad);
    }
    Ok(bytes)
}
