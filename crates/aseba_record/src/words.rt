//! What a line of format 2 tells behind its source.
ghost use Rattle.std.specs.Prelude.{◌≡◌, ◌≤◌, ◌<◌, ◌++◌, length, option_map, IfSome, OnOk};
ghost use Rattle.std.specs.Int.{w16, cast_unsigned};
ghost use Rattle.aseba_words.specs.declared.limits.TheConstants.{MOST_EVENTS};
ghost use Rattle.aseba_text.specs.Fields as line;
ghost use Rattle.aseba_text.specs.Numbers as numbers;
ghost use Rattle.aseba_payload.specs.Layout.{word_bytes};
ghost use Rattle.aseba_record.specs.Reading as spec;

use crate::fault::LineFault;
use crate::fields::number;
use aseba_message::Frame;
use aseba_text::first_field;
use aseba_tree::Sized;
use aseba_words::{List, Mem};
use byteorder::{ByteOrder, LittleEndian};
use std::alloc::Global;

/// The frame of an event from a source, whose name and words a text tells.
#[tactic(auto, unfolding(crate::specs::Reading::new_by))]
pub fn new_frame(
    alloc: Global,
    events: &[Sized],
    source: u16,
    text: &[u8],
) -> Result<Frame, LineFault>
    requires { length events.now ≤ MOST_EVENTS }
    ensures { spec.Gives (λ frame. frame) result (spec.new_by events.now source (line.fields text.now)) }
{
    let (word, rest) = first_field(text);
    let kind = event_number(events, word)?;
    let payload = cell_bytes(alloc, rest)?;
    if payload.as_slice().len() > 1024 {
        return Err(LineFault::Bad);
    }
    Ok(Frame {
        source,
        kind,
        payload,
    })
}

/// The number of an event, by its name, or by its number where it has no name.
fn event_number(events: &[Sized], word: &[u8]) -> Result<u16, LineFault>
    requires { length events.now ≤ MOST_EVENTS }
    ensures { spec.Gives (λ n. n) result (spec.event_in events.now word.now) }
{
    match place(events, word) {
        Some(place) => Ok(place as u16),
        None => nameless(events.len(), word),
    }
}

/// The number of an event behind those that have names.
fn nameless(names: usize, word: &[u8]) -> Result<u16, LineFault>
    ensures { spec.Gives (λ n. n) result (spec.number_behind names word.now) }
{
    let number = number(32767, word)?;
    if number < names as u64 {
        return Err(LineFault::Bad);
    }
    Ok(number as u16)
}

/// The place of the first event of this name.
fn place(events: &[Sized], name: &[u8]) -> Option<usize>
    ensures value { result ≡ spec.place_of name.now events.now }
    ensures inside { IfSome result (λ place. place < length events.now) }
{
    events
        .iter()
        .position(|event| event.name.as_bytes() == name)
}

/// The bytes of cells, one cell in each field.
fn cell_bytes(alloc: Global, fields: Option<&[u8]>) -> Result<List<u8>, LineFault>
    ensures { spec.Gives (λ bytes. bytes) result (spec.cells_of (line.fields_behind (option_map (λ rest. rest.now) fields.entry))) }
{
    let mut bytes = Vec::new(alloc);
    let mut rest = fields;
    while let Some(fields) = rest {
        let (word, behind) = first_field(fields);
        push_cell(&mut bytes, word)?;
        rest = behind;
    }
    Ok(List::from_vec(bytes))
}

/// Adds the two bytes of a cell that a field tells.
fn push_cell(bytes: &mut Vec<u8>, field: &[u8]) -> Result<(), LineFault>
    ensures { spec.AddsCell bytes.old.items field.now bytes.new.items result }
{
    let Some(cell) = aseba_text::cell(field) else {
        return Err(LineFault::Bad);
    };
    let mut word = [0; 2];
    LittleEndian::write_i16(&mut word, cell);
    if bytes.extend_from_slice(&word).is_err() {
        return Err(LineFault::Mem);
    }
    Ok(())
}
