//! Recordings as texts.
ghost use Rattle.std.specs.Prelude.{◌≡◌, ◌<◌, ◌^◌, [], ◌∷◌, ◌++◌, codes, decimal, flat_map, IfOk, OnOk};
ghost use Rattle.aseba_words.specs.Spelled.{blank_number};
ghost use Rattle.aseba_describe.specs.Plain.{IsPlain};
ghost use Rattle.aseba_dump.specs.Field.{signed_words};
ghost use Rattle.aseba_payload.specs.Reading.{words_of};
ghost use Rattle.aseba_record.specs.declared.format.Format.TheVariants.{Old, New};
ghost use Rattle.aseba_record.specs.Events.{IsEvent};
ghost use Rattle.aseba_record.specs.Grammar.{Recording};
ghost use Rattle.aseba_record.specs.Texts as texts;

use crate::events::is_entry;
use aseba_dump::{push_bytes, push_signed_word};
use aseba_message::Frame;
use aseba_text::Text;
use aseba_tree::{Project, Sized};
use aseba_words::{List, Mem};
use std::alloc::Global;

/// The lines in front of the events in a recording of a project's network: that it is of format 2,
/// the project's events by name and size, and the line `frames`.
pub fn record_head(alloc: Global, project: &Project) -> Result<List<u8>, Mem>
    ensures { IfOk result (λ text. text ≡ texts.head_text project.now) }
{
    let mut out = Text::new(alloc);
    out.push(b"aseba-recording 2\n")?;
    push_events(&mut out, project.events.as_slice())?;
    out.push(b"frames\n")?;
    Ok(out.into_bytes())
}

/// The line of an event that came at a time, in a recording whose head names the project's events.
pub fn record_entry(
    alloc: Global,
    time: u64,
    frame: &Frame,
    project: &Project,
) -> Result<List<u8>, Mem>
    requires event { IsEvent frame.now }
    requires time { time < 2 ^ 63 }
    ensures line { IfOk result (λ line. line ≡ texts.entry_line (New project.now.events) (record { time = time; frame = frame.now })) }
    // Behind the head it is read again.
    ensures read { IsPlain project.now → IfOk result (λ line. Recording (texts.head_text project.now ++ line) (record { time = time; frame = frame.now } ∷ [])) }
{
    is_entry(time, frame);
    named_line(alloc, time, frame, project)
}

fn named_line(alloc: Global, time: u64, frame: &Frame, project: &Project) -> Result<List<u8>, Mem>
    ensures { IfOk result (λ line. line ≡ texts.entry_line (New project.now.events) (record { time = time; frame = frame.now })) }
{
    let mut out = Text::new(alloc);
    push_moment(&mut out, time, frame.source)?;
    push_event_word(&mut out, project.events.as_slice(), frame.kind)?;
    push_words(&mut out, frame.payload.as_slice())?;
    out.push(b"\n")?;
    Ok(out.into_bytes())
}

/// The line of an event that came at a time, in a recording of format 1.
pub fn record_line(alloc: Global, time: u64, frame: &Frame) -> Result<List<u8>, Mem>
    requires event { IsEvent frame.now }
    requires time { time < 2 ^ 63 }
    ensures line { IfOk result (λ line. line ≡ texts.entry_line Old (record { time = time; frame = frame.now })) }
    // It is read again.
    ensures read { IfOk result (λ line. Recording line (record { time = time; frame = frame.now } ∷ [])) }
{
    is_entry(time, frame);
    numbered_line(alloc, time, frame)
}

fn numbered_line(alloc: Global, time: u64, frame: &Frame) -> Result<List<u8>, Mem>
    ensures { IfOk result (λ line. line ≡ texts.entry_line Old (record { time = time; frame = frame.now })) }
{
    let mut out = Text::new(alloc);
    push_moment(&mut out, time, frame.source)?;
    out.push_word(frame.kind)?;
    out.push(b" ")?;
    push_bytes(alloc, &mut out, frame.payload.as_slice())?;
    out.push(b"\n")?;
    Ok(out.into_bytes())
}

/// Adds the lines of events in a head.
fn push_events(out: &mut Text, events: &[Sized]) -> Result<(), Mem>
    ensures { OnOk result (out.new ≡ out.old ++ flat_map (λ e. texts.event_text e ++ codes "\n") events.now) }
{
    for event in events {
        push_event(out, event)?;
    }
    Ok(())
}

fn push_event(out: &mut Text, event: &Sized) -> Result<(), Mem>
    ensures { OnOk result (out.new ≡ out.old ++ (texts.event_text event.now ++ codes "\n")) }
{
    out.push(b"event ")?;
    out.push(event.name.as_bytes())?;
    out.push(b" ")?;
    out.push_number(u64::from(event.size))?;
    out.push(b"\n")
}

/// Adds when an event came and from where.
fn push_moment(out: &mut Text, time: u64, source: u16) -> Result<(), Mem>
    ensures { OnOk result (out.new ≡ out.old ++ (decimal time ++ blank_number source ++ codes " ")) }
{
    out.push_number(time)?;
    out.push(b" ")?;
    out.push_number(u64::from(source))?;
    out.push(b" ")
}

/// Adds an event by its name, or by its number where none is given for it.
fn push_event_word(out: &mut Text, events: &[Sized], kind: u16) -> Result<(), Mem>
    ensures { OnOk result (out.new ≡ out.old ++ texts.event_word events.now kind) }
{
    let index = usize::from(kind);
    if index >= events.len() {
        return out.push_number(u64::from(kind));
    }
    out.push(events[index].name.as_bytes())
}

/// Adds the words of an even number of bytes as signed numbers, each behind a blank.
fn push_words(out: &mut Text, bytes: &[u8]) -> Result<(), Mem>
    ensures { OnOk result (out.new ≡ out.old ++ signed_words (words_of bytes.now)) }
{
    let mut rest = bytes;
    while let [low, high, behind @ ..] = rest {
        push_signed_word(out, u16::from_le_bytes([*low, *high]))?;
        rest = behind;
    }
    Ok(())
}
