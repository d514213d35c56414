//! The events of a recording, one in each line.
ghost use Rattle.std.specs.Prelude.{◌≡◌, ◌+◌, ◌<◌, ◌^◌, [], length};
ghost use Rattle.std.specs.Str.Lines.{lines};
ghost use Rattle.aseba_record.specs.Reading as spec;

use crate::bytes::old_frame;
use crate::fault::{LineFault, RecordError};
use crate::fields::{cut, number};
use crate::format::Format;
use crate::words::new_frame;
use aseba_dump::Timed;
use aseba_message::Frame;
use aseba_text::first_line;
use aseba_words::List;
use std::alloc::Global;

/// The latest time of an event.
pub const MOST_TIME: u64 = 0x7FFF_FFFF_FFFF_FFFF;

/// The events of the lines from one number on, or the first bad line.
pub fn read_entries(
    alloc: Global,
    format: &Format,
    first: u64,
    text: &[u8],
) -> Result<List<Timed>, RecordError>
    requires few { spec.HasFew format.now }
    requires room { first + length text.now < 2 ^ 64 }
    ensures { spec.Reads (λ timed. timed) result (spec.entries_from format.now first [] (lines text.now)) }
{
    let mut timed = List::new(alloc);
    let mut rest = text;
    let mut n = first;
    while !rest.is_empty() {
        let (line, behind) = first_line(rest);
        match take_line(alloc, format, &mut timed, line) {
            Ok(()) => {}
            Err(LineFault::Bad) => return Err(RecordError::Line { n }),
            Err(LineFault::Mem) => return Err(RecordError::Mem),
        }
        rest = behind;
        n += 1;
    }
    Ok(timed)
}

/// Takes a line, whose event may not be earlier than the last.
#[tactic(auto, unfolding(crate::specs::Reading::with_entry))]
fn take_line(
    alloc: Global,
    format: &Format,
    timed: &mut List<Timed>,
    line: &[u8],
) -> Result<(), LineFault>
    requires { spec.HasFew format.now }
    ensures { spec.Gives (λ _. timed.new) result (spec.with_entry format.now timed.old line.now) }
{
    let one = entry(alloc, format, line)?;
    if one.time < last_time(timed.as_slice()) {
        return Err(LineFault::Bad);
    }
    timed.add(one)?;
    Ok(())
}

/// The time of the last event, and 0 where there is none.
fn last_time(timed: &[Timed]) -> u64
    ensures { result ≡ spec.last_time 0 timed.now }
{
    match timed {
        [.., last] => last.time,
        [] => 0,
    }
}

/// The event that a line says, with its time.
#[tactic(auto, unfolding(crate::specs::Reading::entry_of))]
fn entry(alloc: Global, format: &Format, line: &[u8]) -> Result<Timed, LineFault>
    requires { spec.HasFew format.now }
    ensures { spec.Gives (λ timed. timed) result (spec.entry_of format.now line.now) }
{
    let (word, rest) = cut(line)?;
    let time = number(MOST_TIME, word)?;
    let (word, rest) = cut(rest)?;
    let source = number(65535, word)?;
    let frame = frame(alloc, format, source as u16, rest)?;
    Ok(Timed { time, frame })
}

/// The frame that a line tells behind its source.
fn frame(alloc: Global, format: &Format, source: u16, text: &[u8]) -> Result<Frame, LineFault>
    requires { spec.HasFew format.now }
    ensures { spec.Gives (λ frame. frame) result (spec.said_by format.now source text.now) }
{
    match format {
        Format::Old => old_frame(alloc, source, text),
        Format::New(events) => new_frame(alloc, events.as_slice(), source, text),
    }
}
