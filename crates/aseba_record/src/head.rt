//! The head of a recording of format 2.
ghost use Rattle.std.specs.Prelude.{◌≡◌, ◌+◌, ◌≤◌, [], length, map, IfOk};
ghost use Rattle.std.specs.Str.Lines.{lines};
ghost use Rattle.aseba_words.specs.declared.limits.TheConstants.{MOST_EVENTS, MOST_EVENT_CELLS};
ghost use Rattle.aseba_text.specs.Names as names;
ghost use Rattle.aseba_describe.specs.Reading as project;
ghost use Rattle.aseba_record.specs.Reading as spec;

use crate::fault::{LineFault, RecordError};
use crate::fields::{cut, number};
use aseba_text::first_line;
use aseba_tree::{Sized, is_name};
use aseba_words::{List, MOST_EVENT_CELLS, MOST_EVENTS, Name};
use std::alloc::Global;

/// The events of the lines from the second on up to the line `frames`, the number of the line behind
/// it, and the text from there on; or the first bad line.
pub fn read_head(alloc: Global, text: &[u8]) -> Result<(List<Sized>, u64, &[u8]), RecordError>
    ensures value { spec.Reads (λ head. (head.0, (head.1, lines head.2.now))) result (spec.head_from 2 [] (lines text.now)) }
    ensures few { IfOk result (λ head. length head.0 ≤ MOST_EVENTS) }
    ensures room { IfOk result (λ head. head.1 + length head.2.now ≤ 2 + length text.now) }
{
    let mut events = List::new(alloc);
    let mut rest = text;
    let mut n: u64 = 2;
    while !rest.is_empty() {
        let (line, behind) = first_line(rest);
        if line == b"frames".as_slice() {
            return Ok((events, n + 1, behind));
        }
        match take_event(alloc, &mut events, line) {
            Ok(()) => {}
            Err(LineFault::Bad) => return Err(RecordError::Line { n }),
            Err(LineFault::Mem) => return Err(RecordError::Mem),
        }
        rest = behind;
        n += 1;
    }
    Err(RecordError::Line { n })
}

/// Takes the line of an event, which needs a name of its own.
#[tactic(auto, unfolding(crate::specs::Reading::with_event))]
fn take_event(alloc: Global, events: &mut List<Sized>, line: &[u8]) -> Result<(), LineFault>
    ensures value { spec.Gives (λ _. events.new) result (spec.with_event events.old line.now) }
    ensures few { length events.old ≤ MOST_EVENTS → length events.new ≤ MOST_EVENTS }
{
    let one = event(alloc, line)?;
    if events.as_slice().len() >= MOST_EVENTS || stands_in(one.name.as_bytes(), events.as_slice()) {
        return Err(LineFault::Bad);
    }
    events.add(one)?;
    Ok(())
}

/// Whether an event has this name.
fn stands_in(name: &[u8], events: &[Sized]) -> bool
    ensures { result ≡ names.stands_in name.now (map (λ e. e.name) events.now) }
{
    let mut rest = events;
    while let [first, behind @ ..] = rest {
        if name == first.name.as_bytes() {
            return true;
        }
        rest = behind;
    }
    false
}

/// The event that a line tells.
#[tactic(auto, unfolding(crate::specs::Reading::named_of))]
fn event(alloc: Global, line: &[u8]) -> Result<Sized, LineFault>
    ensures { spec.Gives (λ event. event) result (spec.named_of line.now) }
{
    let (word, fields) = cut(line)?;
    if word != b"event".as_slice() {
        return Err(LineFault::Bad);
    }
    sized(alloc, fields)
}

/// A name and a number of cells, as a project tells them of its events.
#[tactic(auto, unfolding(aseba_describe::specs::Reading::sized_of))]
fn sized(alloc: Global, fields: &[u8]) -> Result<Sized, LineFault>
    ensures { spec.Gives (λ event. event) result (project.sized_of 0 MOST_EVENT_CELLS fields.now) }
{
    let (word, rest) = cut(fields)?;
    let name = name(alloc, word)?;
    let size = number(u64::from(MOST_EVENT_CELLS), rest)?;
    Ok(Sized {
        name,
        size: size as u16,
    })
}

fn name(alloc: Global, text: &[u8]) -> Result<Name, LineFault>
    ensures { spec.Gives (λ name. name) result (project.name_of text.now) }
{
    if !is_name(text) {
        return Err(LineFault::Bad);
    }
    Ok(Name::new(alloc, text)?)
}
