//! A recording from its text.
ghost use Rattle.std.specs.Prelude.{◌≡◌, IfOk, IfErr};
ghost use Rattle.std.specs.Str.Lines.{lines};
ghost use Rattle.aseba_record.specs.Grammar as grammar;
ghost use Rattle.aseba_record.specs.Reading as spec;

use crate::entries::read_entries;
use crate::fault::RecordError;
use crate::format::Format;
use crate::head::read_head;
use aseba_dump::Timed;
use aseba_text::first_line;
use aseba_words::List;
use std::alloc::Global;

/// The events that a text of either format spells, with their times; or the text's first bad line.
/// The names of format 2 are those of the text's own head.
pub fn read_recording(alloc: Global, text: &[u8]) -> Result<List<Timed>, RecordError>
    ensures recording { IfOk result (λ timed. grammar.Recording text.now timed) }
    ensures line { IfErr result (λ error. grammar.TellsLine text.now error) }
    ensures decided { grammar.IsDecided text.now }
{
    read_text(alloc, text)
}

/// Whether a text is of format 2: its first line says so. It takes no memory.
pub fn is_new(text: &[u8]) -> bool
    ensures { result ≡ grammar.is_new text.now }
{
    if text.is_empty() {
        return false;
    }
    let (line, _behind) = first_line(text);
    line == b"aseba-recording 2".as_slice()
}

fn read_text(alloc: Global, text: &[u8]) -> Result<List<Timed>, RecordError>
    ensures { spec.Reads (λ timed. timed) result (spec.recording_of (lines text.now)) }
{
    if !is_new(text) {
        return read_entries(alloc, &Format::Old, 1, text);
    }
    let (_line, behind) = first_line(text);
    let (events, n, rest) = read_head(alloc, behind)?;
    read_entries(alloc, &Format::New(events), n, rest)
}
