//! A stream of frames, told line by line.

ghost use Rattle.std.specs.Prelude.{◌≡◌, ◌<◌, ◌++◌, [], ◌∷◌, codes, decimal, length, IsTrue, IfOk, OnOk, OnErr};
ghost use Rattle.aseba_edge.specs.Counts.{Counts};
ghost use Rattle.aseba_edge.specs.Sink.{Took, TookFirst};
ghost use Rattle.aseba_message.specs.Frames.{is_frame, message_of};
ghost use Rattle.aseba_message.specs.Reader.{answer};
ghost use Rattle.aseba_message.specs.Cut.{ended, frames_of};
ghost use Rattle.aseba_tree.specs.Line.{blank_number};
ghost use Rattle.aseba_tools.specs.DumpText.{dump_lines_text, payload_text, raw_dump_text, raw_lines};
ghost use Rattle.aseba_tools.specs.DumpText.DumpLine.{rest as remains};
ghost use Rattle.aseba_tools.specs.Page.{Gathered};
ghost use Rattle.aseba_tools.specs.StreamEnd.{IsEndOf, end_lines};
ghost use Rattle.aseba_driver.specs.Unwritten.{is_write_fault};

use aseba_driver::{Unwritten, put_text};
use aseba_edge::Sink;
use aseba_message::{Fed, Frame, FrameReader};
use aseba_text::Text;
use aseba_words::Mem;
use std::alloc::Global;

/// How a stream ended.
#[derive(Clone, Copy, Debug, PartialEq, Eq)]
pub enum StreamEnd {
    /// All of it was read. So many bytes at its end are no whole frame.
    Ended { rest: u64 },
    /// A length that no frame may have stands at this byte.
    Bad { place: u64 },
}

/// How many bytes of text are gathered before they are written.
const PAGE: usize = 32_768;

/// Writes the lines of a stream's frames, all of time 0, and that of what remains.
pub fn put_stream<S: Sink>(alloc: Global, bytes: &[u8], out: &mut S) -> Result<StreamEnd, Unwritten>
    ensures end { IfOk result (IsEndOf bytes.now) }
    ensures whole { OnOk result (Took (S.taken out.old) (raw_dump_text bytes.now) (S.taken out.new)) }
    ensures part { OnErr result (TookFirst (S.taken out.old) (raw_dump_text bytes.now) (S.taken out.new)) }
    ensures count { Counts (is_write_fault result) (S.faults out.old) (S.faults out.new) }
{
    let mut page = Text::new(alloc);
    let end = put_frames(alloc, bytes, &mut page, out)?;
    put_end(&mut page, end, out)?;
    Ok(end)
}

/// Takes a stream's frames and adds their lines to a page, which is written whenever it is full.
fn put_frames<S: Sink>(
    alloc: Global,
    bytes: &[u8],
    page: &mut Text,
    out: &mut S,
) -> Result<StreamEnd, Unwritten>
    ensures end { IfOk result (IsEndOf bytes.now) }
    ensures whole { OnOk result (Gathered (S.taken out.old) page.old (dump_lines_text (raw_lines 0 (frames_of bytes.now))) (S.taken out.new) page.new) }
    ensures part { OnErr result (TookFirst (S.taken out.old) (page.old ++ dump_lines_text (raw_lines 0 (frames_of bytes.now))) (S.taken out.new)) }
    ensures count { Counts (is_write_fault result) (S.faults out.old) (S.faults out.new) }
{
    let mut reader = FrameReader::new();
    let mut place = 0;
    while place < bytes.len() {
        let begin = place - reader.held();
        let taken = reader.feed_piece(&bytes[place..]);
        place += taken.count;
        put_ended(alloc, &reader, taken.fed, page, out)?;
        if let Fed::TooLong { .. } = taken.fed {
            return Ok(StreamEnd::Bad {
                place: begin as u64,
            });
        }
    }
    Ok(StreamEnd::Ended {
        rest: reader.held() as u64,
    })
}

/// Adds the line of the frame that a reader has just ended, if it has.
fn put_ended<S: Sink>(
    alloc: Global,
    reader: &FrameReader,
    fed: Fed,
    page: &mut Text,
    out: &mut S,
) -> Result<(), Unwritten>
    requires { fed ≡ answer reader.now }
    ensures whole { OnOk result (Gathered (S.taken out.old) page.old (dump_lines_text (raw_lines 0 (ended fed reader.now))) (S.taken out.new) page.new) }
    ensures part { OnErr result (TookFirst (S.taken out.old) (page.old ++ dump_lines_text (raw_lines 0 (ended fed reader.now))) (S.taken out.new)) }
    ensures count { Counts (is_write_fault result) (S.faults out.old) (S.faults out.new) }
{
    match fed {
        Fed::Whole => put_frame(alloc, reader, page, out),
        Fed::More | Fed::TooLong { .. } => Ok(()),
    }
}

/// Adds the line of the frame that a reader has just ended.
fn put_frame<S: Sink>(
    alloc: Global,
    reader: &FrameReader,
    page: &mut Text,
    out: &mut S,
) -> Result<(), Unwritten>
    requires { IsTrue (is_frame reader.now) }
    ensures whole { OnOk result (Gathered (S.taken out.old) page.old (dump_lines_text (raw_lines 0 (message_of reader.now ∷ []))) (S.taken out.new) page.new) }
    ensures part { OnErr result (TookFirst (S.taken out.old) (page.old ++ dump_lines_text (raw_lines 0 (message_of reader.now ∷ []))) (S.taken out.new)) }
    ensures count { Counts (is_write_fault result) (S.faults out.old) (S.faults out.new) }
{
    let frame = reader.frame(alloc)?;
    push_frame(alloc, page, 0, &frame)?;
    put_full(page, out)
}

/// Writes a page where it is full.
fn put_full<S: Sink>(page: &mut Text, out: &mut S) -> Result<(), Unwritten>
    ensures whole { OnOk result (Gathered (S.taken out.old) page.old [] (S.taken out.new) page.new) }
    ensures short { OnOk result (length page.new < PAGE) }
    ensures part { OnErr result (TookFirst (S.taken out.old) page.old (S.taken out.new)) }
    ensures count { Counts (is_write_fault result) (S.faults out.old) (S.faults out.new) }
{
    if page.as_bytes().len() < PAGE {
        return Ok(());
    }
    put_text(out, page)?;
    page.clear();
    Ok(())
}

/// Adds the line of what remains of a stream, and writes the page.
fn put_end<S: Sink>(page: &mut Text, end: StreamEnd, out: &mut S) -> Result<(), Unwritten>
    ensures whole { OnOk result (Took (S.taken out.old) (page.old ++ dump_lines_text (end_lines end)) (S.taken out.new)) }
    ensures part { OnErr result (TookFirst (S.taken out.old) (page.old ++ dump_lines_text (end_lines end)) (S.taken out.new)) }
    ensures count { Counts (is_write_fault result) (S.faults out.old) (S.faults out.new) }
{
    push_end(page, end)?;
    put_text(out, page)
}

/// Adds the line of what remains of a stream, if anything does.
fn push_end(page: &mut Text, end: StreamEnd) -> Result<(), Mem>
    ensures { OnOk result (page.new ≡ page.old ++ dump_lines_text (end_lines end)) }
{
    match end {
        StreamEnd::Bad { .. } | StreamEnd::Ended { rest: 0 } => Ok(()),
        StreamEnd::Ended { rest } => push_rest(page, rest),
    }
}

/// Adds the line of so many bytes that are no whole frame.
fn push_rest(page: &mut Text, rest: u64) -> Result<(), Mem>
    ensures { OnOk result (page.new ≡ page.old ++ dump_lines_text (remains rest ∷ [])) }
{
    page.push(b"rest ")?;
    page.push_number(rest)?;
    page.push(b"\n")
}

/// Adds the line of a frame as it stands, which came at a time.
fn push_frame(alloc: Global, page: &mut Text, time: u64, frame: &Frame) -> Result<(), Mem>
    ensures { OnOk result (page.new ≡ page.old ++ dump_lines_text (raw_lines time (frame.now ∷ []))) }
{
    push_head(page, time, frame.source)?;
    page.push_word(frame.kind)?;
    page.push(b" ")?;
    push_payload(alloc, page, frame.payload.as_slice())?;
    page.push(b"\n")
}

/// Adds when a frame came and from where.
fn push_head(page: &mut Text, time: u64, source: u16) -> Result<(), Mem>
    ensures { OnOk result (page.new ≡ page.old ++ (decimal time ++ blank_number source ++ codes " raw ")) }
{
    page.push_number(time)?;
    page.push(b" ")?;
    page.push_number(u64::from(source))?;
    page.push(b" raw ")
}

/// Adds the bytes that a frame carries, or a dash for none.
fn push_payload(alloc: Global, page: &mut Text, payload: &[u8]) -> Result<(), Mem>
    ensures { OnOk result (page.new ≡ page.old ++ payload_text payload.now) }
{
    match payload {
        [] => page.push(b"-"),
        _ => page.push_bytes(alloc, payload),
    }
}
