ghost use Rattle.std.specs.Prelude.{◌≡◌, ◌++◌, codes, decimal, IfOk, OnOk};
ghost use Rattle.aseba_words.specs.Spelled.{blank_number};
ghost use Rattle.aseba_payload.specs.Meaning.{payload_of};
ghost use Rattle.aseba_dump.specs.Said.{said, said_text};
ghost use Rattle.aseba_dump.specs.DumpText.{raw_text, meant_text, message_text, dump_line};

use crate::fields::push_bytes;
use crate::messages::push_said;
use aseba_message::Frame;
use aseba_payload::{Payload, PayloadError, decode};
use aseba_text::Text;
use aseba_tree::Project;
use aseba_words::{List, Mem};
use std::alloc::Global;

/// The line of a frame that came at a time, with a line feed at its end. It tells by the project's
/// names of events what the frame says. A frame that says nothing is told as it stands, and so is
/// every frame where `raw` is set.
pub fn line_of(
    alloc: Global,
    time: u64,
    frame: &Frame,
    project: &Project,
    raw: bool,
) -> Result<List<u8>, Mem>
    ensures { IfOk result (λ line. line ≡ dump_line project.now raw time frame.now) }
{
    let mut line = Text::new(alloc);
    push_head(&mut line, time, frame.source)?;
    push_message(alloc, &mut line, frame, project, raw)?;
    line.push(b"\n")?;
    Ok(line.into_bytes())
}

/// Adds when a frame came and from where.
fn push_head(out: &mut Text, time: u64, source: u16) -> Result<(), Mem>
    ensures { OnOk result (out.new ≡ out.old ++ (decimal time ++ blank_number source ++ codes " ")) }
{
    out.push_number(time)?;
    out.push(b" ")?;
    out.push_number(u64::from(source))?;
    out.push(b" ")
}

fn push_message(
    alloc: Global,
    out: &mut Text,
    frame: &Frame,
    project: &Project,
    raw: bool,
) -> Result<(), Mem>
    ensures { OnOk result (out.new ≡ out.old ++ message_text project.now raw frame.now) }
{
    if raw {
        push_raw(alloc, out, frame)
    } else {
        push_meant(alloc, out, frame, project)
    }
}

/// Adds a frame by what it says, or as it stands where it says nothing.
fn push_meant(alloc: Global, out: &mut Text, frame: &Frame, project: &Project) -> Result<(), Mem>
    ensures { OnOk result (out.new ≡ out.old ++ meant_text project.now frame.now (payload_of frame.now)) }
{
    match decode(alloc, frame) {
        Ok(payload) => push_payload(alloc, out, project, &payload),
        Err(PayloadError::Mem) => Err(Mem),
        Err(_) => push_raw(alloc, out, frame),
    }
}

#[tactic(auto, using(crate::proofs::Added::said_added))]
fn push_payload(
    alloc: Global,
    out: &mut Text,
    project: &Project,
    payload: &Payload,
) -> Result<(), Mem>
    ensures { OnOk result (out.new ≡ out.old ++ said_text (said project.now payload.now)) }
{
    push_said(alloc, out, project, payload)?;
    Ok(())
}

/// Adds a frame as it stands.
fn push_raw(alloc: Global, out: &mut Text, frame: &Frame) -> Result<(), Mem>
    ensures { OnOk result (out.new ≡ out.old ++ raw_text frame.now) }
{
    out.push(b"raw ")?;
    out.push_word(frame.kind)?;
    out.push(b" ")?;
    push_bytes(alloc, out, frame.payload.as_slice())
}
