//! What is told of a status on standard error.

mod line;
mod refused;
mod unsound;

ghost use Rattle.std.specs.Prelude.{◌≡◌, [], ◌++◌, codes, is_err, OnOk, OnErr};
ghost use Rattle.aseba_edge.specs.Counts.{Counts};
ghost use Rattle.aseba_edge.specs.Sink.{Took, TookFirst};
ghost use Rattle.aseba_tools.specs.Outcome.{MessagePut};
ghost use Rattle.aseba_tools.specs.StatusText.{HasShortHead, line_text, message_of};

use crate::status::{Status, StatusLine};
use aseba_edge::{PutFault, Sink};
use line::{Line, number_line};
use refused::refusal_line;

/// A message in three pieces, so that it is told without taking memory, however long a name in it
/// is. A message without a name is one piece, and the two others are empty.
#[derive(Clone, Copy)]
struct Message<'a> {
    head: &'a [u8],
    name: &'a [u8],
    end: &'a [u8],
}

/// Puts the line about a status: none where all was done. A fault of the sink changes nothing else.
pub fn tell<E: Sink>(status: &Status, err: &mut E)
    ensures { MessagePut (E.taken err.old) (message_of status.now) (E.taken err.new) (E.faults err.old) (E.faults err.new) }
{
    let mut line = Line::new();
    let message = message_of_line(status.row().line, &mut line);
    let _ = put_pieces(err, message.head, message.name, message.end);
}

/// The message that a line makes; one with numbers is gathered in `text`.
fn message_of_line<'a>(line: StatusLine<'a>, text: &'a mut Line) -> Message<'a>
    requires empty { text.old.bytes ≡ [] }
    requires short { HasShortHead line }
    ensures { result.head.now ++ result.name.now ++ result.end.now ≡ line_text line.entry }
{
    match line {
        StatusLine::Nothing => whole(b""),
        StatusLine::Words(words) => whole(words.as_bytes()),
        StatusLine::Name(head, name) => named(head.as_bytes(), name.as_bytes()),
        StatusLine::Number(head, number) => whole(number_line(text, head, number)),
        StatusLine::Refusal(refusal) => whole(refusal_line(text, refusal)),
    }
}

/// A message without a name.
fn whole<'a>(text: &'a [u8]) -> Message<'a>
    ensures { result.head.now ++ result.name.now ++ result.end.now ≡ text.now }
{
    Message {
        head: text,
        name: b"",
        end: b"",
    }
}

/// A message that ends with a name.
fn named<'a>(head: &'a [u8], name: &'a [u8]) -> Message<'a>
    ensures { result.head.now ++ result.name.now ++ result.end.now ≡ head.now ++ name.now ++ codes "\n" }
{
    Message {
        head,
        name,
        end: b"\n",
    }
}

#[tactic(auto, using(aseba_edge::proofs::Puts::puts))]
fn put_pieces<E: Sink>(err: &mut E, head: &[u8], name: &[u8], end: &[u8]) -> Result<(), PutFault>
    ensures whole { OnOk result (Took (E.taken err.old) (head.now ++ name.now ++ end.now) (E.taken err.new)) }
    ensures part { OnErr result (TookFirst (E.taken err.old) (head.now ++ name.now ++ end.now) (E.taken err.new)) }
    ensures count { Counts (is_err result) (E.faults err.old) (E.faults err.new) }
{
    err.put(head)?;
    err.put(name)?;
    err.put(end)
}
