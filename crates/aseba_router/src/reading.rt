//! Reading one frame from a link, and no byte behind it.
ghost use Rattle.std.specs.Prelude.{◌≡◌, ◌<◌, ◌≤◌, List as Items, ℕ, false, length, IfOk, IfSome};
ghost use Rattle.aseba_message.specs.Frames.{is_bad};
ghost use Rattle.aseba_message.specs.Reader.{awaited};
ghost use Rattle.aseba_router.specs.Ends.{Heard};
ghost use Rattle.aseba_router.specs.Pieces.{Came, IsBegun, PieceRead};

use crate::step::Step;
use aseba_edge::LinkIn;
use aseba_message::{Fed, Frame, FrameReader};
use aseba_words::Mem;
use std::alloc::Global;

/// The most bytes that a reader may await: a frame without its length.
const ROOM: usize = 1028;

/// Reads into the front of a buffer: how many bytes came, or none where the link failed or is at its
/// end.
fn read_some<I: LinkIn>(input: &mut I, buffer: &mut [u8]) -> Option<usize>
    requires { 0 < length buffer.old }
    ensures came { Came result buffer.new (I.contents input.old) (I.contents input.new) (I.faults input.old) (I.faults input.new) }
    ensures fits { IfSome result (λ count. (0 < count) × (count ≤ length buffer.old)) }
    ensures mark { I.mark input.new ≡ I.mark input.old }
{
    let count = input.read(buffer).ok()?;
    if count == 0 { None } else { Some(count) }
}

/// Reads into a buffer of no more bytes than are awaited.
fn read_into<I: LinkIn>(input: &mut I, reader: &mut FrameReader, buffer: &mut [u8]) -> Step
    requires some { 0 < length buffer.old }
    requires awaited { length buffer.old ≤ awaited reader.old }
    ensures read { (bytes : Items ℕ) → IsBegun bytes reader.old →
        PieceRead result bytes (I.contents input.old) (I.contents input.new) (I.faults input.old) (I.faults input.new) reader.old reader.new }
    ensures mark { I.mark input.new ≡ I.mark input.old }
{
    let Some(count) = read_some(input, buffer) else {
        return Step::Over;
    };
    match reader.feed_piece(&buffer[..count]).fed {
        Fed::More => Step::More,
        Fed::Whole => Step::Whole,
        Fed::TooLong { .. } => Step::Over,
    }
}

/// Reads what is missing to the frame's length, or then to its end, or the first bytes of that.
fn read_piece<I: LinkIn>(input: &mut I, reader: &mut FrameReader) -> Step
    requires { is_bad reader.old ≡ false }
    ensures read { (bytes : Items ℕ) → IsBegun bytes reader.old →
        PieceRead result bytes (I.contents input.old) (I.contents input.new) (I.faults input.old) (I.faults input.new) reader.old reader.new }
    ensures mark { I.mark input.new ≡ I.mark input.old }
{
    let mut buffer = [0; ROOM];
    let awaited = reader.awaited();
    read_into(input, reader, &mut buffer[..awaited])
}

/// Reads a frame: none where none comes any more.
pub(crate) fn read_frame<I: LinkIn>(alloc: Global, input: &mut I) -> Result<Option<Frame>, Mem>
    ensures heard { IfOk result (λ frame. Heard frame (I.contents input.old) (I.contents input.new) (I.faults input.old) (I.faults input.new)) }
    ensures mark { I.mark input.new ≡ I.mark input.old }
{
    let mut reader = FrameReader::new();
    loop {
        match read_piece(input, &mut reader) {
            Step::More => {}
            Step::Whole => return Ok(Some(reader.frame(alloc)?)),
            Step::Over => return Ok(None),
        }
    }
}
