ghost use Rattle.std.specs.Prelude.{◌≡◌, ◌<◌, ◌≤◌, ◌^◌, None, IfErr, IfNone, IfSome, is_err, length, take};
ghost use Rattle.std.specs.Io.KnownBytes.{Appends, Keeps};
ghost use Rattle.aseba_edge.specs.Counts.{Counts};
ghost use Rattle.aseba_edge.specs.Sink.{TookFewer, part_taken};

use crate::sink::{PutFault, Sink};
use std::io::{ErrorKind, Write};

/// A sink over a writer that keeps nothing back, as standard output: what a put took has reached
/// the system when it answers.
#[derive(Drop)]
pub struct WriterSink<W> {
    writer: W,
    faults: u64,
    ghost counted: { faults < 2 ^ 64 },
}

impl<W> WriterSink<W> {
    /// Takes no memory.
    pub fn new(writer: W) -> WriterSink<W>
        ensures writer { result.writer ≡ writer }
        ensures faults { result.faults ≡ 0 }
    {
        WriterSink { writer, faults: 0 }
    }
}

/// Writes once, and answers how many bytes were taken: none where the write was interrupted. The
/// writer has failed where there is no answer.
fn write_some<W: Write>(writer: &mut W, piece: &[u8]) -> Option<usize>
    ensures within { IfSome result (λ count. count ≤ length piece.now) }
    ensures written { IfSome result (λ count.
        Appends (W.contents writer.old) (W.contents writer.new) (take count piece.now)) }
    ensures kept { IfNone result (Keeps (W.contents writer.old) (W.contents writer.new)) }
{
    match writer.write(piece) {
        Ok(0) => None,
        Ok(count) => Some(count),
        Err(error) if error.kind() == ErrorKind::Interrupted => Some(0),
        Err(_) => None,
    }
}

/// Writes until all is written, the writer fails or it takes nothing, and answers how many bytes
/// were taken.
#[tactic(auto, using(crate::proofs::Written::write_more, crate::proofs::Written::write_none, crate::proofs::Written::write_nothing))]
pub(crate) fn write_on<W: Write>(writer: &mut W, piece: &[u8]) -> usize
    ensures within { result ≤ length piece.now }
    ensures written { Appends (W.contents writer.old) (W.contents writer.new)
        (take result piece.now) }
{
    let mut taken = 0;
    for _ in 0..u64::MAX {
        if taken == piece.len() {
            break;
        }
        match write_some(writer, &piece[taken..]) {
            Some(count) => taken += count,
            None => break,
        }
    }
    taken
}

impl<W: Write> Sink for WriterSink<W> {
    ghost taken = { λ _. None };

    ghost faults = { λ sink. sink.faults };

    ghost bounds_faults = { λ sink. sink.counted };

    fn put(&mut self, piece: &[u8]) -> Result<(), PutFault>
        ensures part { IfErr result (λ fault. TookFewer fault.taken None piece.now None) }
        ensures count { Counts (is_err result) self.old.faults self.new.faults }
        ensures written { Appends (W.contents self.old.writer) (W.contents self.new.writer)
            (part_taken piece.now result) }
    {
        let taken = write_on(&mut self.writer, piece);
        if taken < piece.len() {
            self.faults = self.faults.saturating_add(1);
            return Err(PutFault { taken });
        }
        Ok(())
    }
}
