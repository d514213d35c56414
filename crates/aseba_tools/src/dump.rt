//! `dump`: a file of frames is read, and its frames are told as they stand.

ghost use Rattle.std.specs.Prelude.{◌≡◌, option_map};
ghost use Rattle.aseba_edge.specs.Counts.{Counts};
ghost use Rattle.aseba_tools.specs.Outcome.{is_read_fault, is_write_fault};
ghost use Rattle.aseba_tools.specs.Dumped.{Dumped, WroteDump};

use crate::file::read_file;
use crate::frames::{StreamEnd, put_stream};
use crate::status::Status;
use aseba_edge::{Files, Sink};
use std::alloc::Global;

/// The greatest number of bytes that a file of frames may have.
const MOST_DUMPED: u64 = 67_108_864;

/// Writes a line for each frame of a file.
pub fn dump<F: Files, S: Sink>(alloc: Global, file: &str, files: &mut F, out: &mut S) -> Status
    ensures dumped { Dumped file.now (option_map (λ files. files file.now) (F.contents files.old)) (S.taken out.old) (S.taken out.new) result }
    ensures read_fault { Counts (is_read_fault result) (F.faults files.old) (F.faults files.new) }
    ensures write_fault { Counts (is_write_fault result) (S.faults out.old) (S.faults out.new) }
    ensures files { F.contents files.new ≡ F.contents files.old }
{
    match read_file(alloc, file, MOST_DUMPED, files) {
        Ok(bytes) => dump_bytes(alloc, bytes.as_slice(), out),
        Err(unread) => unread,
    }
}

/// Writes a line for each frame of a file's bytes.
fn dump_bytes<S: Sink>(alloc: Global, bytes: &[u8], out: &mut S) -> Status
    ensures dumped { WroteDump bytes.now (S.taken out.old) (S.taken out.new) result }
    ensures write_fault { Counts (is_write_fault result) (S.faults out.old) (S.faults out.new) }
{
    match put_stream(alloc, bytes, out) {
        Ok(StreamEnd::Ended { .. }) => Status::Done,
        Ok(StreamEnd::Bad { place }) => Status::BadFrame { place },
        Err(unwritten) => Status::from(unwritten),
    }
}
