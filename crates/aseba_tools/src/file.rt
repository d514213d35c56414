//! A file that is read whole, or the status of one that isn't.

ghost use Rattle.std.specs.Prelude.{◌≡◌, IfOk, IfErr, option_map};
ghost use Rattle.aseba_edge.specs.Counts.{Counts};
ghost use Rattle.aseba_tools.specs.FileText.{IsFileText, NotRead};
ghost use Rattle.aseba_tools.specs.Outcome.{is_failed_read};

use crate::status::Status;
use aseba_edge::{FileAnswer, Files};
use aseba_words::{List, Name};
use std::alloc::Global;

/// The greatest number of bytes that a text may have, of a source or of a project.
pub const MOST_TEXT: u64 = 1_048_576;

/// Reads the file of a name whole, if it has at most so many bytes.
pub fn read_file<F: Files>(
    alloc: Global,
    name: &str,
    most: u64,
    files: &mut F,
) -> Result<List<u8>, Status>
    ensures read { IfOk result (IsFileText most (option_map (λ files. files name.now) (F.contents files.old))) }
    ensures why { IfErr result (NotRead most name.now (option_map (λ files. files name.now) (F.contents files.old))) }
    ensures read_fault { Counts (is_failed_read result) (F.faults files.old) (F.faults files.new) }
    ensures files { F.contents files.new ≡ F.contents files.old }
{
    match files.read(alloc, name, most) {
        FileAnswer::Bytes(bytes) => Ok(bytes),
        FileAnswer::Absent => Err(Status::Absent {
            file: Name::new(alloc, name.as_bytes())?,
        }),
        FileAnswer::TooBig => Err(Status::TooBig {
            file: Name::new(alloc, name.as_bytes())?,
        }),
        FileAnswer::Failed => Err(Status::ReadFault),
        FileAnswer::Mem => Err(Status::Memory),
    }
}
