ghost use Rattle.std.specs.Prelude.{◌≡◌, ◌≢◌, ◌<◌, ◌≤◌, ◌+◌, ◌^◌, ◌++◌, IfErr, IfOk, IfSome, None, Some, false, length, nat_le, true, vec_len};
ghost use Rattle.std.specs.IoError.{error_kind};
ghost use Rattle.aseba_edge.specs.Files.{Answers, IsWithin, is_absent, is_failed};

use crate::files::{FileAnswer, Files};
use crate::reading::read_once;
use aseba_words::{List, Mem};
use std::alloc::Global;
use std::io::{ErrorKind, Read};
use std::{fs, io};

/// The files of the system.
#[derive(Drop)]
pub struct SystemFiles<R> {
    rt: R,
    faults: u64,
    ghost counted: { faults < 2 ^ 64 },
}

impl<R> SystemFiles<R> {
    /// Takes no memory.
    pub fn new(rt: R) -> SystemFiles<R>
        ensures rt { result.rt ≡ rt }
        ensures faults { result.faults ≡ 0 }
    {
        SystemFiles { rt, faults: 0 }
    }
}

impl<R: fs::Files> Files for SystemFiles<R> {
    ghost contents = { λ _. None };

    ghost faults = { λ files. files.faults };

    ghost bounds_faults = { λ files. files.counted };

    fn read(&mut self, alloc: Global, name: &str, limit: u64) -> FileAnswer {
        match read_whole(alloc, &self.rt, name, limit) {
            Ok(answer) => answer,
            Err(error) => match error.kind() {
                ErrorKind::NotFound => FileAnswer::Absent,
                ErrorKind::OutOfMemory => FileAnswer::Mem,
                _ => {
                    self.faults = self.faults.saturating_add(1);
                    FileAnswer::Failed
                }
            },
        }
    }
}

/// Opens a file and reads it to its end, unless it is longer than the limit.
fn read_whole<R: fs::Files>(alloc: Global, rt: &R, name: &str, limit: u64) -> io::Result<FileAnswer>
    ensures within { IfOk result (λ answer. IsWithin limit answer) }
    ensures done { IfOk result (λ answer. is_failed answer ≡ false) }
    ensures there { IfOk result (λ answer. is_absent answer ≡ false) }
{
    let mut file = fs::open(rt, name)?;
    read_to_limit(alloc, &mut file, limit)
}

/// Adds a piece to what was read, unless that would be longer than the limit, and answers whether it
/// is within it.
fn add(bytes: &mut Vec<u8>, piece: &[u8], limit: u64) -> Result<bool, Mem>
    requires { vec_len bytes.old ≤ limit }
    ensures within { IfOk result (λ fits. fits ≡ nat_le (vec_len bytes.old + length piece.now) limit) }
    ensures added { IfOk result (λ fits. fits ≡ true →
        bytes.new.items ≡ bytes.old.items ++ piece.now) }
{
    if piece.len() as u64 > limit - bytes.len() as u64 {
        return Ok(false);
    }
    bytes.extend_from_slice(piece)?;
    Ok(true)
}

/// Reads what an input has left, unless that is longer than the limit. A read that was interrupted
/// is tried again.
pub fn read_to_limit<I: Read>(alloc: Global, input: &mut I, limit: u64) -> io::Result<FileAnswer>
    ensures answer { IfOk result (λ answer.
        IfSome (I.remaining input.old) (λ left. Answers (Some left) limit answer)) }
    ensures within { IfOk result (λ answer. IsWithin limit answer) }
    ensures done { IfOk result (λ answer. is_failed answer ≡ false) }
    ensures there { IfOk result (λ answer. is_absent answer ≡ false) }
    ensures retried { IfErr result (λ error. error_kind error ≢ ErrorKind.Interrupted) }
{
    let mut bytes = Vec::new(alloc);
    let mut piece = [0u8; 4096];
    for _ in 0..u64::MAX {
        let count = read_once(input, &mut piece)?;
        if count == 0 {
            return Ok(FileAnswer::Bytes(List::from_vec(bytes)));
        }
        match add(&mut bytes, &piece[..count], limit) {
            Ok(true) => {}
            Ok(false) => return Ok(FileAnswer::TooBig),
            Err(Mem) => return Ok(FileAnswer::Mem),
        }
    }
    Err(io::Error::from(ErrorKind::TimedOut))
}
