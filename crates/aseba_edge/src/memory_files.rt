ghost use Rattle.std.specs.Prelude.{◌≡◌, ◌<◌, ◌^◌, Some, false, option_copied};
ghost use Rattle.aseba_edge.specs.Counts.{Counts};
ghost use Rattle.aseba_edge.specs.Files.{Answers, IsWithin, is_failed};
ghost use Rattle.aseba_edge.specs.MemoryFiles.{first_named};

use crate::files::{FileAnswer, Files};
use crate::plan::Plan;
use aseba_words::{List, Name};
use std::alloc::Global;

/// A file in memory.
#[derive(Debug, Drop)]
pub struct MemoryFile {
    pub name: Name,
    pub bytes: List<u8>,
}

/// Files in memory. Of two with one name the first is read. Given reads fail, the first being
/// number 1.
#[derive(Debug, Drop)]
pub struct MemoryFiles {
    files: List<MemoryFile>,
    plan: Plan,
    ghost counted: { plan.faults < 2 ^ 64 },
}

impl MemoryFiles {
    ghost use Rattle.aseba_edge.specs.MemoryFiles.{held};

    /// Takes no memory.
    pub fn new(files: List<MemoryFile>, failing: List<u64>) -> MemoryFiles
        ensures files { result.files ≡ files }
        ensures plan { result.plan ≡ record { failing = failing; calls = 0; faults = 0 } }
    {
        MemoryFiles {
            files,
            plan: Plan::new(failing),
        }
    }

    /// How many reads have failed.
    pub fn faults(&self) -> u64
        ensures { result ≡ self.now.plan.faults }
    {
        self.plan.faults
    }

    /// What a read answers that isn't to fail.
    fn answer(&self, alloc: Global, name: &[u8], limit: u64) -> FileAnswer
        ensures answer { Answers (held self.now.files name.now) limit result }
        ensures within { IsWithin limit result }
        ensures found { is_failed result ≡ false }
    {
        let Some(file) = named(self.files.as_slice(), name) else {
            return FileAnswer::Absent;
        };
        let bytes = file.bytes.as_slice();
        if bytes.len() as u64 > limit {
            return FileAnswer::TooBig;
        }
        match List::from_slice(alloc, bytes) {
            Ok(bytes) => FileAnswer::Bytes(bytes),
            Err(_) => FileAnswer::Mem,
        }
    }
}

/// The first file of a name.
fn named<'a>(files: &'a [MemoryFile], name: &[u8]) -> Option<&'a MemoryFile>
    ensures { option_copied result ≡ first_named files.now name.now }
{
    files.iter().find(|file| file.name.as_bytes() == name)
}

impl Files for MemoryFiles {
    ghost use Rattle.aseba_edge.specs.MemoryFiles.{held};
    ghost use Rattle.aseba_edge.specs.Plan.{after_call, is_named, next_call};

    ghost contents = { λ files. Some (held files.files) };

    ghost faults = { λ files. files.plan.faults };

    ghost bounds_faults = { λ files. files.counted };

    fn read(&mut self, alloc: Global, name: &str, limit: u64) -> FileAnswer
        ensures answer { Answers (held self.old.files name.now) limit result }
        ensures within { IsWithin limit result }
        ensures kept { self.new.files ≡ self.old.files }
        ensures count { Counts (is_failed result) self.old.plan.faults self.new.plan.faults }
        ensures fails { is_failed result ≡ is_named self.old.plan.failing (next_call self.old.plan.calls) }
        ensures plan { self.new.plan ≡ after_call (is_failed result) self.old.plan }
    {
        if self.plan.begin() {
            self.plan.fail();
            return FileAnswer::Failed;
        }
        self.answer(alloc, name.as_bytes(), limit)
    }
}
