ghost use Rattle.std.specs.Prelude.{◌≡◌, ◌<◌, ◌^◌, ℕ, List, Option, IfSome};
ghost use Rattle.aseba_edge.specs.Counts.{Counts};
ghost use Rattle.aseba_edge.specs.Files.{Answers, IsWithin, is_failed};

use aseba_words::List;
use std::alloc::Global;

/// What a read of a file answers.
#[derive(Debug, Drop)]
pub enum FileAnswer {
    /// The whole content of the file.
    Bytes(List<u8>),
    /// No file has this name.
    Absent,
    /// The content is longer than the limit.
    TooBig,
    /// The file could not be read, for a cause other than absence.
    Failed,
    /// Memory didn't suffice.
    Mem,
}

/// Files that can be read by name.
pub trait Files {
    /// The bytes under each name, where that is told.
    ghost contents: { Self → Option (List ℕ → Option (List ℕ)) };

    /// How many reads have failed.
    ghost faults: { Self → ℕ };

    /// Reads the file of this name whole, if it is at most `limit` bytes long.
    fn read(&mut self, alloc: Global, name: &str, limit: u64) -> FileAnswer
        ensures answer { IfSome (contents self.old) (λ files. Answers (files name.now) limit result) }
        ensures within { IsWithin limit result }
        ensures kept { contents self.new ≡ contents self.old }
        ensures count { Counts (is_failed result) (faults self.old) (faults self.new) };

    /// The count fits its word.
    ghost bounds_faults: { (files : Self) → faults files < 2 ^ 64 };
}
