ghost use Rattle.std.specs.Prelude.{◌≡◌};

use aseba_words::Mem;
use std::alloc::Global;

/// A byte of a text. Line and column count from 1, and columns count bytes.
#[derive(Clone, Copy, Debug, PartialEq, Eq)]
pub struct Pos {
    pub line: u32,
    pub col: u32,
}

impl Pos {
    /// This place again, as for the types that hold memory. It never fails.
    pub fn copy(&self, _alloc: Global) -> Result<Pos, Mem>
        ensures { result ≡ Ok self.now }
    {
        Ok(*self)
    }
}
