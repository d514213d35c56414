ghost use Rattle.std.specs.Prelude.{◌≡◌, IfOk};

use crate::expr::{Expr, copy_maybe};
use crate::pos::Pos;
use aseba_words::{Mem, Name};
use std::alloc::Global;

/// A `var`.
#[derive(Debug, Drop)]
pub struct Decl {
    /// The line of the word `var`.
    pub line: u32,
    /// The place of the name.
    pub at: Pos,
    pub name: Name,
    pub size: Option<Expr>,
    /// The place of the `=`, or `at` where there is none.
    pub equals: Pos,
    pub value: Option<Expr>,
}

impl Decl {
    /// A declaration equal to this one.
    pub fn copy(&self, alloc: Global) -> Result<Decl, Mem>
        ensures { IfOk result (λ decl. decl ≡ self.now) }
    {
        let name = self.name.copy(alloc)?;
        let size = copy_maybe(&self.size, alloc)?;
        let value = copy_maybe(&self.value, alloc)?;
        Ok(Decl {
            line: self.line,
            at: self.at,
            name,
            size,
            equals: self.equals,
            value,
        })
    }
}
