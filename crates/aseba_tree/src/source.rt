ghost use Rattle.std.specs.Prelude.{◌≡◌, IfOk};

use crate::copies::copies;
use crate::decl::Decl;
use crate::pos::Pos;
use crate::stmt::Stmt;
use aseba_words::{List, Mem, Name};
use std::alloc::Global;

/// A whole source: its variables, the statements before the first part, and its parts.
#[derive(Debug, Drop)]
pub struct Source {
    pub vars: List<Decl>,
    pub init: List<Stmt>,
    pub parts: List<Handler>,
}

/// An `onevent` or a `sub`.
#[derive(Debug, Drop)]
pub struct Handler {
    /// The line of the opening word.
    pub line: u32,
    /// The place of the name.
    pub at: Pos,
    pub is_sub: bool,
    pub name: Name,
    pub body: List<Stmt>,
}

impl Source {
    /// A source equal to this one.
    pub fn copy(&self, alloc: Global) -> Result<Source, Mem>
        ensures { IfOk result (λ source. source ≡ self.now) }
    {
        let vars = copies(alloc, &self.vars, |var| var.copy(alloc))?;
        let init = copies(alloc, &self.init, |stmt| stmt.copy(alloc))?;
        let parts = copies(alloc, &self.parts, |part| part.copy(alloc))?;
        Ok(Source { vars, init, parts })
    }
}

impl Handler {
    /// A part equal to this one.
    pub fn copy(&self, alloc: Global) -> Result<Handler, Mem>
        ensures { IfOk result (λ handler. handler ≡ self.now) }
    {
        let name = self.name.copy(alloc)?;
        let body = copies(alloc, &self.body, |stmt| stmt.copy(alloc))?;
        Ok(Handler {
            line: self.line,
            at: self.at,
            is_sub: self.is_sub,
            name,
            body,
        })
    }
}
