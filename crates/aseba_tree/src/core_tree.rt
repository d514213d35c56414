ghost use Rattle.std.specs.Prelude.{◌≡◌, IfOk};

use crate::copies::copies;
use aseba_words::{Binary, List, Mem, Unary};
use sqlite_items::Boxed;
use std::alloc::Global;

/// A source in element form: each store is of one cell, and names are addresses.
#[derive(Debug, Drop)]
pub struct Core {
    pub init: List<CoreStmt>,
    pub parts: List<CorePart>,
    /// How many cells the node's and the source's variables take.
    pub cells: u32,
    /// How many cells the temporaries above them take.
    pub room: u32,
    /// How many code words the source takes.
    pub size: u64,
    /// How many stack cells the source takes.
    pub depth: u64,
}

/// A handler, or a subroutine where `event` is none.
#[derive(Debug, Drop)]
pub struct CorePart {
    /// The line of the opening word.
    pub line: u32,
    pub event: Option<u16>,
    pub body: List<CoreStmt>,
}

/// A statement in element form.
#[cycle(core)]
#[derive(Debug, Drop)]
pub struct CoreStmt {
    /// The line of the source's statement.
    pub line: u32,
    pub form: CoreForm,
}

/// What a statement in element form is made of.
#[cycle(core)]
#[derive(Debug, Drop)]
pub enum CoreForm {
    Store(Boxed<CoreTarget>, Boxed<CoreExpr>),
    If(Boxed<CoreExpr>, List<CoreStmt>, List<CoreStmt>),
    When(Boxed<CoreExpr>, List<CoreStmt>),
    While(Boxed<CoreExpr>, List<CoreStmt>),
    /// The event, the first cell, the number of cells.
    Emit(u16, u16, u16),
    /// The subroutine's place among the parts.
    CallSub(u32),
    /// The native, and the values that it takes from the stack, from the bottom.
    Call(u16, List<u16>),
    Return,
}

/// The one cell that a store means.
#[derive(Debug, Drop)]
pub enum CoreTarget {
    Cell(u16),
    /// The first cell, the number of cells, the index.
    Indirect(u16, u16, CoreExpr),
}

/// An expression of one cell.
#[derive(Debug, Drop)]
pub enum CoreExpr {
    Number(i16),
    Cell(u16),
    /// The first cell, the number of cells, the index.
    Indirect(u16, u16, Boxed<CoreExpr>),
    One(Unary, Boxed<CoreExpr>),
    Two(Binary, Boxed<CoreExpr>, Boxed<CoreExpr>),
}

impl Core {
    /// A core equal to this one.
    pub fn copy(&self, alloc: Global) -> Result<Core, Mem>
        ensures { IfOk result (λ core_tree. core_tree ≡ self.now) }
    {
        let init = copies(alloc, &self.init, |stmt| stmt.copy(alloc))?;
        let parts = copies(alloc, &self.parts, |part| part.copy(alloc))?;
        Ok(Core {
            init,
            parts,
            cells: self.cells,
            room: self.room,
            size: self.size,
            depth: self.depth,
        })
    }
}

impl CorePart {
    /// A part equal to this one.
    pub fn copy(&self, alloc: Global) -> Result<CorePart, Mem>
        ensures { IfOk result (λ part. part ≡ self.now) }
    {
        let body = copies(alloc, &self.body, |stmt| stmt.copy(alloc))?;
        Ok(CorePart {
            line: self.line,
            event: self.event,
            body,
        })
    }
}

impl CoreStmt {
    /// A statement equal to this one.
    #[cycle(copy_core)]
    pub fn copy(&self, alloc: Global) -> Result<CoreStmt, Mem>
        ensures { IfOk result (λ stmt. stmt ≡ self.now) }
    {
        let form = self.form.copy(alloc)?;
        Ok(CoreStmt {
            line: self.line,
            form,
        })
    }
}

impl CoreForm {
    /// A form equal to this one.
    #[cycle(copy_core)]
    pub fn copy(&self, alloc: Global) -> Result<CoreForm, Mem>
        ensures { IfOk result (λ form. form ≡ self.now) }
    {
        match self {
            CoreForm::Store(target, value) => {
                let target = Boxed::new(alloc, target.get().copy(alloc)?)?;
                Ok(CoreForm::Store(target, copy_boxed(value, alloc)?))
            }
            CoreForm::If(test, then, other) => {
                let test = copy_boxed(test, alloc)?;
                let then = copy_body(then, alloc)?;
                Ok(CoreForm::If(test, then, copy_body(other, alloc)?))
            }
            CoreForm::When(test, body) => {
                let test = copy_boxed(test, alloc)?;
                Ok(CoreForm::When(test, copy_body(body, alloc)?))
            }
            CoreForm::While(test, body) => {
                let test = copy_boxed(test, alloc)?;
                Ok(CoreForm::While(test, copy_body(body, alloc)?))
            }
            CoreForm::Emit(event, start, length) => Ok(CoreForm::Emit(*event, *start, *length)),
            CoreForm::CallSub(part) => Ok(CoreForm::CallSub(*part)),
            CoreForm::Call(native, values) => {
                let values = List::from_slice(alloc, values.as_slice())?;
                Ok(CoreForm::Call(*native, values))
            }
            CoreForm::Return => Ok(CoreForm::Return),
        }
    }
}

/// A list of the copies of statements.
#[cycle(copy_core)]
fn copy_body(body: &List<CoreStmt>, alloc: Global) -> Result<List<CoreStmt>, Mem>
    ensures { IfOk result (λ copied. copied ≡ body.now) }
{
    let mut copied = List::new(alloc);
    for stmt in body.as_slice() {
        copied.add(stmt.copy(alloc)?)?;
    }
    Ok(copied)
}

impl CoreTarget {
    /// A target equal to this one.
    pub fn copy(&self, alloc: Global) -> Result<CoreTarget, Mem>
        ensures { IfOk result (λ target. target ≡ self.now) }
    {
        match self {
            CoreTarget::Cell(cell) => Ok(CoreTarget::Cell(*cell)),
            CoreTarget::Indirect(start, size, index) => {
                let index = index.copy(alloc)?;
                Ok(CoreTarget::Indirect(*start, *size, index))
            }
        }
    }
}

impl CoreExpr {
    /// An expression equal to this one.
    pub fn copy(&self, alloc: Global) -> Result<CoreExpr, Mem>
        ensures { IfOk result (λ expr. expr ≡ self.now) }
    {
        match self {
            CoreExpr::Number(value) => Ok(CoreExpr::Number(*value)),
            CoreExpr::Cell(cell) => Ok(CoreExpr::Cell(*cell)),
            CoreExpr::Indirect(start, size, index) => {
                let index = index.get().copy(alloc)?;
                Ok(CoreExpr::Indirect(*start, *size, Boxed::new(alloc, index)?))
            }
            CoreExpr::One(op, operand) => {
                let operand = operand.get().copy(alloc)?;
                Ok(CoreExpr::One(*op, Boxed::new(alloc, operand)?))
            }
            CoreExpr::Two(op, left, right) => {
                let left = Boxed::new(alloc, left.get().copy(alloc)?)?;
                let right = right.get().copy(alloc)?;
                Ok(CoreExpr::Two(*op, left, Boxed::new(alloc, right)?))
            }
        }
    }
}

/// A copy of an expression, in a box of its own.
fn copy_boxed(expr: &Boxed<CoreExpr>, alloc: Global) -> Result<Boxed<CoreExpr>, Mem>
    ensures { IfOk result (λ copied. copied ≡ expr.now) }
{
    Ok(Boxed::new(alloc, expr.get().copy(alloc)?)?)
}
