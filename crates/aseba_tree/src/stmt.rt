ghost use Rattle.std.specs.Prelude.{◌≡◌, IfOk};

use crate::copies::copies;
use crate::expr::{Expr, copy_boxed, copy_maybe};
use crate::pos::Pos;
use aseba_words::{Binary, List, Mem, Name};
use sqlite_items::Boxed;
use std::alloc::Global;

/// What an assignment stores into.
#[derive(Debug, Drop)]
pub struct Target {
    /// The place of the name.
    pub at: Pos,
    pub name: Name,
    pub part: Part,
}

/// Which cells of its variable a target means.
#[derive(Debug, Drop)]
pub enum Part {
    All,
    /// `a[e]`
    At(Boxed<Expr>),
    /// `a[c:d]`, both ends included.
    Span(Boxed<Expr>, Boxed<Expr>),
}

/// The head of a `for`. Without `step` the step is 1.
#[derive(Debug, Drop)]
pub struct ForHead {
    pub name: Name,
    pub first: Expr,
    pub last: Expr,
    pub step: Option<Expr>,
}

/// A statement of a source.
#[cycle(stmt)]
#[derive(Debug, Drop)]
pub struct Stmt {
    /// The line of its first token.
    pub line: u32,
    /// The place of the sign for `Set`, `Change` and `Step`, of the name for `Emit`, `CallSub`,
    /// `Call` and `For`, of the first token otherwise.
    pub at: Pos,
    pub form: StmtForm,
}

/// What a statement is made of. An `elseif` is an `If` that is alone in the `else` list.
#[cycle(stmt)]
#[derive(Debug, Drop)]
pub enum StmtForm {
    Set(Boxed<Target>, Boxed<Expr>),
    /// `L op= e`
    Change(Boxed<Target>, Binary, Boxed<Expr>),
    /// `L++` with `Add`, `L--` with `Sub`.
    Step(Boxed<Target>, Binary),
    /// The condition, the statements behind `then`, those behind `else`.
    If(Boxed<Expr>, List<Stmt>, List<Stmt>),
    When(Boxed<Expr>, List<Stmt>),
    While(Boxed<Expr>, List<Stmt>),
    For(Boxed<ForHead>, List<Stmt>),
    Emit(Name, Option<Boxed<Expr>>),
    CallSub(Name),
    Call(Name, List<Expr>),
    Return,
}

impl Target {
    /// A target equal to this one.
    pub fn copy(&self, alloc: Global) -> Result<Target, Mem>
        ensures { IfOk result (λ target. target ≡ self.now) }
    {
        let name = self.name.copy(alloc)?;
        let part = self.part.copy(alloc)?;
        Ok(Target {
            at: self.at,
            name,
            part,
        })
    }
}

impl Part {
    /// A part equal to this one.
    pub fn copy(&self, alloc: Global) -> Result<Part, Mem>
        ensures { IfOk result (λ part. part ≡ self.now) }
    {
        match self {
            Part::All => Ok(Part::All),
            Part::At(index) => Ok(Part::At(copy_boxed(index, alloc)?)),
            Part::Span(first, last) => {
                let first = copy_boxed(first, alloc)?;
                Ok(Part::Span(first, copy_boxed(last, alloc)?))
            }
        }
    }
}

impl ForHead {
    /// A head equal to this one.
    pub fn copy(&self, alloc: Global) -> Result<ForHead, Mem>
        ensures { IfOk result (λ head. head ≡ self.now) }
    {
        let name = self.name.copy(alloc)?;
        let first = self.first.copy(alloc)?;
        let last = self.last.copy(alloc)?;
        let step = copy_maybe(&self.step, alloc)?;
        Ok(ForHead {
            name,
            first,
            last,
            step,
        })
    }
}

impl Stmt {
    /// A statement equal to this one.
    #[cycle(copy_stmt)]
    pub fn copy(&self, alloc: Global) -> Result<Stmt, Mem>
        ensures { IfOk result (λ stmt. stmt ≡ self.now) }
    {
        let form = self.form.copy(alloc)?;
        Ok(Stmt {
            line: self.line,
            at: self.at,
            form,
        })
    }
}

impl StmtForm {
    /// A form equal to this one.
    #[cycle(copy_stmt)]
    pub fn copy(&self, alloc: Global) -> Result<StmtForm, Mem>
        ensures { IfOk result (λ form. form ≡ self.now) }
    {
        match self {
            StmtForm::Set(target, value) => {
                let target = copy_target(target, alloc)?;
                Ok(StmtForm::Set(target, copy_boxed(value, alloc)?))
            }
            StmtForm::Change(target, op, value) => {
                let target = copy_target(target, alloc)?;
                Ok(StmtForm::Change(target, *op, copy_boxed(value, alloc)?))
            }
            StmtForm::Step(target, op) => Ok(StmtForm::Step(copy_target(target, alloc)?, *op)),
            StmtForm::If(test, then, other) => {
                let test = copy_boxed(test, alloc)?;
                let then = copy_body(then, alloc)?;
                Ok(StmtForm::If(test, then, copy_body(other, alloc)?))
            }
            StmtForm::When(test, body) => {
                let test = copy_boxed(test, alloc)?;
                Ok(StmtForm::When(test, copy_body(body, alloc)?))
            }
            StmtForm::While(test, body) => {
                let test = copy_boxed(test, alloc)?;
                Ok(StmtForm::While(test, copy_body(body, alloc)?))
            }
            StmtForm::For(head, body) => {
                let head = Boxed::new(alloc, head.get().copy(alloc)?)?;
                Ok(StmtForm::For(head, copy_body(body, alloc)?))
            }
            StmtForm::Emit(name, None) => Ok(StmtForm::Emit(name.copy(alloc)?, None)),
            StmtForm::Emit(name, Some(value)) => {
                let name = name.copy(alloc)?;
                Ok(StmtForm::Emit(name, Some(copy_boxed(value, alloc)?)))
            }
            StmtForm::CallSub(name) => Ok(StmtForm::CallSub(name.copy(alloc)?)),
            StmtForm::Call(name, arguments) => {
                let name = name.copy(alloc)?;
                let arguments = copies(alloc, arguments, |argument| argument.copy(alloc))?;
                Ok(StmtForm::Call(name, arguments))
            }
            StmtForm::Return => Ok(StmtForm::Return),
        }
    }
}

/// A copy of a target, in a box of its own.
fn copy_target(target: &Boxed<Target>, alloc: Global) -> Result<Boxed<Target>, Mem>
    ensures { IfOk result (λ copied. copied ≡ target.now) }
{
    Ok(Boxed::new(alloc, target.get().copy(alloc)?)?)
}

/// A list of the copies of statements.
#[cycle(copy_stmt)]
fn copy_body(body: &List<Stmt>, alloc: Global) -> Result<List<Stmt>, Mem>
    ensures { IfOk result (λ copied. copied ≡ body.now) }
{
    let mut copied = List::new(alloc);
    for stmt in body.as_slice() {
        copied.add(stmt.copy(alloc)?)?;
    }
    Ok(copied)
}
