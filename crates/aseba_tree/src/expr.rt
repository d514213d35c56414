ghost use Rattle.std.specs.Prelude.{◌≡◌, IfOk};

use crate::pos::Pos;
use aseba_words::{Binary, List, Mem, Name, Unary};
use sqlite_items::Boxed;
use std::alloc::Global;

/// An expression of a source.
#[cycle(expr)]
#[derive(Debug, Drop)]
pub struct Expr {
    /// The place of its first token, parentheses round it included.
    pub first: Pos,
    /// The place of the operator for `One` and `Two`, of the name, number or bracket otherwise.
    pub at: Pos,
    pub form: Form,
}

/// What an expression is made of.
#[cycle(expr)]
#[derive(Debug, Drop)]
pub enum Form {
    Number(i16),
    /// A name alone: a variable with all its cells, or a constant.
    Whole(Name),
    /// `a[e]`
    Index(Name, Boxed<Expr>),
    /// `a[c:d]`, both ends included.
    Range(Name, Boxed<Expr>, Boxed<Expr>),
    /// `[e, f]`
    Items(List<Expr>),
    One(Unary, Boxed<Expr>),
    Two(Binary, Boxed<Expr>, Boxed<Expr>),
}

impl Expr {
    /// An expression equal to this one.
    #[cycle(copy_expr)]
    pub fn copy(&self, alloc: Global) -> Result<Expr, Mem>
        ensures { IfOk result (λ expr. expr ≡ self.now) }
    {
        let form = self.form.copy(alloc)?;
        Ok(Expr {
            first: self.first,
            at: self.at,
            form,
        })
    }
}

impl Form {
    /// A form equal to this one.
    #[cycle(copy_expr)]
    pub fn copy(&self, alloc: Global) -> Result<Form, Mem>
        ensures { IfOk result (λ form. form ≡ self.now) }
    {
        match self {
            Form::Number(value) => Ok(Form::Number(*value)),
            Form::Whole(name) => Ok(Form::Whole(name.copy(alloc)?)),
            Form::Index(name, index) => {
                let name = name.copy(alloc)?;
                let index = index.get().copy(alloc)?;
                Ok(Form::Index(name, Boxed::new(alloc, index)?))
            }
            Form::Range(name, first, last) => {
                let name = name.copy(alloc)?;
                let first = Boxed::new(alloc, first.get().copy(alloc)?)?;
                let last = last.get().copy(alloc)?;
                Ok(Form::Range(name, first, Boxed::new(alloc, last)?))
            }
            Form::Items(items) => {
                let mut copied = List::new(alloc);
                for item in items.as_slice() {
                    copied.add(item.copy(alloc)?)?;
                }
                Ok(Form::Items(copied))
            }
            Form::One(op, operand) => {
                let operand = operand.get().copy(alloc)?;
                Ok(Form::One(*op, Boxed::new(alloc, operand)?))
            }
            Form::Two(op, left, right) => {
                let left = Boxed::new(alloc, left.get().copy(alloc)?)?;
                let right = right.get().copy(alloc)?;
                Ok(Form::Two(*op, left, Boxed::new(alloc, right)?))
            }
        }
    }
}

/// A copy of an expression where there is one.
pub fn copy_maybe(expr: &Option<Expr>, alloc: Global) -> Result<Option<Expr>, Mem>
    ensures { IfOk result (λ copied. copied ≡ expr.now) }
{
    match expr {
        Some(expr) => Ok(Some(expr.copy(alloc)?)),
        None => Ok(None),
    }
}

/// A copy of an expression, in a box of its own.
pub fn copy_boxed(expr: &Boxed<Expr>, alloc: Global) -> Result<Boxed<Expr>, Mem>
    ensures { IfOk result (λ copied. copied ≡ expr.now) }
{
    Ok(Boxed::new(alloc, expr.get().copy(alloc)?)?)
}
