//! Expressions built of their parts.
ghost use Rattle.std.specs.Prelude.{◌≡◌, IfOk};
ghost use Rattle.aseba_tree.specs.Spells as spells;
ghost use Rattle.aseba_tree.specs.Step as step;
ghost use Rattle.aseba_tree.specs.Code as code;
ghost use Rattle.aseba_tree.specs.View.{place_view, expr_view, exprs_view, part_view, target_view};

use aseba_tree::{Expr, Form, Part, Pos, Target};
use aseba_words::{Binary, List, Mem, Unary};
use sqlite_items::Boxed;
use std::alloc::Global;

pub fn number(at: Pos, value: i16) -> Expr
    ensures { expr_view result ≡ code.expr (place_view at) (place_view at) (code.number value) }
{
    Expr {
        first: at,
        at,
        form: Form::Number(value),
    }
}

pub fn items(at: Pos, items: List<Expr>) -> Expr
    ensures { expr_view result ≡ code.expr (place_view at) (place_view at) (code.items (exprs_view items)) }
{
    Expr {
        first: at,
        at,
        form: Form::Items(items),
    }
}

/// The operator's place is that of the whole.
pub fn one(alloc: Global, op: Unary, at: Pos, operand: Expr) -> Result<Expr, Mem>
    ensures { IfOk result (λ e. expr_view e ≡ code.expr (place_view at) (place_view at) (code.one op (expr_view operand))) }
{
    let operand = Boxed::new(alloc, operand)?;
    Ok(Expr {
        first: at,
        at,
        form: Form::One(op, operand),
    })
}

/// The whole begins where the left operand does.
pub fn two(alloc: Global, op: Binary, at: Pos, left: Expr, right: Expr) -> Result<Expr, Mem>
    ensures { IfOk result (λ e. expr_view e ≡ code.expr (spells.first_of (expr_view left)) (place_view at) (code.two op (expr_view left) (expr_view right))) }
{
    let first = left.first;
    let left = Boxed::new(alloc, left)?;
    let right = Boxed::new(alloc, right)?;
    Ok(Expr {
        first,
        at,
        form: Form::Two(op, left, right),
    })
}

/// The cell at an index.
pub fn cell_at(alloc: Global, index: Expr) -> Result<Part, Mem>
    ensures { IfOk result (λ part. part_view part ≡ code.at (expr_view index)) }
{
    Ok(Part::At(Boxed::new(alloc, index)?))
}

/// The cells from an index on, up to and with that at another one.
pub fn cells_between(alloc: Global, first: Expr, last: Expr) -> Result<Part, Mem>
    ensures { IfOk result (λ part. part_view part ≡ code.span (expr_view first) (expr_view last)) }
{
    let first = Boxed::new(alloc, first)?;
    Ok(Part::Span(first, Boxed::new(alloc, last)?))
}

/// The cells of a target as an expression.
pub fn value_of(target: Target) -> Expr
    ensures { expr_view result ≡ step.target_expr (target_view target) }
{
    let Target { at, name, part } = target;
    let form = match part {
        Part::All => Form::Whole(name),
        Part::At(index) => Form::Index(name, index),
        Part::Span(first, last) => Form::Range(name, first, last),
    };
    Expr {
        first: at,
        at,
        form,
    }
}

/// The expression in parentheses of which the first is at that place.
pub fn begun_at(at: Pos, expr: Expr) -> Expr
    ensures { expr_view result ≡ spells.begun_at (place_view at) (expr_view expr) }
{
    let Expr {
        first: _,
        at: own,
        form,
    } = expr;
    Expr {
        first: at,
        at: own,
        form,
    }
}
