//! The numbers that constant expressions stand for.
ghost use Rattle.std.specs.Prelude.{◌≡◌, ◌+◌, ◌-◌, ◌<◌, ◌≤◌, [], Some, option_map};
ghost use Rattle.aseba_tree.specs.Value.{as_place, constant, elements, list_elements};
ghost use Rattle.aseba_tree.specs.View.{expr_view, exprs_view};
ghost use Rattle.aseba_expand.specs.Constants.{first_of, meant, number_of_first, paired_first, prefixed_first, ranged_first};
ghost use Rattle.aseba_expand.specs.Plain.{bound, start_of};
ghost use Rattle.aseba_expand.specs.Scope.{KnowsNames, program_of};

use crate::scope::{Place, Scope};
use aseba_tree::{Expr, Form};
use aseba_words::{Binary, List, Name, Unary, binary, unary};

/// What numbers and constants alone tell of an expression's first cell.
#[derive(Clone, Copy, Debug)]
pub enum First {
    /// There is no cell.
    Absent,
    /// There is one, but no number for it.
    Unknown,
    Number(i16),
}

/// The first cell of an expression, as far as numbers and constants tell it.
#[cycle(constants)]
fn first_cell(scope: &Scope, expr: &Expr) -> First
    requires { KnowsNames scope.now }
    ensures { meant result ≡ first_of (elements (program_of scope.now).project.consts [] (expr_view expr.now)) }
{
    match &expr.form {
        Form::Number(value) => First::Number(*value),
        Form::Whole(name) => number_or_absent(scope.constant(name)),
        Form::Index(_, _) => First::Unknown,
        Form::Range(_, from, to) => {
            let from = place_of(first_cell(scope, from.get()));
            let to = place_of(first_cell(scope, to.get()));
            cell_or_absent(from, to)
        }
        Form::Items(items) => first_of_list(scope, items),
        Form::One(op, operand) => prefixed(*op, first_cell(scope, operand.get())),
        Form::Two(op, left, right) => {
            let left = first_cell(scope, left.get());
            paired(*op, left, first_cell(scope, right.get()))
        }
    }
}

/// The first cell of a list's expressions.
#[cycle(constants)]
fn first_of_list(scope: &Scope, items: &List<Expr>) -> First
    requires { KnowsNames scope.now }
    ensures { meant result ≡ first_of (list_elements (program_of scope.now).project.consts [] (exprs_view items.now)) }
{
    for item in items.as_slice() {
        match first_cell(scope, item) {
            First::Absent => {}
            found => return found,
        }
    }
    First::Absent
}

fn number_or_absent(number: Option<i16>) -> First
    ensures { meant result ≡ option_map Some number }
{
    match number {
        Some(value) => First::Number(value),
        None => First::Absent,
    }
}

/// A range has its first cell unless its last one stands before it.
fn cell_or_absent(from: u16, to: u16) -> First
    ensures { meant result ≡ ranged_first from to }
{
    if to < from {
        First::Absent
    } else {
        First::Unknown
    }
}

fn prefixed(op: Unary, operand: First) -> First
    ensures { meant result ≡ prefixed_first op (meant operand) }
{
    match operand {
        First::Number(value) => First::Number(unary(op, value)),
        First::Absent | First::Unknown => operand,
    }
}

fn paired(op: Binary, left: First, right: First) -> First
    ensures { meant result ≡ paired_first op (meant left) (meant right) }
{
    match (left, right) {
        (First::Absent, _) | (_, First::Absent) => First::Absent,
        (First::Number(a), First::Number(b)) => match binary(op, a, b) {
            Some(value) => First::Number(value),
            None => First::Unknown,
        },
        _ => First::Unknown,
    }
}

/// The number of a first cell, 0 where it has none.
fn number_of(first: First) -> i16
    ensures { result ≡ number_of_first (meant first) }
{
    match first {
        First::Number(value) => value,
        First::Absent | First::Unknown => 0,
    }
}

/// The same as a place among cells: no place is below 0.
fn place_of(first: First) -> u16
    ensures { result ≡ as_place (number_of_first (meant first)) }
{
    number_of(first).max(0) as u16
}

/// The number that a constant expression stands for.
pub fn constant_of(scope: &Scope, expr: &Expr) -> i16
    requires { KnowsNames scope.now }
    ensures { result ≡ constant (program_of scope.now).project.consts (expr_view expr.now) }
{
    number_of(first_cell(scope, expr))
}

/// The place in a variable that an end of a range names.
pub fn bound_of(scope: &Scope, expr: &Expr) -> u16
    requires { KnowsNames scope.now }
    ensures bound { result ≡ bound (program_of scope.now) (expr_view expr.now) }
    ensures small { result < 32768 }
{
    place_of(first_cell(scope, expr))
}

/// The cells of a variable from one to another.
pub fn span(scope: &Scope, name: &Name, first: &Expr, last: &Expr) -> Place
    requires { KnowsNames scope.now }
    ensures start { result.start ≡ start_of (program_of scope.now) name.now + bound (program_of scope.now) (expr_view first.now) }
    ensures size { result.size ≡ bound (program_of scope.now) (expr_view last.now) + 1 - bound (program_of scope.now) (expr_view first.now) }
    ensures ends { result.start + result.size ≤ 36864 }
{
    let first = bound_of(scope, first);
    let last = bound_of(scope, last);
    Place {
        start: scope.known_place(name).start + first,
        size: (last + 1).saturating_sub(first),
    }
}
