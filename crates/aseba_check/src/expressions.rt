//! The walk over an expression.
ghost use Rattle.std.specs.Prelude.{◌≡◌};
ghost use Rattle.aseba_tree.specs.View.{expr_view, exprs_view, form_view};
ghost use Rattle.aseba_check.specs.Told as told;
ghost use Rattle.aseba_check.specs.Fits.{Fits, FitsForm, FitsList};
ghost use Rattle.aseba_check.specs.Looked.{looked};

use crate::facts::{
    Facts, Meaning, index_facts, items_facts, joined, name_facts, number_facts, one_facts,
    range_facts, two_facts,
};
use crate::table::Table;
use aseba_tree::{Expr, Form, Pos};
use aseba_words::List;
use sqlite_items::Boxed;

/// What is known of an expression, where names mean this.
#[cycle(walk_expr)]
pub fn facts_of(names: &Table<Meaning>, expr: &Expr) -> Facts
    ensures known { result ≡ told.facts_of (looked names.now) (expr_view expr.now) }
    ensures fits { Fits (expr_view expr.now) }
{
    form_facts(names, expr.first, expr.at, &expr.form)
}

/// What is known of an expression in a box, where names mean this.
pub fn boxed_facts(names: &Table<Meaning>, expr: &Boxed<Expr>) -> Facts
    ensures known { result ≡ told.facts_of (looked names.now) (expr_view expr.now) }
    ensures fits { Fits (expr_view expr.now) }
{
    facts_of(names, expr.get())
}

#[cycle(walk_expr)]
fn form_facts(names: &Table<Meaning>, first: Pos, at: Pos, form: &Form) -> Facts
    ensures known { result ≡ told.form_facts (looked names.now) first at (form_view form.now) }
    ensures fits { FitsForm (form_view form.now) }
{
    match form {
        Form::Number(value) => number_facts(first, *value),
        Form::Whole(name) => name_facts(first, at, names.find(name)),
        Form::Index(name, index) => {
            let index = facts_of(names, index.get());
            index_facts(first, at, names.find(name), &index)
        }
        Form::Range(name, from, to) => {
            let from = facts_of(names, from.get());
            let to = facts_of(names, to.get());
            range_facts(first, at, names.find(name), &from, &to)
        }
        Form::Items(items) => items_facts(first, all_facts(names, items)),
        Form::One(op, operand) => {
            let operand = facts_of(names, operand.get());
            one_facts(first, *op, &operand)
        }
        Form::Two(op, left, right) => {
            let left = facts_of(names, left.get());
            let right = facts_of(names, right.get());
            two_facts(first, at, *op, &left, &right)
        }
    }
}

/// What is known of the expressions of a list together.
#[cycle(walk_expr)]
fn all_facts(names: &Table<Meaning>, items: &List<Expr>) -> Option<Facts>
    ensures known { result ≡ told.list_facts (looked names.now) None (exprs_view items.now) }
    ensures fits { FitsList (exprs_view items.now) }
{
    let mut all = None;
    for item in items.as_slice() {
        let item = facts_of(names, item);
        all = Some(joined(all, &item));
    }
    all
}
