//! The walk over the elements of an expression.
ghost use Rattle.std.specs.Prelude.{◌≡◌};
ghost use Rattle.aseba_tree.specs.View.{expr_view, exprs_view, form_view};
ghost use Rattle.aseba_check.specs.Looked.{looked};
ghost use Rattle.aseba_check.specs.Counted as told;

use crate::counting::count::{
    Count, cells_count, empty, index_count, infix_count, joined, name_count, number_count,
    prefix_count,
};
use crate::expressions::facts_of;
use crate::facts::Meaning;
use crate::sizes::range_size;
use crate::table::Table;
use aseba_tree::{Expr, Form};
use aseba_words::List;

/// What the elements of an expression take, where names mean this.
#[cycle(walk_elements)]
pub fn count_of(names: &Table<Meaning>, expr: &Expr) -> Count
    ensures { result ≡ told.counted_of (looked names.now) (expr_view expr.now) }
{
    form_count(names, &expr.form)
}

#[cycle(walk_elements)]
fn form_count(names: &Table<Meaning>, form: &Form) -> Count
    ensures { result ≡ told.form_counted (looked names.now) (form_view form.now) }
{
    match form {
        Form::Number(value) => number_count(*value),
        Form::Whole(name) => name_count(names.find(name)),
        Form::Index(_, index) => index_count(count_of(names, index.get())),
        Form::Range(_, from, to) => range_count(names, from.get(), to.get()),
        Form::Items(items) => items_count(names, items),
        Form::One(_, operand) => prefix_count(count_of(names, operand.get())),
        Form::Two(op, left, right) => {
            let left = count_of(names, left.get());
            let right = count_of(names, right.get());
            infix_count(*op, left, right)
        }
    }
}

/// The cells of a variable from one to another.
pub fn range_count(names: &Table<Meaning>, from: &Expr, to: &Expr) -> Count
    ensures { result ≡ told.range_counted (looked names.now) (expr_view from.now) (expr_view to.now) }
{
    let from = facts_of(names, from).value;
    let to = facts_of(names, to).value;
    cells_count(range_size(from, to).unwrap_or(0))
}

/// The elements of the expressions of a list together.
#[cycle(walk_elements)]
fn items_count(names: &Table<Meaning>, items: &List<Expr>) -> Count
    ensures { result ≡ told.list_counted (looked names.now) told.empty (exprs_view items.now) }
{
    let mut all = empty();
    for item in items.as_slice() {
        all = joined(all, count_of(names, item));
    }
    all
}
