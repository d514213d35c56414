//! What the arguments of natives and of events take.
ghost use Rattle.std.specs.Prelude.{◌≡◌, option_map, pos};
ghost use Rattle.std.specs.Option.{option_copied};
ghost use Rattle.aseba_tree.specs.View.{expr_view, exprs_view, form_view};
ghost use Rattle.aseba_tree.specs.Numbers as tree;
ghost use Rattle.aseba_check.specs.Looked.{looked};
ghost use Rattle.aseba_check.specs.Statements.{known_of};
ghost use Rattle.aseba_check.specs.Declarations.{is_variable};
ghost use Rattle.aseba_check.specs.Counted.{counted_of};
ghost use Rattle.aseba_check.specs.CountedStatements as told;

use crate::counting::count::{Count, empty, joined};
use crate::counting::elements::count_of;
use crate::counting::taken::{Taken, kept_for};
use crate::facts::Meaning;
use crate::table::Table;
use crate::world::World;
use aseba_tree::{Expr, Form, Native, Param};
use aseba_words::{List, Name};
use sqlite_items::Boxed;

/// What the arguments of a call take.
#[derive(Clone, Copy, Debug)]
pub struct Given {
    /// The elements that go into temporaries.
    pub fresh: Count,
    /// How many arguments there are.
    pub arguments: u64,
    /// How many templates they open.
    pub templates: u64,
    /// The words of the templates' lengths.
    pub template_words: u64,
}

/// What an `emit` takes.
pub fn emit_taken(names: &Table<Meaning>, value: &Option<Boxed<Expr>>) -> Taken
    ensures { result ≡ told.emit_taken (looked names.now) (option_map expr_view value.now) }
{
    match value {
        None => kept_for(empty(), 3),
        Some(value) => emitted(names, value.get()),
    }
}

fn emitted(names: &Table<Meaning>, value: &Expr) -> Taken
    ensures { result ≡ told.kept_for (told.fresh (told.is_own (looked names.now) (expr_view value.now)) (counted_of (looked names.now) (expr_view value.now))) 3 }
{
    kept_for(fresh(is_own(names, value), count_of(names, value)), 3)
}

/// What the call of a native takes.
pub fn call_taken(world: &World, name: &Name, arguments: &List<Expr>) -> Taken
    ensures { result ≡ told.call_taken (known_of world.now) name.now (exprs_view arguments.now) }
{
    let params = params_of(world.native(name));
    native_taken(all_given(&world.names, params, arguments))
}

fn params_of(native: Option<&Native>) -> &[Param]
    ensures { result.now ≡ told.params_of (option_copied native.entry) }
{
    match native {
        Some(native) => native.params.as_slice(),
        None => &[],
    }
}

/// What arguments take for these parameters.
fn all_given(names: &Table<Meaning>, params: &[Param], arguments: &List<Expr>) -> Given
    ensures { result ≡ told.given (looked names.now) params.now 0 told.none_given (exprs_view arguments.now) }
{
    let mut given = none_given();
    for (place, argument) in arguments.as_slice().iter().enumerate() {
        given = given_more(names, params, place, argument, given);
    }
    given
}

fn none_given() -> Given
    ensures { result ≡ told.none_given }
{
    Given {
        fresh: empty(),
        arguments: 0,
        templates: 0,
        template_words: 0,
    }
}

/// One argument more, for the parameter of a place.
fn given_more(
    names: &Table<Meaning>,
    params: &[Param],
    place: usize,
    argument: &Expr,
    before: Given,
) -> Given
    ensures { result ≡ told.with_argument (told.opens_template params.now place) (told.is_own (looked names.now) (expr_view argument.now)) (counted_of (looked names.now) (expr_view argument.now)) before }
{
    let is_own = is_own(names, argument);
    let elements = count_of(names, argument);
    with_argument(opens_template(params, place), is_own, elements, before)
}

fn with_argument(opens: bool, is_own: bool, elements: Count, before: Given) -> Given
    ensures { result ≡ told.with_argument opens is_own elements before }
{
    let templates = if opens { 1 } else { 0 };
    let words = if opens {
        length_words(elements.cells)
    } else {
        0
    };
    Given {
        fresh: joined(before.fresh, fresh(is_own, elements)),
        arguments: before.arguments.saturating_add(1),
        templates: before.templates.saturating_add(templates),
        template_words: before.template_words.saturating_add(words),
    }
}

/// The elements of an argument that go into temporaries.
fn fresh(is_own: bool, elements: Count) -> Count
    ensures { result ≡ told.fresh is_own elements }
{
    if is_own { empty() } else { elements }
}

/// Whether an argument stands for cells that are there: those of a whole variable or of a range.
fn is_own(names: &Table<Meaning>, argument: &Expr) -> bool
    ensures { result ≡ told.is_own (looked names.now) (expr_view argument.now) }
{
    is_own_form(names, &argument.form)
}

fn is_own_form(names: &Table<Meaning>, form: &Form) -> bool
    ensures { result ≡ told.is_own_form (looked names.now) (form_view form.now) }
{
    match form {
        Form::Whole(name) => is_variable(names.find(name)),
        Form::Range(_, _, _) => true,
        _ => false,
    }
}

fn is_variable(meaning: Option<Meaning>) -> bool
    ensures { result ≡ is_variable meaning }
{
    match meaning {
        Some(Meaning::Variable(_)) => true,
        _ => false,
    }
}

/// Whether the parameter of a place is the first of its template.
fn opens_template(params: &[Param], place: usize) -> bool
    ensures { result ≡ told.opens_template params.now place }
{
    match params.get(place) {
        Some(param) => param.size < 0 && !has_size(&params[..place], param.size),
        None => false,
    }
}

/// Whether one of these parameters has that length or template.
fn has_size(params: &[Param], size: i16) -> bool
    ensures { result ≡ told.has_size params.now size }
{
    params.iter().any(|param| size == param.size)
}

/// The words that push a length.
fn length_words(len: u64) -> u64
    ensures { result ≡ tree.number_words (pos len) }
{
    if 2047 < len { 2 } else { 1 }
}

/// The address of each argument is pushed, then the length of each template.
fn native_taken(given: Given) -> Taken
    ensures { result ≡ told.native_taken given }
{
    let kept = given.fresh.words.saturating_add(given.fresh.cells);
    let pushed = kept.saturating_add(given.arguments);
    let pushed = pushed.saturating_add(given.arguments);
    let pushed = pushed.saturating_add(given.template_words);
    let values = given.arguments.saturating_add(given.templates);
    Taken {
        words: pushed.saturating_add(1),
        depth: values.max(given.fresh.depth),
        room: given.fresh.cells,
    }
}
