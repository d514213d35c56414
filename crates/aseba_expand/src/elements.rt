//! The elements of expressions: for each cell an expression of that cell alone.
ghost use Rattle.std.specs.Prelude.{◌≡◌, ◌+◌, ◌≤◌, [], ◌∷◌, ◌++◌, map, IfOk, OnOk, option_map};
ghost use Rattle.aseba_tree.specs.CoreExpr.{prefix};
ghost use Rattle.aseba_tree.specs.Elements.{bumped_elements, changed_elements, element_of, elements_of, elements_of_list, indexed_element, named_elements, paired_elements, range_elements, target_elements, variable_place};
ghost use Rattle.aseba_tree.specs.Value.{constant_named};
ghost use Rattle.aseba_tree.specs.View.{core_expr_view, expr_view, exprs_view, target_view};
ghost use Rattle.aseba_expand.specs.Made.{bumped, cells_from, constant_elements, first_element};
ghost use Rattle.aseba_expand.specs.Plain.{bound};
ghost use Rattle.aseba_expand.specs.Scope.{KnowsNames, pair_of, program_of};

use crate::constants::span;
use crate::scope::{Place, Scope};
use aseba_tree::{CoreExpr, Expr, Form, Part, Target};
use aseba_words::{Binary, List, Mem, Name, Unary};
use sqlite_items::Boxed;
use std::alloc::Global;

/// The elements of an expression in order.
#[cycle(elements)]
pub fn elements(alloc: Global, scope: &Scope, expr: &Expr) -> Result<List<CoreExpr>, Mem>
    requires { KnowsNames scope.now }
    ensures { IfOk result (λ es. map core_expr_view es ≡ elements_of (program_of scope.now) (expr_view expr.now)) }
{
    match &expr.form {
        Form::Number(value) => only(alloc, CoreExpr::Number(*value)),
        Form::Whole(name) => named(alloc, scope, name),
        Form::Index(name, index) => {
            let index = elements(alloc, scope, index.get())?;
            indexed(alloc, scope.place(name), index)
        }
        Form::Range(name, first, last) => range(alloc, scope, name, first.get(), last.get()),
        Form::Items(items) => listed(alloc, scope, items),
        Form::One(op, operand) => prefixed(alloc, *op, elements(alloc, scope, operand.get())?),
        Form::Two(op, left, right) => {
            let left = elements(alloc, scope, left.get())?;
            paired(alloc, *op, left, elements(alloc, scope, right.get())?)
        }
    }
}

/// The elements of the expressions of a list.
#[cycle(elements)]
fn listed(alloc: Global, scope: &Scope, items: &List<Expr>) -> Result<List<CoreExpr>, Mem>
    requires { KnowsNames scope.now }
    ensures { IfOk result (λ es. map core_expr_view es ≡ elements_of_list (program_of scope.now) (exprs_view items.now)) }
{
    let mut built = List::new(alloc);
    for item in items.as_slice() {
        append(&mut built, elements(alloc, scope, item)?)?;
    }
    Ok(built)
}

/// Adds elements behind others.
pub fn append(built: &mut List<CoreExpr>, more: List<CoreExpr>) -> Result<(), Mem>
    ensures { OnOk result (map core_expr_view built.new ≡ map core_expr_view built.old ++ map core_expr_view more) }
{
    for element in more.into_vec() {
        built.add(element)?;
    }
    Ok(())
}

fn only(alloc: Global, element: CoreExpr) -> Result<List<CoreExpr>, Mem>
    ensures { IfOk result (λ es. map core_expr_view es ≡ core_expr_view element ∷ []) }
{
    let mut built = List::new(alloc);
    built.add(element)?;
    Ok(built)
}

/// The cells of a variable, or the number of a constant.
fn named(alloc: Global, scope: &Scope, name: &Name) -> Result<List<CoreExpr>, Mem>
    requires { KnowsNames scope.now }
    ensures { IfOk result (λ es. map core_expr_view es ≡ named_elements (variable_place (program_of scope.now) name.now) (constant_named (program_of scope.now).project.consts name.now)) }
{
    match scope.place(name) {
        Some(place) => cells(alloc, place),
        None => number(alloc, scope.constant(name)),
    }
}

fn number(alloc: Global, number: Option<i16>) -> Result<List<CoreExpr>, Mem>
    ensures { IfOk result (λ es. map core_expr_view es ≡ constant_elements number) }
{
    match number {
        Some(value) => only(alloc, CoreExpr::Number(value)),
        None => Ok(List::new(alloc)),
    }
}

/// The cells of a place.
fn cells(alloc: Global, place: Place) -> Result<List<CoreExpr>, Mem>
    requires { place.start + place.size ≤ 65535 }
    ensures { IfOk result (λ es. map core_expr_view es ≡ cells_from place.start place.size) }
{
    let mut built = List::new(alloc);
    for cell in 0..place.size {
        built.add(CoreExpr::Cell(place.start + cell))?;
    }
    Ok(built)
}

/// One cell of a variable, by an index.
fn indexed(
    alloc: Global,
    place: Option<Place>,
    index: List<CoreExpr>,
) -> Result<List<CoreExpr>, Mem>
    ensures { IfOk result (λ es. map core_expr_view es ≡ indexed_element (option_map pair_of place) (map core_expr_view index) ∷ []) }
{
    match (place, index.into_vec().into_iter().next()) {
        (Some(place), Some(index)) => {
            let index = Boxed::new(alloc, index)?;
            only(alloc, CoreExpr::Indirect(place.start, place.size, index))
        }
        _ => only(alloc, CoreExpr::Number(0)),
    }
}

/// The cells of a variable from one to another.
fn range(
    alloc: Global,
    scope: &Scope,
    name: &Name,
    first: &Expr,
    last: &Expr,
) -> Result<List<CoreExpr>, Mem>
    requires { KnowsNames scope.now }
    ensures { IfOk result (λ es. map core_expr_view es ≡ range_elements (variable_place (program_of scope.now) name.now) (bound (program_of scope.now) (expr_view first.now)) (bound (program_of scope.now) (expr_view last.now))) }
{
    match scope.place(name) {
        Some(_) => cells(alloc, span(scope, name, first, last)),
        None => Ok(List::new(alloc)),
    }
}

/// The elements with an operator before each.
fn prefixed(alloc: Global, op: Unary, elements: List<CoreExpr>) -> Result<List<CoreExpr>, Mem>
    ensures { IfOk result (λ es. map core_expr_view es ≡ map (prefix op) (map core_expr_view elements)) }
{
    let mut built = List::new(alloc);
    for element in elements.into_vec() {
        built.add(CoreExpr::One(op, Boxed::new(alloc, element)?))?;
    }
    Ok(built)
}

/// The elements of two operands with an operator between each pair.
fn paired(
    alloc: Global,
    op: Binary,
    lefts: List<CoreExpr>,
    rights: List<CoreExpr>,
) -> Result<List<CoreExpr>, Mem>
    ensures { IfOk result (λ es. map core_expr_view es ≡ paired_elements op (map core_expr_view lefts) (map core_expr_view rights)) }
{
    let mut built = List::new(alloc);
    for (left, right) in lefts.into_vec().into_iter().zip(rights.into_vec()) {
        let left = Boxed::new(alloc, left)?;
        built.add(CoreExpr::Two(op, left, Boxed::new(alloc, right)?))?;
    }
    Ok(built)
}

/// The elements with an operator and 1 behind each.
fn with_one(alloc: Global, op: Binary, elements: List<CoreExpr>) -> Result<List<CoreExpr>, Mem>
    ensures { IfOk result (λ es. map core_expr_view es ≡ bumped op (map core_expr_view elements)) }
{
    let mut built = List::new(alloc);
    for element in elements.into_vec() {
        let element = Boxed::new(alloc, element)?;
        let one = Boxed::new(alloc, CoreExpr::Number(1))?;
        built.add(CoreExpr::Two(op, element, one))?;
    }
    Ok(built)
}

/// The one element of a condition or an index.
pub fn element(alloc: Global, scope: &Scope, expr: &Expr) -> Result<CoreExpr, Mem>
    requires { KnowsNames scope.now }
    ensures { IfOk result (λ e. core_expr_view e ≡ element_of (program_of scope.now) (expr_view expr.now)) }
{
    Ok(first_element(elements(alloc, scope, expr)?))
}

fn first_element(elements: List<CoreExpr>) -> CoreExpr
    ensures { core_expr_view result ≡ first_element (map core_expr_view elements) }
{
    for element in elements.into_vec() {
        return element;
    }
    CoreExpr::Number(0)
}

/// The elements that a target means.
fn targeted(alloc: Global, scope: &Scope, target: &Target) -> Result<List<CoreExpr>, Mem>
    requires { KnowsNames scope.now }
    ensures { IfOk result (λ es. map core_expr_view es ≡ target_elements (program_of scope.now) (target_view target.now)) }
{
    match &target.part {
        Part::All => named(alloc, scope, &target.name),
        Part::At(index) => {
            let index = elements(alloc, scope, index.get())?;
            indexed(alloc, scope.place(&target.name), index)
        }
        Part::Span(first, last) => range(alloc, scope, &target.name, first.get(), last.get()),
    }
}

/// The elements of a target and an expression with an operator between each pair.
pub fn changed(
    alloc: Global,
    scope: &Scope,
    target: &Target,
    op: Binary,
    value: &Expr,
) -> Result<List<CoreExpr>, Mem>
    requires { KnowsNames scope.now }
    ensures { IfOk result (λ es. map core_expr_view es ≡ changed_elements (program_of scope.now) (target_view target.now) op (expr_view value.now)) }
{
    let target = targeted(alloc, scope, target)?;
    paired(alloc, op, target, elements(alloc, scope, value)?)
}

/// The elements of a target with an operator and 1 behind each.
pub fn stepped(
    alloc: Global,
    scope: &Scope,
    target: &Target,
    op: Binary,
) -> Result<List<CoreExpr>, Mem>
    requires { KnowsNames scope.now }
    ensures { IfOk result (λ es. map core_expr_view es ≡ bumped_elements (program_of scope.now) (target_view target.now) op) }
{
    with_one(alloc, op, targeted(alloc, scope, target)?)
}
