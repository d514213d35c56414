//! The arguments of events and natives: cells that are there, or temporaries with their elements.
ghost use Rattle.std.specs.Prelude.{◌≡◌, ◌+◌, ◌≤◌, [], ◌∷◌, ◌++◌, length, map, IfOk, OnOk, option_map};
ghost use Rattle.std.specs.List.{list_any};
ghost use Rattle.std.specs.Ordering.{int_eq};
ghost use Rattle.aseba_tree.specs.Core.{core_stmt, send};
ghost use Rattle.aseba_tree.specs.Elements.{range_elements, variable_place};
ghost use Rattle.aseba_tree.specs.Layout.{cells_of_variables};
ghost use Rattle.aseba_tree.specs.Numbers.{argument_elements, fresh_elements, fresh_of_list, param_sizes};
ghost use Rattle.aseba_tree.specs.Templates.{template_lengths};
ghost use Rattle.aseba_tree.specs.View.{core_expr_view, core_stmt_view, expr_view, exprs_view};
ghost use Rattle.aseba_expand.specs.Arguments.{IsArgumentPlace, IsGiven, IsOwnPlace, opened, seen_with};
ghost use Rattle.aseba_expand.specs.Listed.{listed_calling, listed_sending};
ghost use Rattle.aseba_expand.specs.Plain.{bound, sent_number, start_of};
ghost use Rattle.aseba_expand.specs.Scope.{KnowsNames, program_of};

use crate::constants::span;
use crate::elements::{append, elements};
use crate::scope::{Place, Scope};
use crate::stores::add_kept;
use aseba_tree::{CoreExpr, CoreForm, CoreStmt, Expr, Form, Param};
use aseba_words::{List, Mem, Name};
use sqlite_items::Boxed;
use std::alloc::Global;

/// What is given to a native.
#[derive(Debug, Drop)]
pub struct Given {
    /// The elements that go into temporaries.
    pub fresh: List<CoreExpr>,
    /// The address of each argument's first cell.
    pub starts: List<u16>,
    /// The number of each argument's cells.
    pub lengths: List<u16>,
}

/// The cells that an argument stands for, if it is a whole variable or a range.
fn own_cells(scope: &Scope, argument: &Expr) -> Option<Place>
    requires { KnowsNames scope.now }
    ensures { IsOwnPlace (program_of scope.now) (expr_view argument.now) result }
{
    match &argument.form {
        Form::Whole(name) => scope.place(name),
        Form::Range(name, first, last) => Some(range_cells(scope, name, first.get(), last.get())),
        Form::Number(_) | Form::Index(_, _) | Form::Items(_) => None,
        Form::One(_, _) | Form::Two(_, _, _) => None,
    }
}

/// The cells of a range, none where there is no such variable.
fn range_cells(scope: &Scope, name: &Name, first: &Expr, last: &Expr) -> Place
    requires { KnowsNames scope.now }
    ensures start { result.start ≡ start_of (program_of scope.now) name.now + bound (program_of scope.now) (expr_view first.now) }
    ensures size { result.size ≡ length (range_elements (variable_place (program_of scope.now) name.now) (bound (program_of scope.now) (expr_view first.now)) (bound (program_of scope.now) (expr_view last.now))) }
{
    let cells = span(scope, name, first, last);
    match scope.place(name) {
        Some(_) => cells,
        None => Place { size: 0, ..cells },
    }
}

/// Where an argument lies, with its elements behind those of others unless it has cells of its own.
fn add_argument(
    alloc: Global,
    scope: &Scope,
    argument: &Expr,
    fresh: &mut List<CoreExpr>,
) -> Result<Place, Mem>
    requires names { KnowsNames scope.now }
    requires room { cells_of_variables (program_of scope.now) + length fresh.old + length (fresh_elements (program_of scope.now) (expr_view argument.now)) ≤ 65535 }
    ensures place { IfOk result (λ place. IsArgumentPlace (program_of scope.now) (length fresh.old) (expr_view argument.now) place) }
    ensures fresh { OnOk result (map core_expr_view fresh.new ≡ map core_expr_view fresh.old ++ fresh_elements (program_of scope.now) (expr_view argument.now)) }
{
    if let Some(place) = own_cells(scope, argument) {
        return Ok(place);
    }
    let start = scope.cells + fresh.as_slice().len() as u16;
    let elements = elements(alloc, scope, argument)?;
    let size = elements.as_slice().len() as u16;
    append(fresh, elements)?;
    Ok(Place { start, size })
}

/// What these arguments give to a native.
fn take_arguments(alloc: Global, scope: &Scope, arguments: &List<Expr>) -> Result<Given, Mem>
    requires names { KnowsNames scope.now }
    requires room { cells_of_variables (program_of scope.now) + length (fresh_of_list (program_of scope.now) (exprs_view arguments.now)) ≤ 65535 }
    ensures { IfOk result (λ given. IsGiven (program_of scope.now) (exprs_view arguments.now) given) }
{
    let mut fresh = List::new(alloc);
    let mut starts = List::new(alloc);
    let mut lengths = List::new(alloc);
    for argument in arguments.as_slice() {
        let place = add_argument(alloc, scope, argument, &mut fresh)?;
        starts.add(place.start)?;
        lengths.add(place.size)?;
    }
    Ok(Given {
        fresh,
        starts,
        lengths,
    })
}

/// Whether one of these sizes is that.
fn has_size(sizes: &[i16], size: i16) -> bool
    ensures { result ≡ list_any (int_eq size) sizes.now }
{
    sizes.iter().any(|other| size == *other)
}

/// Adds the length of a parameter's argument, if it is the first of its template.
fn add_length(
    param: &Param,
    length: u16,
    seen: &mut List<i16>,
    values: &mut List<u16>,
) -> Result<(), Mem>
    ensures seen { OnOk result (seen.new ≡ seen_with seen.old param.now.size) }
    ensures values { OnOk result (values.new ≡ values.old ++ opened seen.old param.now.size length) }
{
    if param.size < 0 && !has_size(seen.as_slice(), param.size) {
        seen.add(param.size)?;
        values.add(length)
    } else {
        Ok(())
    }
}

/// Adds the length of each template, in the order in which they first stand among parameters.
fn add_lengths(
    alloc: Global,
    params: &[Param],
    lengths: &[u16],
    values: &mut List<u16>,
) -> Result<(), Mem>
    ensures { OnOk result (values.new ≡ values.old ++ template_lengths [] (map (λ p. p.size) params.now) lengths.now) }
{
    let mut seen = List::new(alloc);
    for (place, param) in params.iter().enumerate() {
        if let Some(length) = lengths.get(place) {
            add_length(param, *length, &mut seen, values)?;
        }
    }
    Ok(())
}

/// Adds the call of a native.
pub fn add_call(
    alloc: Global,
    scope: &Scope,
    line: u32,
    name: &Name,
    arguments: &List<Expr>,
    built: &mut List<CoreStmt>,
) -> Result<(), Mem>
    requires names { KnowsNames scope.now }
    requires room { cells_of_variables (program_of scope.now) + length (fresh_of_list (program_of scope.now) (exprs_view arguments.now)) ≤ 65535 }
    ensures { OnOk result (map core_stmt_view built.new ≡ map core_stmt_view built.old ++ listed_calling (program_of scope.now) line name.now (exprs_view arguments.now)) }
{
    let Given {
        fresh,
        starts,
        lengths,
    } = take_arguments(alloc, scope, arguments)?;
    add_kept(alloc, line, scope.cells, fresh, built)?;
    let mut values = starts;
    let params = scope.params(name);
    add_lengths(alloc, params, lengths.as_slice(), &mut values)?;
    let form = CoreForm::Call(scope.native(name), values);
    built.add(CoreStmt { line, form })
}

/// Adds the sending of an event.
pub fn add_emit(
    alloc: Global,
    scope: &Scope,
    line: u32,
    name: &Name,
    argument: &Option<Boxed<Expr>>,
    built: &mut List<CoreStmt>,
) -> Result<(), Mem>
    requires names { KnowsNames scope.now }
    requires room { cells_of_variables (program_of scope.now) + length (argument_elements (program_of scope.now) (option_map expr_view argument.now)) ≤ 65535 }
    ensures { OnOk result (map core_stmt_view built.new ≡ map core_stmt_view built.old ++ listed_sending (program_of scope.now) line name.now (option_map expr_view argument.now)) }
{
    let event = scope.event(name).unwrap_or(0);
    match argument {
        None => add_sent(line, event, Place { start: 0, size: 0 }, built),
        Some(argument) => {
            let mut fresh = List::new(alloc);
            let cells = add_argument(alloc, scope, argument.get(), &mut fresh)?;
            add_kept(alloc, line, scope.cells, fresh, built)?;
            add_sent(line, event, cells, built)
        }
    }
}

fn add_sent(line: u32, event: u16, cells: Place, built: &mut List<CoreStmt>) -> Result<(), Mem>
    ensures { OnOk result (map core_stmt_view built.new ≡ map core_stmt_view built.old ++ core_stmt line (send event cells.start cells.size) ∷ []) }
{
    let form = CoreForm::Emit(event, cells.start, cells.size);
    built.add(CoreStmt { line, form })
}
