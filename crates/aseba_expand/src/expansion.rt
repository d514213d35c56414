//! The element form of a checked source.
ghost use Rattle.std.specs.Prelude.{◌≡◌, ◌+◌, ◌≤◌, ◌++◌, map, IfErr, IfOk, OnOk};
ghost use Rattle.aseba_tree.specs.Core.{no_core};
ghost use Rattle.aseba_tree.specs.Layout.{cells_of_variables};
ghost use Rattle.aseba_tree.specs.Numbers.{greatest, source_room, stmts_room};
ghost use Rattle.aseba_tree.specs.State.{init_code};
ghost use Rattle.aseba_tree.specs.View.{core_part_view, core_stmt_view, core_stmts_view, core_view, decl_view, handler_view, stmts_view};
ghost use Rattle.aseba_check.specs.Accepted.{IsChecked};
ghost use Rattle.aseba_check.specs.CountedNumbers.{AreNumbers};
ghost use Rattle.aseba_check.specs.Refused.{program_in};
ghost use Rattle.aseba_expand.specs.Expanded.{TellsNeed};
ghost use Rattle.aseba_expand.specs.Expands.{IsExpansion};
ghost use Rattle.aseba_expand.specs.Listed.{listed_value, listed_values};
ghost use Rattle.aseba_expand.specs.Plain.{all_plain, handled_event, plain_core, plain_part};
ghost use Rattle.aseba_expand.specs.Rooms.{value_room, values_room};
ghost use Rattle.aseba_expand.specs.Scope.{KnowsNames, program_of};

use crate::elements::elements;
use crate::error::ExpandError;
use crate::numbers::{read_consts, read_numbers};
use crate::scope::Scope;
use crate::statements::body;
use crate::stores::add_assigned;
use crate::tables::scope_of;
use aseba_check::{Checked, Numbers, numbers};
use aseba_tree::{Core, CorePart, CoreStmt, Decl, Handler, Part, Project};
use aseba_words::{List, Mem};
use std::alloc::Global;

/// The element form of a source that a check in this project gave. It is the plain one: each part
/// of an expression has the cell for which it stands, and what is stored into more cells than one is
/// computed whole before, in temporaries behind the variables. The error tells what the variables
/// and the temporaries need and the node doesn't have.
pub fn expand(alloc: Global, checked: &Checked, project: &Project) -> Result<Core, ExpandError>
    requires { IsChecked project.now checked.now }
    ensures core { IfOk result (λ core. IsExpansion (program_in project.now checked.now.source) (core_view core)) }
    ensures full { IfErr result (TellsNeed (program_in project.now checked.now.source)) }
{
    let numbers = numbers(alloc, checked, project)?;
    expand_counted(alloc, checked, project, numbers)
}

/// The element form, as `expand` gives it, of a source that has these numbers.
pub fn expand_counted(
    alloc: Global,
    checked: &Checked,
    project: &Project,
    numbers: Numbers,
) -> Result<Core, ExpandError>
    requires checked { IsChecked project.now checked.now }
    requires numbers { AreNumbers (program_in project.now checked.now.source) numbers }
    ensures core { IfOk result (λ core. IsExpansion (program_in project.now checked.now.source) (core_view core)) }
    ensures full { IfErr result (TellsNeed (program_in project.now checked.now.source)) }
{
    read_numbers(&checked.source);
    read_consts(project.consts.as_slice());
    let need = u64::from(checked.cells) + numbers.room;
    let have = u64::from(project.node.cells);
    if have < need {
        return Err(ExpandError::VariablesFull { need, have });
    }
    Ok(plain_form(alloc, checked, project, numbers)?)
}

/// The plain form of a source, where its node has room for its temporaries.
fn plain_form(
    alloc: Global,
    checked: &Checked,
    project: &Project,
    numbers: Numbers,
) -> Result<Core, Mem>
    requires checked { IsChecked project.now checked.now }
    requires numbers { AreNumbers (program_in project.now checked.now.source) numbers }
    requires room { cells_of_variables (program_in project.now checked.now.source) + source_room (program_in project.now checked.now.source) ≤ 65535 }
    ensures { IfOk result (λ core. core_view core ≡ plain_core (program_in project.now checked.now.source)) }
{
    let scope = scope_of(alloc, project, checked)?;
    core_of(alloc, &scope, numbers)
}

/// The plain form of a scope's source that has these numbers.
fn core_of(alloc: Global, scope: &Scope, numbers: Numbers) -> Result<Core, Mem>
    requires names { KnowsNames scope.now }
    requires numbers { AreNumbers (program_of scope.now) numbers }
    requires room { cells_of_variables (program_of scope.now) + source_room (program_of scope.now) ≤ 65535 }
    ensures { IfOk result (λ core. core_view core ≡ plain_core (program_of scope.now)) }
{
    let init = init(alloc, scope)?;
    let parts = parts(alloc, scope, scope.source.parts.as_slice())?;
    Ok(Core {
        init,
        parts,
        cells: u32::from(scope.cells),
        room: numbers.room as u32,
        size: numbers.size,
        depth: numbers.depth,
    })
}

// Statements before the first part

/// The stores of the declarations' values, and the statements behind them.
fn init(alloc: Global, scope: &Scope) -> Result<List<CoreStmt>, Mem>
    requires names { KnowsNames scope.now }
    requires room { cells_of_variables (program_of scope.now) + stmts_room (program_of scope.now) (init_code (program_of scope.now).source) ≤ 65535 }
    ensures { IfOk result (λ built. core_stmts_view built ≡ all_plain (program_of scope.now) (init_code (program_of scope.now).source) no_core) }
{
    let mut built = values(alloc, scope, scope.source.vars.as_slice())?;
    let stmts = body(alloc, scope, &scope.source.init)?;
    append(&mut built, stmts)?;
    Ok(built)
}

/// Adds statements behind others.
fn append(built: &mut List<CoreStmt>, more: List<CoreStmt>) -> Result<(), Mem>
    ensures { OnOk result (map core_stmt_view built.new ≡ map core_stmt_view built.old ++ map core_stmt_view more) }
{
    for stmt in more.into_vec() {
        built.add(stmt)?;
    }
    Ok(())
}

/// The stores of all declarations' values.
fn values(alloc: Global, scope: &Scope, vars: &[Decl]) -> Result<List<CoreStmt>, Mem>
    requires names { KnowsNames scope.now }
    requires room { cells_of_variables (program_of scope.now) + values_room (program_of scope.now) (map decl_view vars.now) ≤ 65535 }
    ensures { IfOk result (λ built. map core_stmt_view built ≡ listed_values (program_of scope.now) (map decl_view vars.now)) }
{
    let mut built = List::new(alloc);
    for decl in vars {
        add_value(alloc, scope, decl, &mut built)?;
    }
    Ok(built)
}

/// Adds the stores of a declaration's value.
fn add_value(
    alloc: Global,
    scope: &Scope,
    decl: &Decl,
    built: &mut List<CoreStmt>,
) -> Result<(), Mem>
    requires names { KnowsNames scope.now }
    requires room { cells_of_variables (program_of scope.now) + value_room (program_of scope.now) (decl_view decl.now).value ≤ 65535 }
    ensures { OnOk result (map core_stmt_view built.new ≡ map core_stmt_view built.old ++ listed_value (program_of scope.now) (decl_view decl.now)) }
{
    let Some(value) = &decl.value else {
        return Ok(());
    };
    let values = elements(alloc, scope, value)?;
    let whole = Part::All;
    add_assigned(alloc, scope, decl.line, &decl.name, &whole, values, built)
}

// Parts

/// The cores of parts.
fn parts(alloc: Global, scope: &Scope, handlers: &[Handler]) -> Result<List<CorePart>, Mem>
    requires names { KnowsNames scope.now }
    requires room { cells_of_variables (program_of scope.now) + greatest (map (λ h. stmts_room (program_of scope.now) h.body) (map handler_view handlers.now)) ≤ 65535 }
    ensures { IfOk result (λ built. map core_part_view built ≡ map (plain_part (program_of scope.now)) (map handler_view handlers.now)) }
{
    let mut built = List::new(alloc);
    for handler in handlers {
        built.add(part(alloc, scope, handler)?)?;
    }
    Ok(built)
}

/// The core of a part.
fn part(alloc: Global, scope: &Scope, handler: &Handler) -> Result<CorePart, Mem>
    requires names { KnowsNames scope.now }
    requires room { cells_of_variables (program_of scope.now) + stmts_room (program_of scope.now) (stmts_view handler.now.body) ≤ 65535 }
    ensures { IfOk result (λ part. core_part_view part ≡ plain_part (program_of scope.now) (handler_view handler.now)) }
{
    let stmts = body(alloc, scope, &handler.body)?;
    Ok(CorePart {
        line: handler.line,
        event: handled(scope, handler),
        body: stmts,
    })
}

/// The number of the event that a part handles, none where it is a subroutine.
fn handled(scope: &Scope, handler: &Handler) -> Option<u16>
    requires { KnowsNames scope.now }
    ensures { result ≡ handled_event (program_of scope.now) (handler_view handler.now) }
{
    if handler.is_sub {
        None
    } else {
        scope.event(&handler.name)
    }
}
