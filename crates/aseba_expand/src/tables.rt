//! The tables of a checked source's names.
ghost use Rattle.std.specs.Prelude.{◌≡◌, ◌≤◌, length, IfOk, OnOk};
ghost use Rattle.aseba_check.specs.Accepted.{IsChecked};
ghost use Rattle.aseba_check.specs.Looked.{looked, nothing};
ghost use Rattle.aseba_check.specs.Refused.{program_in};
ghost use Rattle.aseba_expand.specs.Scope.{KnowsNames, program_of};
ghost use Rattle.aseba_expand.specs.Tables as told;

use crate::scope::{Place, Scope};
use aseba_check::{Checked, Placed, Table, native_places, sub_places};
use aseba_tree::{Const, Local, Project, Sized};
use aseba_words::Mem;
use std::alloc::Global;

fn add_places(alloc: Global, known: &mut Table<Place>, places: &[Placed]) -> Result<(), Mem>
    ensures { OnOk result (looked known.new ≡ told.with_places (looked known.old) places.now) }
{
    for placed in places {
        let place = Place {
            start: placed.start,
            size: placed.size,
        };
        known.set_first(alloc, &placed.name, place)?;
    }
    Ok(())
}

fn add_consts(alloc: Global, known: &mut Table<i16>, consts: &[Const]) -> Result<(), Mem>
    ensures { OnOk result (looked known.new ≡ told.with_consts (looked known.old) consts.now) }
{
    for constant in consts {
        add_const(alloc, known, constant)?;
    }
    Ok(())
}

fn add_const(alloc: Global, known: &mut Table<i16>, constant: &Const) -> Result<(), Mem>
    ensures { OnOk result (looked known.new ≡ told.with_const (looked known.old) constant.now) }
{
    let value = constant.value;
    known.set_first(alloc, &constant.name, value)
}

fn add_globals(alloc: Global, known: &mut Table<u16>, globals: &[Sized]) -> Result<(), Mem>
    requires { length globals.now ≤ 4096 }
    ensures { OnOk result (looked known.new ≡ told.with_globals (looked known.old) 0 globals.now) }
{
    for (number, event) in globals.iter().enumerate() {
        known.set_first(alloc, &event.name, number as u16)?;
    }
    Ok(())
}

fn add_locals(alloc: Global, known: &mut Table<u16>, locals: &[Local]) -> Result<(), Mem>
    requires { length locals.now ≤ 4096 }
    ensures { OnOk result (looked known.new ≡ told.with_locals (looked known.old) 0 locals.now) }
{
    for (before, event) in locals.iter().enumerate() {
        known.set_first(alloc, &event.name, 0xfffe - before as u16)?;
    }
    Ok(())
}

/// The number of each event by its name.
fn event_numbers(alloc: Global, project: &Project) -> Result<Table<u16>, Mem>
    requires globals { length project.now.events ≤ 4096 }
    requires locals { length project.now.node.locals ≤ 4096 }
    ensures { IfOk result (λ events. looked events ≡ told.with_locals (told.with_globals nothing 0 project.now.events) 0 project.now.node.locals) }
{
    let mut events = Table::new(alloc);
    add_globals(alloc, &mut events, project.events.as_slice())?;
    add_locals(alloc, &mut events, project.node.locals.as_slice())?;
    Ok(events)
}

/// The places of variables by their names.
fn variables_of(alloc: Global, places: &[Placed]) -> Result<Table<Place>, Mem>
    ensures { IfOk result (λ known. looked known ≡ told.with_places nothing places.now) }
{
    let mut known = Table::new(alloc);
    add_places(alloc, &mut known, places)?;
    Ok(known)
}

/// The numbers of constants by their names.
fn constants_of(alloc: Global, consts: &[Const]) -> Result<Table<i16>, Mem>
    ensures { IfOk result (λ known. looked known ≡ told.with_consts nothing consts.now) }
{
    let mut known = Table::new(alloc);
    add_consts(alloc, &mut known, consts)?;
    Ok(known)
}

/// A source in its project with its tables filled.
fn filled<'a>(alloc: Global, project: &'a Project, checked: &'a Checked) -> Result<Scope<'a>, Mem>
    requires globals { length project.now.events ≤ 4096 }
    requires locals { length project.now.node.locals ≤ 4096 }
    requires cells { checked.now.cells ≤ 65535 }
    ensures { IfOk result (λ scope. told.IsFilled project.now checked.now scope) }
{
    let variables = variables_of(alloc, checked.places.as_slice())?;
    let constants = constants_of(alloc, project.consts.as_slice())?;
    let events = event_numbers(alloc, project)?;
    let natives = native_places(alloc, project.node.natives.as_slice())?;
    let subs = sub_places(alloc, checked.source.parts.as_slice())?;
    Ok(Scope {
        project,
        source: &checked.source,
        variables,
        constants,
        events,
        natives,
        subs,
        cells: checked.cells as u16,
    })
}

/// The names of a checked source.
pub fn scope_of<'a>(
    alloc: Global,
    project: &'a Project,
    checked: &'a Checked,
) -> Result<Scope<'a>, Mem>
    requires { IsChecked project.now checked.now }
    ensures names { IfOk result (λ scope. KnowsNames scope) }
    ensures program { IfOk result (λ scope. program_of scope ≡ program_in project.now checked.now.source) }
{
    filled(alloc, project, checked)
}
