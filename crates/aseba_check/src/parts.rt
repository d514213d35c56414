//! Handlers and subroutines, and the names that they give and use.
ghost use Rattle.std.specs.Prelude.{◌≡◌, map, IfOk, OnOk};
ghost use Rattle.aseba_tree.specs.View.{handler_view, stmts_view};
ghost use Rattle.aseba_tree.specs.Each.{EachStmts, EachPartOf};
ghost use Rattle.aseba_check.specs.Fits.{Fits};
ghost use Rattle.aseba_check.specs.Looked.{looked, nothing};
ghost use Rattle.aseba_check.specs.Statements.{known_of};
ghost use Rattle.aseba_check.specs.Parts as told;

use crate::fault::{Fault, Rule, fault_if, least};
use crate::statements::body_fault;
use crate::table::Table;
use crate::world::World;
use aseba_tree::{Handler, Local, Native, Project, Sized};
use aseba_words::Mem;
use std::alloc::Global;

/// The events that a project gives: global ones with their size.
pub fn project_events(alloc: Global, project: &Project) -> Result<Table<Option<u64>>, Mem>
    ensures { IfOk result (λ events. looked events ≡ told.with_locals (told.with_globals nothing project.now.events) project.now.node.locals) }
{
    let mut events = Table::new(alloc);
    add_globals(alloc, &mut events, project.events.as_slice())?;
    add_locals(alloc, &mut events, project.node.locals.as_slice())?;
    Ok(events)
}

fn add_globals(alloc: Global, events: &mut Table<Option<u64>>, globals: &[Sized]) -> Result<(), Mem>
    ensures { OnOk result (looked events.new ≡ told.with_globals (looked events.old) globals.now) }
{
    for event in globals {
        events.set_first(alloc, &event.name, Some(u64::from(event.size)))?;
    }
    Ok(())
}

fn add_locals(alloc: Global, events: &mut Table<Option<u64>>, locals: &[Local]) -> Result<(), Mem>
    ensures { OnOk result (looked events.new ≡ told.with_locals (looked events.old) locals.now) }
{
    for event in locals {
        events.set_first(alloc, &event.name, None)?;
    }
    Ok(())
}

/// The place of the first native of each name.
pub fn native_places(alloc: Global, natives: &[Native]) -> Result<Table<usize>, Mem>
    ensures { IfOk result (λ places. looked places ≡ told.with_natives nothing 0 natives.now) }
{
    let mut places = Table::new(alloc);
    add_natives(alloc, &mut places, natives)?;
    Ok(places)
}

fn add_natives(alloc: Global, places: &mut Table<usize>, natives: &[Native]) -> Result<(), Mem>
    ensures { OnOk result (looked places.new ≡ told.with_natives (looked places.old) 0 natives.now) }
{
    for (place, native) in natives.iter().enumerate() {
        places.set_first(alloc, &native.name, place)?;
    }
    Ok(())
}

/// The place of the first subroutine of each name among the parts.
pub fn sub_places(alloc: Global, parts: &[Handler]) -> Result<Table<usize>, Mem>
    ensures { IfOk result (λ places. looked places ≡ told.with_subs nothing 0 (map handler_view parts.now)) }
{
    let mut places = Table::new(alloc);
    add_subs(alloc, &mut places, parts)?;
    Ok(places)
}

fn add_subs(alloc: Global, places: &mut Table<usize>, parts: &[Handler]) -> Result<(), Mem>
    ensures { OnOk result (looked places.new ≡ told.with_subs (looked places.old) 0 (map handler_view parts.now)) }
{
    for (place, part) in parts.iter().enumerate() {
        add_sub(alloc, places, place, part)?;
    }
    Ok(())
}

fn add_sub(
    alloc: Global,
    places: &mut Table<usize>,
    place: usize,
    part: &Handler,
) -> Result<(), Mem>
    ensures { OnOk result (looked places.new ≡ told.with_place (looked places.old) place (handler_view part.now)) }
{
    if part.is_sub {
        places.set_first(alloc, &part.name, place)
    } else {
        Ok(())
    }
}

/// The least fault of parts and what stands before them.
pub fn parts_fault(
    alloc: Global,
    world: &World,
    parts: &[Handler],
    before: Option<Fault>,
) -> Result<Option<Fault>, Mem>
    ensures told { IfOk result (λ fault. fault ≡ told.parts_told (known_of world.now) nothing nothing before (map handler_view parts.now)) }
    ensures fits { OnOk result (EachPartOf Fits (map handler_view parts.now)) }
{
    let mut subs = Table::new(alloc);
    let mut events = Table::new(alloc);
    walk_parts(alloc, world, &mut subs, &mut events, parts, before)
}

/// The same behind parts of these names.
fn walk_parts(
    alloc: Global,
    world: &World,
    subs: &mut Table<()>,
    events: &mut Table<()>,
    parts: &[Handler],
    before: Option<Fault>,
) -> Result<Option<Fault>, Mem>
    ensures told { IfOk result (λ fault. fault ≡ told.parts_told (known_of world.now) (looked subs.old) (looked events.old) before (map handler_view parts.now)) }
    ensures fits { OnOk result (EachPartOf Fits (map handler_view parts.now)) }
{
    let mut fault = before;
    for part in parts {
        fault = part_fault(alloc, world, subs, events, part, fault)?;
        add_seen(alloc, subs, events, part)?;
    }
    Ok(fault)
}

fn part_fault(
    alloc: Global,
    world: &World,
    subs: &Table<()>,
    events: &Table<()>,
    part: &Handler,
    before: Option<Fault>,
) -> Result<Option<Fault>, Mem>
    ensures told { IfOk result (λ fault. fault ≡ told.part_told (known_of world.now) (looked subs.now) (looked events.now) before (handler_view part.now)) }
    ensures fits { OnOk result (EachStmts Fits (stmts_view part.now.body)) }
{
    let name = name_fault(world, subs, events, part);
    body_fault(alloc, world, &part.body, least(before, name))
}

fn name_fault(world: &World, subs: &Table<()>, events: &Table<()>, part: &Handler) -> Option<Fault>
    ensures { result ≡ told.name_told (known_of world.now) (looked subs.now) (looked events.now) (handler_view part.now) }
{
    let unknown = fault_if(is_strange(world, part), part.at, Rule::Unknown);
    let is_seen = is_seen(subs, events, part);
    least(unknown, fault_if(is_seen, part.at, Rule::Duplicate))
}

/// Whether it handles an event that isn't there.
fn is_strange(world: &World, part: &Handler) -> bool
    ensures { result ≡ told.is_strange (known_of world.now) (handler_view part.now) }
{
    !part.is_sub && world.events.find(&part.name).is_none()
}

/// Whether one of its kind and name stands before it.
fn is_seen(subs: &Table<()>, events: &Table<()>, part: &Handler) -> bool
    ensures { result ≡ told.is_seen (looked subs.now) (looked events.now) (handler_view part.now) }
{
    if part.is_sub {
        subs.find(&part.name).is_some()
    } else {
        events.find(&part.name).is_some()
    }
}

fn add_seen(
    alloc: Global,
    subs: &mut Table<()>,
    events: &mut Table<()>,
    part: &Handler,
) -> Result<(), Mem>
    ensures subs { OnOk result (looked subs.new ≡ told.with_sub (looked subs.old) (handler_view part.now)) }
    ensures events { OnOk result (looked events.new ≡ told.with_event (looked events.old) (handler_view part.now)) }
{
    if part.is_sub {
        subs.set_first(alloc, &part.name, ())
    } else {
        events.set_first(alloc, &part.name, ())
    }
}
