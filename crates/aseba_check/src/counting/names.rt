//! What names mean to the statements of a source whose variables have their places.
ghost use Rattle.std.specs.Prelude.{◌≡◌, ◌≤◌, Some, map, IfOk, OnOk};
ghost use Rattle.aseba_tree.specs.View.{handler_view};
ghost use Rattle.aseba_check.specs.Looked.{looked};
ghost use Rattle.aseba_check.specs.Declarations.{declared};
ghost use Rattle.aseba_check.specs.Statements.{known_of};
ghost use Rattle.aseba_check.specs.CountedPlaces as told;

use crate::declarations::{declare, project_names};
use crate::facts::Meaning;
use crate::rules::world_of;
use crate::table::Table;
use crate::world::World;
use aseba_tree::{Handler, Placed, Project};
use aseba_words::Mem;
use std::alloc::Global;

/// What statements may name in a project, where these are the parts of their source and the places
/// of its variables.
pub fn placed_world<'a>(
    alloc: Global,
    project: &'a Project,
    parts: &[Handler],
    places: &[Placed],
) -> Result<World<'a>, Mem>
    ensures known { IfOk result (λ world. known_of world ≡ told.known_at project.now (map handler_view parts.now) places.now) }
    ensures fits { OnOk result (told.NumbersFit project.now places.now) }
{
    let mut names = project_names(alloc, project)?;
    add_places(alloc, &mut names, places)?;
    world_of(alloc, names, project, parts)
}

fn add_places(alloc: Global, names: &mut Table<Meaning>, places: &[Placed]) -> Result<(), Mem>
    ensures names { OnOk result (looked names.new ≡ told.with_places (looked names.old) places.now) }
    ensures fits { OnOk result (told.SizesFit places.now) }
{
    for placed in places {
        add_place(alloc, names, placed)?;
    }
    Ok(())
}

fn add_place(alloc: Global, names: &mut Table<Meaning>, placed: &Placed) -> Result<(), Mem>
    ensures names { OnOk result (looked names.new ≡ declared (looked names.old) placed.now.name (Some placed.now.size)) }
    ensures fits { placed.now.size ≤ 65535 }
{
    let size = u64::from(placed.size);
    declare(alloc, names, &placed.name, Some(size))
}
