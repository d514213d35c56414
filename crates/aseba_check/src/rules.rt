//! The rules of the language over a whole source.
ghost use Rattle.std.specs.Prelude.{◌≡◌, ◌++◌, map, IfOk, OnOk};
ghost use Rattle.aseba_tree.specs.View.{handler_view, source_view};
ghost use Rattle.aseba_check.specs.Looked.{looked};
ghost use Rattle.aseba_check.specs.Statements.{known_of};
ghost use Rattle.aseba_check.specs.Walk as told;

use crate::declarations::{declarations_fault, project_names};
use crate::facts::Meaning;
use crate::fault::Fault;
use crate::parts::{native_places, parts_fault, project_events, sub_places};
use crate::statements::body_fault;
use crate::table::Table;
use crate::world::World;
use aseba_tree::{Handler, Project, Source};
use aseba_words::{List, Mem};
use std::alloc::Global;

/// The first fault of a source, leaving out the cycles of its subroutines. The sizes of its
/// variables are added to the list.
pub fn rules_fault(
    alloc: Global,
    source: &Source,
    project: &Project,
    sizes: &mut List<Option<u64>>,
) -> Result<Option<Fault>, Mem>
    ensures told { IfOk result (λ fault. fault ≡ told.rules_told project.now (source_view source.now)) }
    ensures sizes { OnOk result (sizes.new ≡ sizes.old ++ told.source_sizes project.now (source_view source.now)) }
    ensures fits { OnOk result (told.SourceFits project.now (source_view source.now)) }
{
    let mut names = project_names(alloc, project)?;
    let fault = declarations_fault(alloc, &mut names, sizes, source.vars.as_slice())?;
    let world = world_of(alloc, names, project, source.parts.as_slice())?;
    let fault = body_fault(alloc, &world, &source.init, fault)?;
    parts_fault(alloc, &world, source.parts.as_slice(), fault)
}

/// What the statements of a source may name, where these are its names.
pub fn world_of<'a>(
    alloc: Global,
    names: Table<Meaning>,
    project: &'a Project,
    parts: &[Handler],
) -> Result<World<'a>, Mem>
    ensures { IfOk result (λ world. known_of world ≡ told.known_in project.now (map handler_view parts.now) (looked names)) }
{
    let natives = project.node.natives.as_slice();
    let events = project_events(alloc, project)?;
    let native_places = native_places(alloc, natives)?;
    let subs = sub_places(alloc, parts)?;
    Ok(World {
        names,
        events,
        native_places,
        natives,
        subs,
    })
}
