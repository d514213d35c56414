//! How large the plain code of a source is, how deep its stack gets, and how many temporaries it
//! needs.
ghost use Rattle.std.specs.Prelude.{◌≡◌, IfOk, OnOk};
ghost use Rattle.aseba_tree.specs.View.{source_view};
ghost use Rattle.aseba_check.specs.Accepted.{IsChecked};
ghost use Rattle.aseba_check.specs.CountedNumbers.{AreNumbers};
ghost use Rattle.aseba_check.specs.CountedParts.{placed_taken};
ghost use Rattle.aseba_check.specs.CountedPlaces.{NumbersFit};
ghost use Rattle.aseba_check.specs.Refused.{program_in};

mod calls;
mod count;
mod elements;
pub mod names;
pub mod parts;
mod statements;
mod subs;
mod taken;
mod total;

use crate::checked::Checked;
use crate::counting::names::placed_world;
use crate::counting::parts::{jump_words, source_taken};
use crate::counting::subs::sub_depths;
use crate::counting::taken::Taken;
use aseba_tree::{Placed, Project, Source};
use aseba_words::Mem;
use std::alloc::Global;
pub use total::Numbers;

/// The numbers of a source that a check in this project gave.
pub fn numbers(alloc: Global, checked: &Checked, project: &Project) -> Result<Numbers, Mem>
    requires { IsChecked project.now checked.now }
    ensures { IfOk result (λ numbers. AreNumbers (program_in project.now checked.now.source) numbers) }
{
    let taken = placed_taken(alloc, &checked.source, checked.places.as_slice(), project)?;
    Ok(Numbers {
        size: taken.words,
        depth: taken.depth,
        room: taken.room,
    })
}

/// What a source takes whose variables have these places.
fn placed_taken(
    alloc: Global,
    source: &Source,
    places: &[Placed],
    project: &Project,
) -> Result<Taken, Mem>
    ensures told { IfOk result (λ taken. taken ≡ placed_taken project.now (source_view source.now) places.now) }
    ensures fits { OnOk result (NumbersFit project.now places.now) }
{
    let parts = source.parts.as_slice();
    let world = placed_world(alloc, project, parts, places)?;
    let jump = jump_words(project);
    let subs = sub_depths(alloc, &world, jump, parts)?;
    Ok(source_taken(&world, &subs, jump, source))
}
