//! The subroutines of a large project that no call reaches.
ghost use Rattle.std.specs.Prelude.{◌≡◌, [], ◌≤◌, map, option_map, IfOk};
ghost use Rattle.aseba_tree.specs.Inside.{InsideProject};
ghost use Rattle.aseba_tree.specs.Shape.{IsTree};
ghost use Rattle.aseba_tree.specs.View.{handler_view, source_view, placed_view};
ghost use Rattle.aseba_tree.specs.Faults as tree;
ghost use Rattle.aseba_tree.specs.Layout.{layout, cells_of_variables};
ghost use Rattle.aseba_tree.specs.Soundness.{refusal};
ghost use Rattle.aseba_check.specs.Refused.{program_in, far_view};
ghost use Rattle.aseba_check.specs.Starts as told;
ghost use Rattle.aseba_check.specs.Statements.{known_of};

use crate::counting::names::placed_world;
use crate::counting::parts::{is_large, jump_words, part_words};
use crate::world::World;
use aseba_tree::{Handler, Placed, Pos, Project, Source};
use aseba_words::Mem;
use std::alloc::Global;

/// A subroutine that begins where no call reaches.
#[derive(Clone, Copy, Debug)]
pub struct Far {
    /// The place of its name.
    pub at: Pos,
    /// The address of its first word of plain code.
    pub start: u64,
}

/// The first subroutine that begins too far behind, in a source that breaks no rule and whose
/// variables have room.
pub fn far_subroutine(
    alloc: Global,
    source: &Source,
    project: &Project,
    places: &[Placed],
) -> Result<Option<Far>, Mem>
    requires inside { InsideProject project.now }
    requires is_tree { IsTree (source_view source.now) }
    requires faultless { tree.faults (program_in project.now source.now) ≡ [] }
    requires room { cells_of_variables (program_in project.now source.now) ≤ project.now.node.cells }
    requires places { map placed_view places.now ≡ layout (program_in project.now source.now) }
    ensures { IfOk result (λ far. refusal (program_in project.now source.now) ≡ option_map far_view far) }
{
    if !is_large(project) {
        return Ok(None);
    }
    let parts = source.parts.as_slice();
    let world = placed_world(alloc, project, parts, places)?;
    let first = table_words(parts);
    Ok(first_far(alloc, &world, jump_words(project), first, parts))
}

/// The words of the event table: its length, a pair for the init code and one for each handler.
fn table_words(parts: &[Handler]) -> u64
    ensures { result ≡ told.table_told 3 (map handler_view parts.now) }
{
    let mut words: u64 = 3;
    for part in parts {
        if !part.is_sub {
            words = words.saturating_add(2);
        }
    }
    words
}

/// The first of the parts that no call reaches, where the first subroutine begins there.
fn first_far(alloc: Global, world: &World, jump: u64, first: u64, parts: &[Handler]) -> Option<Far>
    ensures { result ≡ told.first_far (known_of world.now) jump first (map handler_view parts.now) }
{
    let mut start = first;
    for part in parts {
        if is_far(start, part) {
            return Some(Far { at: part.at, start });
        }
        start = next_start(alloc, world, jump, start, part);
    }
    None
}

/// Whether a part is a subroutine that no call reaches, where it begins there.
fn is_far(start: u64, part: &Handler) -> bool
    ensures { result ≡ told.is_far start (handler_view part.now) }
{
    part.is_sub && 4095 < start
}

/// Where a subroutine behind a part begins.
fn next_start(alloc: Global, world: &World, jump: u64, start: u64, part: &Handler) -> u64
    ensures { result ≡ told.next_start (known_of world.now) jump start (handler_view part.now) }
{
    if part.is_sub {
        start.saturating_add(part_words(alloc, world, jump, part))
    } else {
        start
    }
}
