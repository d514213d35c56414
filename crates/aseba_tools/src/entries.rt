//! The entries of a script, by its text.

ghost use Rattle.std.specs.Prelude.{◌+◌, ◌<◌, All, IfErr, IfOk, map, option_map};
ghost use Rattle.aseba_tree.specs.Inside.{InsideProject};
ghost use Rattle.aseba_tree.specs.View.{placed_view, project_view};
ghost use Rattle.aseba_driver.specs.Driven.{IsGood, IsKnown};
ghost use Rattle.aseba_driver.specs.Grammar.{AreInOrder, ScriptText};
ghost use Rattle.aseba_tools.specs.ScriptRead.{AreEntries, NoEntries, NoTextEntries};

use crate::status::Status;
use aseba_driver::{Entry, ScriptError, read_script};
use aseba_tree::{Placed, Project};
use aseba_words::List;
use std::alloc::Global;

/// The entries of a script's text, where there is one, and else none; or the status of a text that is
/// no script.
pub fn entries_of(
    alloc: Global,
    project: &Project,
    places: &[Placed],
    script: Option<&[u8]>,
) -> Result<List<Entry>, Status>
    requires inside { InsideProject project.now }
    requires near { All (λ place. place.start + place.size < 65536) places.now }
    ensures entries { IfOk result (AreEntries (project_view project.now) (map placed_view places.now) (option_map (λ text. text.now) script.entry)) }
    ensures known { IfOk result (λ entries. All (IsKnown (project_view project.now) (map placed_view places.now)) entries) }
    ensures good { IfOk result (IsGood (project_view project.now) (map placed_view places.now)) }
    ensures order { IfOk result AreInOrder }
    ensures why { IfErr result (NoEntries (project_view project.now) (map placed_view places.now) (option_map (λ text. text.now) script.entry)) }
{
    match script {
        None => Ok(List::new(alloc)),
        Some(text) => text_entries(alloc, project, places, text),
    }
}

/// The entries of a script's text.
fn text_entries(
    alloc: Global,
    project: &Project,
    places: &[Placed],
    text: &[u8],
) -> Result<List<Entry>, Status>
    requires inside { InsideProject project.now }
    requires near { All (λ place. place.start + place.size < 65536) places.now }
    ensures entries { IfOk result (ScriptText (project_view project.now) (map placed_view places.now) text.now) }
    ensures known { IfOk result (λ entries. All (IsKnown (project_view project.now) (map placed_view places.now)) entries) }
    ensures good { IfOk result (IsGood (project_view project.now) (map placed_view places.now)) }
    ensures order { IfOk result AreInOrder }
    ensures why { IfErr result (NoTextEntries (project_view project.now) (map placed_view places.now) text.now) }
{
    match read_script(alloc, text, project, places) {
        Ok(entries) => Ok(entries),
        Err(ScriptError::Line { n }) => Err(Status::BadScript { line: n }),
        Err(ScriptError::Mem) => Err(Status::Memory),
    }
}
