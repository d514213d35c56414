//! A script from its text.
ghost use Rattle.std.specs.Prelude.{◌≡◌, ◌+◌, ◌<◌, map, All, IfOk, IfErr};
ghost use Rattle.aseba_tree.specs.Inside.{InsideProject};
ghost use Rattle.aseba_tree.specs.View.{placed_view, project_view};
ghost use Rattle.aseba_driver.specs.Driven.{IsGood, IsKnown};
ghost use Rattle.aseba_driver.specs.Grammar.{ScriptText, TellsLine};
ghost use Rattle.aseba_driver.specs.Reading as spec;

use crate::entry::Entry;
use crate::fault::{LineFault, ScriptError};
use crate::fields::entry;
use aseba_text::{first_line, is_skipped};
use aseba_tree::{Placed, Project};
use aseba_words::List;
use std::alloc::Global;

/// The script that a text spells for a project and the places of its variables, the node's and the
/// program's; or the text's first bad line.
pub fn read_script(
    alloc: Global,
    text: &[u8],
    project: &Project,
    places: &[Placed],
) -> Result<List<Entry>, ScriptError>
    requires inside { InsideProject project.now }
    requires near { All (λ place. place.start + place.size < 65536) places.now }
    ensures script { IfOk result (λ script. ScriptText (project_view project.now) (map placed_view places.now) text.now script) }
    ensures known { IfOk result (λ script. All (IsKnown (project_view project.now) (map placed_view places.now)) script) }
    ensures good { IfOk result (λ script. IsGood (project_view project.now) (map placed_view places.now) script) }
    ensures line { IfErr result (λ error. TellsLine (project_view project.now) (map placed_view places.now) text.now error) }
{
    let mut script = List::new(alloc);
    let mut rest = text;
    let mut n: u64 = 1;
    while !rest.is_empty() {
        let (line, behind) = first_line(rest);
        match take_line(alloc, project, places, &mut script, line) {
            Ok(()) => {}
            Err(LineFault::Bad) => return Err(ScriptError::Line { n }),
            Err(LineFault::Mem) => return Err(ScriptError::Mem),
        }
        rest = behind;
        n += 1;
    }
    Ok(script)
}

/// Takes a line, which may say nothing.
#[tactic(auto, unfolding(crate::specs::Reading::with_line))]
fn take_line(
    alloc: Global,
    project: &Project,
    places: &[Placed],
    script: &mut List<Entry>,
    line: &[u8],
) -> Result<(), LineFault>
    requires inside { InsideProject project.now }
    requires near { All (λ place. place.start + place.size < 65536) places.now }
    ensures { spec.Gives (λ _. script.new) result (spec.with_line (project_view project.now) (map placed_view places.now) script.old line.now) }
{
    if is_skipped(line) {
        return Ok(());
    }
    let entry = entry(alloc, project, places, line)?;
    if entry.time < last_time(script.as_slice()) {
        return Err(LineFault::Bad);
    }
    script.add(entry)?;
    Ok(())
}

/// The time of the last entry, and 0 where there is none.
fn last_time(script: &[Entry]) -> u64
    ensures { result ≡ spec.last_time 0 script.now }
{
    match script {
        [.., last] => last.time,
        [] => 0,
    }
}
