//! A project from its text.
ghost use Rattle.std.specs.Prelude.{IfOk, IfErr};
ghost use Rattle.std.specs.Str.Lines.{lines};
ghost use Rattle.aseba_describe.specs.Grammar.{ProjectText, TellsLine, IsDecided};
ghost use Rattle.aseba_describe.specs.Reading as spec;

use crate::draft::Draft;
use crate::fault::{LineFault, ProjectError};
use crate::fields::entry;
use aseba_text::{first_line, is_skipped};
use aseba_tree::Project;
use std::alloc::Global;

/// The project that a text spells, or the first line that breaks a rule.
pub fn read_project(alloc: Global, text: &[u8]) -> Result<Project, ProjectError>
    ensures project { IfOk result (λ project. ProjectText text.now project) }
    ensures line { IfErr result (λ error. TellsLine text.now error) }
    ensures decided { IsDecided text.now }
{
    let draft = Draft::new(alloc)?;
    read_lines(alloc, draft, text)
}

fn read_lines(alloc: Global, draft: Draft, text: &[u8]) -> Result<Project, ProjectError>
    ensures { spec.GivesProject result (spec.read_from 1 draft (lines text.now)) }
{
    let mut draft = draft;
    let mut rest = text;
    let mut n: u64 = 1;
    while !rest.is_empty() {
        let (line, behind) = first_line(rest);
        match take_line(alloc, &mut draft, line) {
            Ok(()) => {}
            Err(LineFault::Bad) => return Err(ProjectError::Line { n }),
            Err(LineFault::Mem) => return Err(ProjectError::Mem),
        }
        rest = behind;
        n += 1;
    }
    if draft.is_whole() {
        Ok(draft.into_project())
    } else {
        Err(ProjectError::Line { n })
    }
}

/// Takes a line, which may say nothing.
#[tactic(auto, unfolding(crate::specs::Reading::with_line))]
fn take_line(alloc: Global, draft: &mut Draft, line: &[u8]) -> Result<(), LineFault>
    ensures { spec.Gives (λ _. draft.new) result (spec.with_line draft.old line.now) }
{
    if is_skipped(line) {
        return Ok(());
    }
    let entry = entry(alloc, line)?;
    draft.take(alloc, entry)
}
