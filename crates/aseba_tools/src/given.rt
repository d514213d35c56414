//! The project and the source that two words name: read, and compiled.

ghost use Rattle.std.specs.Prelude.{◌≡◌, ◌≤◌, IfOk, IfErr, length, option_map};
ghost use Rattle.aseba_edge.specs.Counts.{Counts};
ghost use Rattle.aseba_tree.specs.Inside.{InsideProject};
ghost use Rattle.aseba_tree.specs.View.{project_view};
ghost use Rattle.aseba_compile.specs.Answered.{IsCompiled};
ghost use Rattle.aseba_tools.specs.FileText.{most_text};
ghost use Rattle.aseba_tools.specs.Given.{AreGiven, NotGiven};
ghost use Rattle.aseba_tools.specs.Outcome.{is_failed_read};
ghost use Rattle.aseba_tools.specs.ProjectWord.{AreFirst, known_natives};
ghost use Rattle.aseba_tools.specs.Written.{NoProgram};

use crate::file::{MOST_TEXT, read_file};
use crate::project::{Allowed, named_project};
use crate::status::Status;
use aseba_compile::{Program, Refusal, compile};
use aseba_edge::Files;
use aseba_tree::Project;
use aseba_words::List;
use std::alloc::Global;

/// A project, and the text of a source.
#[derive(Debug, Drop)]
pub struct Given {
    pub project: Project,
    pub text: List<u8>,
}

/// Reads the project that a word names, with natives that are allowed, and then the file of a source.
pub fn read_given<F: Files>(
    alloc: Global,
    word: &str,
    source: &str,
    allowed: Allowed,
    files: &mut F,
) -> Result<Given, Status>
    ensures given { IfOk result (λ given. AreGiven allowed word.now source.now (λ name. option_map (λ files. files name) (F.contents files.old)) given.project given.text) }
    ensures inside { IfOk result (λ given. InsideProject given.project) }
    ensures short { IfOk result (λ given. length given.text ≤ most_text) }
    ensures natives { IfOk result (λ given. allowed ≡ Allowed.KnownNatives → AreFirst given.project.node.natives known_natives) }
    ensures why { IfErr result (NotGiven allowed word.now source.now (λ name. option_map (λ files. files name) (F.contents files.old))) }
    ensures read_fault { Counts (is_failed_read result) (F.faults files.old) (F.faults files.new) }
    ensures files { F.contents files.new ≡ F.contents files.old }
{
    let project = named_project(alloc, word, allowed, files)?;
    let text = read_file(alloc, source, MOST_TEXT, files)?;
    Ok(Given { project, text })
}

/// The program of a source's text, or the status of a text that has none.
pub fn program_of(alloc: Global, project: &Project, text: &[u8]) -> Result<Program, Status>
    requires inside { InsideProject project.now }
    requires short { length text.now ≤ most_text }
    ensures program { IfOk result (IsCompiled (project_view project.now) text.now) }
    ensures why { IfErr result (NoProgram (project_view project.now) text.now) }
{
    match compile(alloc, text, project) {
        Ok(program) => Ok(program),
        Err(Refusal::Mem) => Err(Status::Memory),
        Err(refusal) => Err(Status::Refused(refusal)),
    }
}
