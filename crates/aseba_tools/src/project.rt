//! The project that a word names.

ghost use Rattle.std.specs.Prelude.{◌≡◌, ◌<◌, IfOk, IfErr, MatchOption, length, option_map};
ghost use Rattle.std.specs.Str.Lines.{lines};
ghost use Rattle.aseba_edge.specs.Counts.{Counts};
ghost use Rattle.aseba_tree.specs.Inside.{InsideProject};
ghost use Rattle.aseba_describe.specs.Defaults as describe;
ghost use Rattle.aseba_describe.specs.Grammar.{ProjectText};
ghost use Rattle.aseba_describe.specs.NativeLines.{IsNativeLine};
ghost use Rattle.aseba_tools.specs.Outcome.{is_failed_read};
ghost use Rattle.aseba_tools.specs.ProjectWord.{AreFirst, IsFileProject, IsFirstOther, IsProject, IsTextProject, NoFileProject, NoProject, NoTextProject, known_natives};
ghost use Rattle.aseba_tools.specs.ProjectWord as spec;

use crate::file::{MOST_TEXT, read_file};
use crate::natives::first_other;
use crate::status::Status;
use aseba_describe::{ProjectError, default_project, native_line, read_project};
use aseba_edge::Files;
use aseba_tree::{Native, Project};
use aseba_words::Mem;
use std::alloc::Global;

/// Which natives a project may have.
#[derive(Debug, Clone, Copy)]
pub enum Allowed {
    /// Any, where nothing but words is made for it.
    AnyNatives,
    /// The first of the machine's, where it is to run on one.
    KnownNatives,
}

/// The project that a word names: the default one, or that of a file's text.
pub fn named_project<F: Files>(
    alloc: Global,
    word: &str,
    allowed: Allowed,
    files: &mut F,
) -> Result<Project, Status>
    ensures project { IfOk result (IsProject allowed word.now (option_map (λ files. files word.now) (F.contents files.old))) }
    ensures inside { IfOk result InsideProject }
    ensures why { IfErr result (NoProject allowed word.now (option_map (λ files. files word.now) (F.contents files.old))) }
    ensures read_fault { Counts (is_failed_read result) (F.faults files.old) (F.faults files.new) }
    ensures files { F.contents files.new ≡ F.contents files.old }
{
    if is_default(word) {
        without_file(alloc)
    } else {
        file_project(alloc, word, allowed, files)
    }
}

fn is_default(word: &str) -> bool
    ensures { result ≡ spec.is_default word.now }
{
    word == "default"
}

/// The default project.
fn without_file(alloc: Global) -> Result<Project, Status>
    ensures project { IfOk result (λ project. project ≡ describe.default_project) }
    ensures inside { IfOk result InsideProject }
    ensures why { IfErr result (λ status. status ≡ Status.Memory) }
{
    Ok(default_project(alloc)?)
}

/// The project of a file's text.
fn file_project<F: Files>(
    alloc: Global,
    word: &str,
    allowed: Allowed,
    files: &mut F,
) -> Result<Project, Status>
    ensures project { IfOk result (IsFileProject allowed (option_map (λ files. files word.now) (F.contents files.old))) }
    ensures inside { IfOk result InsideProject }
    ensures why { IfErr result (NoFileProject allowed word.now (option_map (λ files. files word.now) (F.contents files.old))) }
    ensures read_fault { Counts (is_failed_read result) (F.faults files.old) (F.faults files.new) }
    ensures files { F.contents files.new ≡ F.contents files.old }
{
    let text = read_file(alloc, word, MOST_TEXT, files)?;
    text_project(alloc, text.as_slice(), allowed)
}

/// The project that a text spells, if its natives are allowed.
fn text_project(alloc: Global, text: &[u8], allowed: Allowed) -> Result<Project, Status>
    ensures project { IfOk result (IsTextProject allowed text.now) }
    ensures inside { IfOk result InsideProject }
    ensures why { IfErr result (NoTextProject allowed text.now) }
{
    match read_project(alloc, text) {
        Ok(project) => match allowed {
            Allowed::AnyNatives => Ok(project),
            Allowed::KnownNatives => with_natives(alloc, text, project),
        },
        Err(ProjectError::Line { n }) => Err(Status::BadProject { line: n }),
        Err(ProjectError::Mem) => Err(Status::Memory),
    }
}

/// The project of a text, if its natives are the machine's.
fn with_natives(alloc: Global, text: &[u8], project: Project) -> Result<Project, Status>
    requires { ProjectText text.now project }
    ensures project { IfOk result (IsTextProject Allowed.KnownNatives text.now) }
    ensures inside { IfOk result InsideProject }
    ensures why { IfErr result (NoTextProject Allowed.KnownNatives text.now) }
{
    match first_unknown(alloc, project.node.natives.as_slice())? {
        None => Ok(project),
        Some(others) => Err(Status::BadProject {
            line: line_of_native(text, &project, others),
        }),
    }
}

/// How many natives come before the first that isn't the machine's of its number.
fn first_unknown(alloc: Global, natives: &[Native]) -> Result<Option<u64>, Mem>
    ensures { IfOk result (λ found. MatchOption found (AreFirst natives.now known_natives) (IsFirstOther natives.now known_natives)) }
{
    let known = default_project(alloc)?;
    Ok(first_other(natives, known.node.natives.as_slice()))
}

/// The line of a native in the text of its project.
fn line_of_native(text: &[u8], project: &Project, others: u64) -> u64
    requires spelled { ProjectText text.now project.now }
    requires there { others < length project.now.node.natives }
    ensures { IsNativeLine (lines text.now) others result }
{
    match native_line(text, others) {
        Some(line) => line,
        None => unreachable!(),
    }
}
