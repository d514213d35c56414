//! `sim`: a project, a source and maybe a script are read, and the source is compiled and run.

ghost use Rattle.std.specs.Prelude.{◌≡◌, ◌≤◌, false, length, option_map};
ghost use Rattle.aseba_tree.specs.Inside.{InsideProject};
ghost use Rattle.aseba_tree.specs.View.{project_view};
ghost use Rattle.aseba_compile.specs.Answered.{IsCompiled};
ghost use Rattle.aseba_edge.specs.Counts.{Counts};
ghost use Rattle.aseba_tools.specs.FileText.{most_text};
ghost use Rattle.aseba_tools.specs.Outcome.{is_read_fault, is_write_fault};
ghost use Rattle.aseba_tools.specs.ProjectWord.{AreFirst, known_natives};
ghost use Rattle.aseba_tools.specs.Simulated.{Ran, Simulated, WithScript};

use crate::entries::entries_of;
use crate::file::{MOST_TEXT, read_file};
use crate::given::{Given, program_of, read_given};
use crate::project::Allowed;
use crate::putting::status_of;
use crate::running::simulate;
use crate::status::Status;
use aseba_compile::Program;
use aseba_edge::{Files, Sink};
use aseba_tree::Project;
use std::alloc::Global;

/// Runs a source for so many ticks on the node of the project that a word names, with the entries of
/// a script, if one is named, and writes what it tells.
pub fn sim<F: Files, S: Sink>(
    alloc: Global,
    word: &str,
    source: &str,
    script: Option<&str>,
    ticks: u32,
    files: &mut F,
    out: &mut S,
) -> Status
    ensures simulated { Simulated word.now source.now (option_map (λ name. name.now) script.entry) (λ name. option_map (λ files. files name) (F.contents files.old)) ticks (S.taken out.old) (S.taken out.new) result }
    ensures read_fault { Counts (is_read_fault result) (F.faults files.old) (F.faults files.new) }
    ensures write_fault { Counts (is_write_fault result) (S.faults out.old) (S.faults out.new) }
    ensures files { F.contents files.new ≡ F.contents files.old }
{
    match read_given(alloc, word, source, Allowed::KnownNatives, files) {
        Ok(given) => run_given(alloc, &given, script, ticks, files, out),
        Err(status) => status,
    }
}

/// Runs a source that was read.
fn run_given<F: Files, S: Sink>(
    alloc: Global,
    given: &Given,
    script: Option<&str>,
    ticks: u32,
    files: &mut F,
    out: &mut S,
) -> Status
    requires inside { InsideProject given.now.project }
    requires short { length given.now.text ≤ most_text }
    requires natives { AreFirst given.now.project.node.natives known_natives }
    ensures ran { WithScript (option_map (λ name. name.now) script.entry) (λ name. option_map (λ files. files name) (F.contents files.old)) (S.taken out.old) (S.taken out.new) result (λ script_text. Ran (project_view given.now.project) given.now.text script_text ticks (S.taken out.old) (S.taken out.new) result) }
    ensures read_fault { Counts (is_read_fault result) (F.faults files.old) (F.faults files.new) }
    ensures write_fault { Counts (is_write_fault result) (S.faults out.old) (S.faults out.new) }
    ensures files { F.contents files.new ≡ F.contents files.old }
{
    let text = given.text.as_slice();
    match script {
        None => run_text(alloc, &given.project, text, None, ticks, out),
        Some(name) => match read_file(alloc, name, MOST_TEXT, files) {
            Ok(script) => {
                let entries = Some(script.as_slice());
                run_text(alloc, &given.project, text, entries, ticks, out)
            }
            Err(unread) => unread,
        },
    }
}

/// Runs the text of a source with that of a script, if there is one.
fn run_text<S: Sink>(
    alloc: Global,
    project: &Project,
    text: &[u8],
    script: Option<&[u8]>,
    ticks: u32,
    out: &mut S,
) -> Status
    requires inside { InsideProject project.now }
    requires short { length text.now ≤ most_text }
    requires natives { AreFirst project.now.node.natives known_natives }
    ensures ran { Ran (project_view project.now) text.now (option_map (λ text. text.now) script.entry) ticks (S.taken out.old) (S.taken out.new) result }
    ensures no_read { is_read_fault result ≡ false }
    ensures write_fault { Counts (is_write_fault result) (S.faults out.old) (S.faults out.new) }
{
    match program_of(alloc, project, text) {
        Ok(program) => run_program(alloc, project, text, &program, script, ticks, out),
        Err(status) => status,
    }
}

/// Runs the program of a source's text with the text of a script, if there is one.
fn run_program<S: Sink>(
    alloc: Global,
    project: &Project,
    text: &[u8],
    program: &Program,
    script: Option<&[u8]>,
    ticks: u32,
    out: &mut S,
) -> Status
    requires inside { InsideProject project.now }
    requires natives { AreFirst project.now.node.natives known_natives }
    requires compiled { IsCompiled (project_view project.now) text.now program.now }
    ensures ran { Ran (project_view project.now) text.now (option_map (λ text. text.now) script.entry) ticks (S.taken out.old) (S.taken out.new) result }
    ensures no_read { is_read_fault result ≡ false }
    ensures write_fault { Counts (is_write_fault result) (S.faults out.old) (S.faults out.new) }
{
    let places = program.places.as_slice();
    match entries_of(alloc, project, places, script) {
        Ok(entries) => {
            let all = entries.as_slice();
            status_of(simulate(alloc, project, program, all, ticks, out))
        }
        Err(status) => status,
    }
}
