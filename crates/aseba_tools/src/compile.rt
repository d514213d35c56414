//! `compile`: a project and a source are read, and the words of the source are written.

ghost use Rattle.std.specs.Prelude.{◌≡◌, ◌≤◌, false, length, option_map};
ghost use Rattle.aseba_tree.specs.Inside.{InsideProject};
ghost use Rattle.aseba_tree.specs.View.{project_view};
ghost use Rattle.aseba_edge.specs.Counts.{Counts};
ghost use Rattle.aseba_tools.specs.CodeWritten.{CodeWritten, IsCodeOf};
ghost use Rattle.aseba_tools.specs.FileText.{most_text};
ghost use Rattle.aseba_tools.specs.Outcome.{is_read_fault, is_write_fault};
ghost use Rattle.aseba_tools.specs.Written.{Worked};

use crate::given::{program_of, read_given};
use crate::project::Allowed;
use crate::putting::{put_code, status_of};
use crate::status::Status;
use aseba_edge::{Files, Sink};
use aseba_tree::Project;
use std::alloc::Global;

/// Writes the words of a source for the node of the project that a word names.
pub fn compile<F: Files, S: Sink>(
    alloc: Global,
    word: &str,
    source: &str,
    files: &mut F,
    out: &mut S,
) -> Status
    ensures written { CodeWritten word.now source.now (λ name. option_map (λ files. files name) (F.contents files.old)) (S.taken out.old) (S.taken out.new) result }
    ensures read_fault { Counts (is_read_fault result) (F.faults files.old) (F.faults files.new) }
    ensures write_fault { Counts (is_write_fault result) (S.faults out.old) (S.faults out.new) }
    ensures files { F.contents files.new ≡ F.contents files.old }
{
    match read_given(alloc, word, source, Allowed::AnyNatives, files) {
        Ok(given) => compile_text(alloc, &given.project, given.text.as_slice(), out),
        Err(status) => status,
    }
}

/// Writes the words of the text of a source.
fn compile_text<S: Sink>(alloc: Global, project: &Project, text: &[u8], out: &mut S) -> Status
    requires inside { InsideProject project.now }
    requires short { length text.now ≤ most_text }
    ensures wrote { Worked (project_view project.now) text.now (IsCodeOf (project_view project.now) text.now) (S.taken out.old) (S.taken out.new) result }
    ensures no_read { is_read_fault result ≡ false }
    ensures write_fault { Counts (is_write_fault result) (S.faults out.old) (S.faults out.new) }
{
    match program_of(alloc, project, text) {
        Ok(program) => status_of(put_code(alloc, program.image.words.as_slice(), out)),
        Err(status) => status,
    }
}
