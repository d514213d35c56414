ghost use Rattle.std.specs.Prelude.{◌<◌, All, length, IfOk, IfErr};
ghost use Rattle.aseba_tree.specs.Inside.{InsideProject};
ghost use Rattle.aseba_tree.specs.Shape.{IsTree};
ghost use Rattle.aseba_tree.specs.View.{project_view, source_view};
ghost use Rattle.aseba_check.specs.Accepted.{IsChecked};
ghost use Rattle.aseba_check.specs.CountedNumbers.{AreNumbers};
ghost use Rattle.aseba_check.specs.Refused.{program_in};
ghost use Rattle.aseba_compile.specs.Answered.{IsCodeFor, IsCompiled, IsProgram, IsRefused};
ghost use Rattle.aseba_compile.specs.Refused.{IsTreeRefused};

use crate::program::Program;
use crate::reading::read;
use crate::refusal::Refusal;
use aseba_check::{Checked, Numbers, check, numbers};
use aseba_codegen::{GenError, Image, generate};
use aseba_expand::expand_counted;
use aseba_tree::{Project, Source};
use std::alloc::Global;

/// Compiles the text of a source for the node of a project. The words run as the source means, on
/// each machine of the node that was reset over code which begins with them and for each script of
/// good events and writes, up to the call of a native that the node's machine doesn't know. The
/// refusal is that of the first pass that refuses: where the text is no program, which rule it
/// breaks, or what it needs and the node doesn't have. Code that is more than eight times too long
/// is refused before anything is made of the tree.
pub fn compile(alloc: Global, text: &[u8], project: &Project) -> Result<Program, Refusal>
    requires inside { InsideProject project.now }
    requires short { length text.now < 4294967295 }
    ensures program { IfOk result (IsCompiled (project_view project.now) text.now) }
    ensures refusal { IfErr result (IsRefused (project_view project.now) text.now) }
{
    let source = read(alloc, project, text)?;
    compile_tree(alloc, project, source)
}

/// Compiles a tree.
fn compile_tree(alloc: Global, project: &Project, source: Source) -> Result<Program, Refusal>
    requires inside { InsideProject project.now }
    requires is_tree { IsTree (source_view source) }
    ensures program { IfOk result (IsProgram (program_in project.now source)) }
    ensures refusal { IfErr result (IsTreeRefused (program_in project.now source)) }
{
    let checked = check(alloc, source, project)?;
    compile_checked(alloc, project, checked)
}

/// Compiles a checked source.
fn compile_checked(alloc: Global, project: &Project, checked: Checked) -> Result<Program, Refusal>
    requires checked { IsChecked project.now checked }
    ensures program { IfOk result (IsProgram (program_in project.now checked.source)) }
    ensures refusal { IfErr result (IsTreeRefused (program_in project.now checked.source)) }
{
    let numbers = numbers(alloc, &checked, project)?;
    let image = image_of(alloc, project, &checked, numbers)?;
    are_words(image.words.as_slice());
    let Checked { places, .. } = checked;
    Ok(Program { image, places })
}

/// The code of a checked source that has these numbers.
fn image_of(
    alloc: Global,
    project: &Project,
    checked: &Checked,
    numbers: Numbers,
) -> Result<Image, Refusal>
    requires checked { IsChecked project.now checked.now }
    requires numbers { AreNumbers (program_in project.now checked.now.source) numbers }
    ensures image { IfOk result (IsCodeFor (program_in project.now checked.now.source)) }
    ensures refusal { IfErr result (IsTreeRefused (program_in project.now checked.now.source)) }
{
    let have = u64::from(project.node.code);
    if numbers.size > 8 * have {
        return Err(Refusal::Gen(GenError::CodeFull {
            need: numbers.size,
            have,
        }));
    }
    // Read so that the proof knows that it has the range of its type.
    let _id = project.id;
    let core = expand_counted(alloc, checked, project, numbers)?;
    let image = generate(alloc, &core, project)?;
    Ok(image)
}

/// Reads words so that the proof knows that each has the range of its type.
fn are_words(words: &[u16])
    ensures { All (λ word. word < 65536) words.now }
{
    let _words = words;
}
