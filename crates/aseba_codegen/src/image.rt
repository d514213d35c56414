ghost use Rattle.std.specs.Prelude.{◌≡◌, ◌+◌, ◌≤◌, ◌<◌, ◌++◌, map, IfErr, IfOk, OnOk};
ghost use Rattle.aseba_codegen.specs.CodeRuns.{AlwaysRunAsCore};
ghost use Rattle.aseba_codegen.specs.Generated.{IsImage, TellsNeed};
ghost use Rattle.aseba_codegen.specs.Words.{init_start, part_starts, handler_entries, table_of, bodies_code, on_line, core_code};
ghost use Rattle.aseba_tree.specs.CoreNumbers.{core_table_words, core_words};
ghost use Rattle.aseba_tree.specs.CoreShape.{IsCore};
ghost use Rattle.aseba_tree.specs.Inside.{InsideProject};
ghost use Rattle.aseba_tree.specs.View.{core_view, project_view};

use crate::code::{add_words, is_large_project};
use crate::coded::Coded;
use crate::error::GenError;
use crate::parts::{add_body, add_handlers, add_parts, add_subs, entries_of};
use crate::stack::own_depth;
use crate::starts::{len_of, own_words, starts_from, starts_of_kinds, subs_len};
use aseba_tree::{Core, Project};
use aseba_words::{List, Mem};
use std::alloc::Global;

/// The code of a core.
#[derive(Debug, Drop)]
pub struct Image {
    pub words: List<u16>,
    /// For each word the source line of the effect that is next from there, 0 in the event table.
    pub lines: List<u32>,
    /// The first cell of the temporaries.
    pub temp_start: u16,
}

/// How many words the event table takes.
fn table_len(core: &Core) -> u32
    requires { core_table_words (core_view core.now) ≤ 65535 }
    ensures { result ≡ core_table_words (core_view core.now) }
{
    let mut len = 3;
    for part in core.parts.as_slice() {
        if part.event.is_some() {
            len += 2;
        }
    }
    len
}

/// The address of the init code.
fn init_start_of(alloc: Global, core: &Core, project: &Project) -> Result<u32, Mem>
    requires { core_words (project_view project.now) (core_view core.now) ≤ 65535 }
    ensures { IfOk result (λ at. at ≡ init_start (project_view project.now) (core_view core.now)) }
{
    let table = table_len(core);
    if is_large_project(project) {
        Ok(table + subs_len(alloc, project, core.parts.as_slice())?)
    } else {
        Ok(table)
    }
}

/// The address of each part, by that of the init code.
fn part_starts_of(
    alloc: Global,
    core: &Core,
    project: &Project,
    init: u32,
) -> Result<List<u32>, Mem>
    requires small { core_words (project_view project.now) (core_view core.now) ≤ 65535 }
    requires init { init ≡ init_start (project_view project.now) (core_view core.now) }
    ensures { IfOk result (λ starts. starts ≡ part_starts (project_view project.now) (core_view core.now)) }
{
    let behind = init + len_of(alloc, project, &core.init)? + 1;
    if is_large_project(project) {
        starts_of_kinds(
            alloc,
            project,
            table_len(core),
            behind,
            core.parts.as_slice(),
        )
    } else {
        starts_from(alloc, project, behind, core.parts.as_slice())
    }
}

/// Adds the event table.
fn add_table(
    alloc: Global,
    code: &mut List<Coded>,
    core: &Core,
    init: u32,
    starts: &[u32],
) -> Result<(), Mem>
    ensures { OnOk result (code.new ≡ code.old ++ on_line 0 (table_of init (handler_entries starts.now 0 (core_view core.now).parts))) }
{
    let entries = entries_of(alloc, starts, core.parts.as_slice())?;
    let entries = entries.as_slice();
    let len = (3 + entries.len()) % 65536;
    add_words(code, 0, &[len as u16, 0xffff, (init % 65536) as u16])?;
    add_words(code, 0, entries)
}

/// Adds the init code and the parts.
fn add_all(
    alloc: Global,
    code: &mut List<Coded>,
    core: &Core,
    project: &Project,
    starts: &[u32],
) -> Result<(), Mem>
    ensures { OnOk result (code.new ≡ code.old ++ bodies_code (project_view project.now) starts.now (core_view core.now)) }
{
    let parts = core.parts.as_slice();
    if is_large_project(project) {
        add_subs(alloc, code, project, starts, parts)?;
        add_body(alloc, code, project, starts, false, 1, &core.init)?;
        add_handlers(alloc, code, project, starts, parts)
    } else {
        add_body(alloc, code, project, starts, false, 1, &core.init)?;
        add_parts(alloc, code, project, starts, parts)
    }
}

/// The code of a core.
fn code_of(alloc: Global, core: &Core, project: &Project) -> Result<List<Coded>, Mem>
    requires { core_words (project_view project.now) (core_view core.now) ≤ 65535 }
    ensures { IfOk result (λ code. code ≡ core_code (project_view project.now) (core_view core.now)) }
{
    let init = init_start_of(alloc, core, project)?;
    let starts = part_starts_of(alloc, core, project, init)?;
    let mut code = List::new(alloc);
    add_table(alloc, &mut code, core, init, starts.as_slice())?;
    add_all(alloc, &mut code, core, project, starts.as_slice())?;
    Ok(code)
}

/// The words alone.
fn words_of(alloc: Global, code: &[Coded]) -> Result<List<u16>, Mem>
    ensures { IfOk result (λ words. words ≡ map (λ coded. coded.word) code.now) }
{
    let mut words = List::new(alloc);
    for coded in code {
        words.add(coded.word)?;
    }
    Ok(words)
}

/// The line of each word.
fn lines_of(alloc: Global, code: &[Coded]) -> Result<List<u32>, Mem>
    ensures { IfOk result (λ lines. lines ≡ map (λ coded. coded.line) code.now) }
{
    let mut lines = List::new(alloc);
    for coded in code {
        lines.add(coded.line)?;
    }
    Ok(lines)
}

/// The code of a core for a project's node. It is refused only where its own words or stack cells
/// are more than the node has; the errors tell what the core needs by its numbers, which then are
/// more too. Whatever arrives, the words run as the core does.
pub fn generate(alloc: Global, core: &Core, project: &Project) -> Result<Image, GenError>
    requires inside { InsideProject project.now }
    requires core { IsCore (project_view project.now) (core_view core.now) }
    ensures image { IfOk result (λ image. IsImage (project_view project.now) (core_view core.now) image) }
    ensures runs { IfOk result (λ image. AlwaysRunAsCore (project_view project.now) (core_view core.now) image.words) }
    ensures full { IfErr result (λ error. TellsNeed (project_view project.now) (core_view core.now) error) }
{
    let have = u64::from(project.node.code);
    if core.size > have && own_words(alloc, project, core)? > have {
        return Err(GenError::CodeFull {
            need: core.size,
            have,
        });
    }
    let have = u64::from(project.node.stack);
    if core.depth > have && own_depth(alloc, core, have + 1)? > have {
        return Err(GenError::StackFull {
            need: core.depth,
            have,
        });
    }
    // Read so that the proof knows that it has the range of its type.
    let _id = project.id;
    let code = code_of(alloc, core, project)?;
    let words = words_of(alloc, code.as_slice())?;
    let lines = lines_of(alloc, code.as_slice())?;
    Ok(Image {
        words,
        lines,
        temp_start: core.cells as u16,
    })
}
