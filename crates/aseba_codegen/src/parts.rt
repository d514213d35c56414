ghost use Rattle.std.specs.Prelude.{◌≡◌, ◌+◌, ◌≤◌, true, false, map, filter, sum_by, ◌++◌, IfOk, OnOk};
ghost use Rattle.aseba_codegen.specs.Words.{body_code, site_of, part_code, parts_code, is_sub, starts_apart, handler_entries};
ghost use Rattle.aseba_tree.specs.CoreNumbers.{is_handler, core_part_words, core_starts_from};
ghost use Rattle.aseba_tree.specs.View.{core_stmts_view, core_part_view, project_view};

use crate::code::{add_code, add_words};
use crate::coded::Coded;
use crate::statements::{end_word, list_of};
use aseba_tree::{CorePart, CoreStmt, Project};
use aseba_words::{List, Mem};
use std::alloc::Global;

/// Adds statements and the last word, which has a line of its own.
pub fn add_body(
    alloc: Global,
    code: &mut List<Coded>,
    project: &Project,
    starts: &[u32],
    in_sub: bool,
    line: u32,
    body: &List<CoreStmt>,
) -> Result<(), Mem>
    ensures { OnOk result (code.new ≡ code.old ++ body_code (site_of (project_view project.now) starts.now in_sub) line (core_stmts_view body.now)) }
{
    let statements = list_of(alloc, project, starts, in_sub, body)?;
    add_code(code, statements.as_slice())?;
    add_words(code, line, &[end_word(in_sub)])
}

/// Adds a part.
fn add_part(
    alloc: Global,
    code: &mut List<Coded>,
    project: &Project,
    starts: &[u32],
    part: &CorePart,
) -> Result<(), Mem>
    ensures { OnOk result (code.new ≡ code.old ++ part_code (project_view project.now) starts.now (core_part_view part.now)) }
{
    let in_sub = part.event.is_none();
    add_body(alloc, code, project, starts, in_sub, part.line, &part.body)
}

/// Adds all parts.
pub fn add_parts(
    alloc: Global,
    code: &mut List<Coded>,
    project: &Project,
    starts: &[u32],
    parts: &[CorePart],
) -> Result<(), Mem>
    ensures { OnOk result (code.new ≡ code.old ++ parts_code (project_view project.now) starts.now (map core_part_view parts.now)) }
{
    for part in parts {
        add_part(alloc, code, project, starts, part)?;
    }
    Ok(())
}

/// Adds the subroutines.
pub fn add_subs(
    alloc: Global,
    code: &mut List<Coded>,
    project: &Project,
    starts: &[u32],
    parts: &[CorePart],
) -> Result<(), Mem>
    ensures { OnOk result (code.new ≡ code.old ++ parts_code (project_view project.now) starts.now (filter is_sub (map core_part_view parts.now))) }
{
    for part in parts {
        if part.event.is_none() {
            add_part(alloc, code, project, starts, part)?;
        }
    }
    Ok(())
}

/// Adds the handlers.
pub fn add_handlers(
    alloc: Global,
    code: &mut List<Coded>,
    project: &Project,
    starts: &[u32],
    parts: &[CorePart],
) -> Result<(), Mem>
    ensures { OnOk result (code.new ≡ code.old ++ parts_code (project_view project.now) starts.now (filter is_handler (map core_part_view parts.now))) }
{
    for part in parts {
        if part.event.is_some() {
            add_part(alloc, code, project, starts, part)?;
        }
    }
    Ok(())
}

/// The entries of the event table.
pub fn entries_of(alloc: Global, starts: &[u32], parts: &[CorePart]) -> Result<List<u16>, Mem>
    ensures { IfOk result (λ entries. entries ≡ handler_entries starts.now 0 (map core_part_view parts.now)) }
{
    let mut entries = List::new(alloc);
    for (which, part) in parts.iter().enumerate() {
        if let Some(event) = part.event {
            let start = match starts.get(which) {
                Some(start) => *start,
                None => 0,
            };
            entries.add(event)?;
            entries.add((start % 65536) as u16)?;
        }
    }
    Ok(entries)
}
