ghost use Rattle.std.specs.Prelude.{◌≡◌, ◌+◌, ◌≤◌, map, filter, sum_by, ◌++◌, IfOk, OnOk};
ghost use Rattle.aseba_codegen.specs.Words.{is_sub, starts_apart};
ghost use Rattle.aseba_tree.specs.CoreNumbers.{core_list_words, core_part_words, core_starts_from, core_words};
ghost use Rattle.aseba_tree.specs.View.{core_stmts_view, core_part_view, core_view, project_view};

use crate::statements::list_of;
use aseba_tree::{Core, CorePart, CoreStmt, Project};
use aseba_words::{List, Mem};
use std::alloc::Global;

/// How many words statements take, whatever they are.
#[tactic(auto, using(crate::proofs::Lengths::lengths))]
fn words_in(alloc: Global, project: &Project, body: &List<CoreStmt>) -> Result<u64, Mem>
    ensures { IfOk result (λ n. n ≡ core_list_words (project_view project.now) (core_stmts_view body.now)) }
{
    let code = list_of(alloc, project, &[], false, body)?;
    Ok(code.as_slice().len() as u64)
}

/// How many words statements take.
pub fn len_of(alloc: Global, project: &Project, body: &List<CoreStmt>) -> Result<u32, Mem>
    requires { core_list_words (project_view project.now) (core_stmts_view body.now) ≤ 65535 }
    ensures { IfOk result (λ n. n ≡ core_list_words (project_view project.now) (core_stmts_view body.now)) }
{
    Ok(words_in(alloc, project, body)? as u32)
}

/// How many words a core's own code takes.
pub fn own_words(alloc: Global, project: &Project, core: &Core) -> Result<u64, Mem>
    requires { core_words (project_view project.now) (core_view core.now) ≤ 18446744073709551615 }
    ensures { IfOk result (λ n. n ≡ core_words (project_view project.now) (core_view core.now)) }
{
    let mut words = words_in(alloc, project, &core.init)? + 4;
    for part in core.parts.as_slice() {
        if part.event.is_some() {
            words += 2;
        }
        words += words_in(alloc, project, &part.body)? + 1;
    }
    Ok(words)
}

/// How many words a part takes with its last one.
fn part_len(alloc: Global, project: &Project, part: &CorePart) -> Result<u32, Mem>
    requires { core_part_words (project_view project.now) (core_part_view part.now) ≤ 65535 }
    ensures { IfOk result (λ n. n ≡ core_part_words (project_view project.now) (core_part_view part.now)) }
{
    Ok(len_of(alloc, project, &part.body)? + 1)
}

/// The addresses of parts that follow each other.
pub fn starts_from(
    alloc: Global,
    project: &Project,
    first: u32,
    parts: &[CorePart],
) -> Result<List<u32>, Mem>
    requires { first + sum_by (core_part_words (project_view project.now)) (map core_part_view parts.now) ≤ 65535 }
    ensures { IfOk result (λ starts. starts ≡ core_starts_from (project_view project.now) first (map core_part_view parts.now)) }
{
    let mut starts = List::new(alloc);
    let mut at = first;
    for part in parts {
        starts.add(at)?;
        at += part_len(alloc, project, part)?;
    }
    Ok(starts)
}

/// The addresses of parts of which the subroutines follow each other, and the handlers.
pub fn starts_of_kinds(
    alloc: Global,
    project: &Project,
    first_sub: u32,
    first_handler: u32,
    parts: &[CorePart],
) -> Result<List<u32>, Mem>
    requires sum { first_sub + first_handler + sum_by (core_part_words (project_view project.now)) (map core_part_view parts.now) ≤ 131070 }
    requires each { sum_by (core_part_words (project_view project.now)) (map core_part_view parts.now) ≤ 65535 }
    ensures { IfOk result (λ starts. starts ≡ starts_apart (project_view project.now) first_sub first_handler (map core_part_view parts.now)) }
{
    let mut starts = List::new(alloc);
    let mut sub = first_sub;
    let mut handler = first_handler;
    for part in parts {
        let len = part_len(alloc, project, part)?;
        if part.event.is_some() {
            starts.add(handler)?;
            handler += len;
        } else {
            starts.add(sub)?;
            sub += len;
        }
    }
    Ok(starts)
}

/// How many words the subroutines take.
pub fn subs_len(alloc: Global, project: &Project, parts: &[CorePart]) -> Result<u32, Mem>
    requires { sum_by (core_part_words (project_view project.now)) (map core_part_view parts.now) ≤ 65535 }
    ensures { IfOk result (λ n. n ≡ sum_by (core_part_words (project_view project.now)) (filter is_sub (map core_part_view parts.now))) }
{
    let mut len = 0;
    for part in parts {
        if part.event.is_none() {
            len += part_len(alloc, project, part)?;
        }
    }
    Ok(len)
}
