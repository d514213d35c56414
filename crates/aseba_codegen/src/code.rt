ghost use Rattle.std.specs.Prelude.{◌≡◌, ◌+◌, ◌-◌, ◌*◌, ◌<◌, ◌≤◌, ℤ, pos, neg_ℤ, negsuc, length, true, false, [], ◌∷◌, ◌++◌, IfOk, OnOk};
ghost use Rattle.aseba_codegen.specs.Words.{condition_code, store_code, on_line, far_jump, jump_code, test_code, if_code, when_code, loop_code};
ghost use Rattle.aseba_tree.specs.Numbers.{is_large, jump_words};
ghost use Rattle.aseba_tree.specs.View.{core_expr_view, core_target_view, project_view};

use crate::coded::Coded;
use crate::words::{add_condition, add_store};
use aseba_tree::{CoreExpr, CoreTarget, Project};
use aseba_vm::instruction;
use aseba_words::{Binary, List, Mem};
use std::alloc::Global;

/// Adds words of one line.
pub fn add_words(code: &mut List<Coded>, line: u32, words: &[u16]) -> Result<(), Mem>
    ensures { OnOk result (code.new ≡ code.old ++ on_line line words.now) }
{
    for word in words {
        let coded = Coded {
            word: *word,
            line,
            is_edge: false,
        };
        code.add(coded)?;
    }
    Ok(())
}

/// Adds code behind code.
pub fn add_code(code: &mut List<Coded>, more: &[Coded]) -> Result<(), Mem>
    ensures { OnOk result (code.new ≡ code.old ++ more.now) }
{
    for coded in more {
        code.add(*coded)?;
    }
    Ok(())
}

/// Whether a project's jumps take four words.
pub fn is_large_project(project: &Project) -> bool
    ensures { result ≡ is_large (project_view project.now) }
{
    project.node.code > 2048
}

/// How many words a jump takes.
fn jump_len(project: &Project) -> usize
    ensures { result ≡ jump_words (project_view project.now) }
{
    if is_large_project(project) { 4 } else { 1 }
}

/// Adds a jump to so many words behind its first.
#[tactic(auto, using(crate::proofs::Jumps::jumps))]
fn add_jump(code: &mut List<Coded>, project: &Project, line: u32, by: usize) -> Result<(), Mem>
    requires { jump_words (project_view project.now) ≤ by }
    ensures { OnOk result (code.new ≡ code.old ++ on_line line (jump_code (project_view project.now) (pos by))) }
{
    if is_large_project(project) {
        add_far(code, line, ((by - 2) % 65536) as u16)
    } else {
        add_words(code, line, &[instruction::jump((by % 4096) as u16)])
    }
}

/// Adds a jump to so many words before its first.
#[tactic(auto, using(crate::proofs::Jumps::jumps))]
fn add_jump_back(code: &mut List<Coded>, project: &Project, line: u32, by: usize) -> Result<(), Mem>
    requires { 1 ≤ by }
    ensures { OnOk result (code.new ≡ code.old ++ on_line line (jump_code (project_view project.now) (neg_ℤ (pos by)))) }
{
    if is_large_project(project) {
        add_far(code, line, 65534_usize.saturating_sub(by) as u16)
    } else {
        add_words(
            code,
            line,
            &[instruction::jump(4096_usize.saturating_sub(by) as u16)],
        )
    }
}

/// Adds a branch on 0 != 0, which always goes by its displacement.
fn add_far(code: &mut List<Coded>, line: u32, displacement: u16) -> Result<(), Mem>
    ensures { OnOk result (code.new ≡ code.old ++ on_line line (far_jump displacement)) }
{
    let words = [
        instruction::small_number(0),
        instruction::small_number(0),
        instruction::branch(Binary::Differ, false),
        displacement,
    ];
    add_words(code, line, &words)
}

/// Adds a condition with its branch, which goes so many words on where it isn't true.
fn add_test(
    code: &mut List<Coded>,
    line: u32,
    is_edge: bool,
    words: &[u16],
    operator: Binary,
    otherwise: usize,
) -> Result<(), Mem>
    ensures { OnOk result (code.new ≡ code.old ++ test_code line is_edge (record { words = words.now; operator = operator }) otherwise) }
{
    add_words(code, line, words)?;
    let branch = Coded {
        word: instruction::branch(operator, is_edge),
        line,
        is_edge,
    };
    code.add(branch)?;
    add_words(code, line, &[(otherwise % 65536) as u16])
}

/// Adds an `if` with the code of its body and, where it has one, of its else.
pub fn add_if(
    alloc: Global,
    code: &mut List<Coded>,
    project: &Project,
    line: u32,
    test: &CoreExpr,
    body: &[Coded],
    has_else: bool,
    other: &[Coded],
) -> Result<(), Mem>
    ensures { OnOk result (code.new ≡ code.old ++ if_code (project_view project.now) line (condition_code (core_expr_view test.now)) body.now has_else other.now) }
{
    let mut words = List::new(alloc);
    let operator = add_condition(&mut words, test)?;
    if has_else {
        let jump = jump_len(project);
        add_test(
            code,
            line,
            false,
            words.as_slice(),
            operator,
            2 + body.len() + jump,
        )?;
        add_code(code, body)?;
        add_jump(code, project, line, jump + other.len())?;
        add_code(code, other)
    } else {
        add_test(
            code,
            line,
            false,
            words.as_slice(),
            operator,
            2 + body.len(),
        )?;
        add_code(code, body)
    }
}

/// Adds a `when` with the code of its body.
pub fn add_when(
    alloc: Global,
    code: &mut List<Coded>,
    line: u32,
    test: &CoreExpr,
    body: &[Coded],
) -> Result<(), Mem>
    ensures { OnOk result (code.new ≡ code.old ++ when_code line (condition_code (core_expr_view test.now)) body.now) }
{
    let mut words = List::new(alloc);
    let operator = add_condition(&mut words, test)?;
    add_test(code, line, true, words.as_slice(), operator, 2 + body.len())?;
    add_code(code, body)
}

/// Adds a loop with the code of its body.
pub fn add_loop(
    alloc: Global,
    code: &mut List<Coded>,
    project: &Project,
    line: u32,
    test: &CoreExpr,
    body: &[Coded],
) -> Result<(), Mem>
    ensures { OnOk result (code.new ≡ code.old ++ loop_code (project_view project.now) line (condition_code (core_expr_view test.now)) body.now) }
{
    let mut words = List::new(alloc);
    let operator = add_condition(&mut words, test)?;
    add_test(
        code,
        line,
        false,
        words.as_slice(),
        operator,
        2 + body.len() + jump_len(project),
    )?;
    add_code(code, body)?;
    add_jump_back(code, project, line, words.as_slice().len() + 2 + body.len())
}

/// Adds a store.
pub fn add_stored(
    alloc: Global,
    code: &mut List<Coded>,
    line: u32,
    target: &CoreTarget,
    value: &CoreExpr,
) -> Result<(), Mem>
    ensures { OnOk result (code.new ≡ code.old ++ on_line line (store_code (core_target_view target.now) (core_expr_view value.now))) }
{
    let mut words = List::new(alloc);
    add_store(&mut words, target, value)?;
    add_words(code, line, words.as_slice())
}
