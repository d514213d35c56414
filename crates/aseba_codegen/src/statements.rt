ghost use Rattle.std.specs.Prelude.{◌≡◌, not, slice_index, ◌++◌, IfOk, OnOk};
ghost use Rattle.aseba_codegen.specs.Words.{on_line, last_word, site_of, stmt_code, form_code, list_code};
ghost use Rattle.aseba_tree.specs.CoreShape.{is_last};
ghost use Rattle.aseba_tree.specs.View.{core_form_view, core_stmt_view, core_stmts_view, project_view};

use crate::code::{add_if, add_loop, add_stored, add_when, add_words};
use crate::coded::Coded;
use crate::words::add_call;
use aseba_tree::{CoreForm, CoreStmt, Project};
use aseba_vm::instruction;
use aseba_words::{List, Mem};
use std::alloc::Global;

/// The word that ends a subroutine, or the init code or a handler.
pub fn end_word(in_sub: bool) -> u16
    ensures { result ≡ last_word in_sub }
{
    if in_sub {
        instruction::sub_return()
    } else {
        instruction::end()
    }
}

/// Whether there are statements.
fn has_any(body: &List<CoreStmt>) -> bool
    ensures { result ≡ not (is_last (core_stmts_view body.now)) }
{
    match body.as_slice() {
        [] => false,
        _ => true,
    }
}

/// The address of a part.
pub fn start_of(starts: &[u32], which: u32) -> u32
    ensures { result ≡ slice_index starts.now which }
{
    match starts.get(which as usize) {
        Some(start) => *start,
        None => 0,
    }
}

/// Adds the code of a statement in a part of the project. The parts begin at these addresses.
#[cycle(statements)]
fn add_stmt(
    alloc: Global,
    project: &Project,
    starts: &[u32],
    in_sub: bool,
    stmt: &CoreStmt,
    code: &mut List<Coded>,
) -> Result<(), Mem>
    ensures { OnOk result (code.new ≡ code.old ++ stmt_code (site_of (project_view project.now) starts.now in_sub) (core_stmt_view stmt.now)) }
{
    add_form(alloc, project, starts, in_sub, stmt.line, &stmt.form, code)
}

/// Adds the code of what a statement of a line is made of.
#[cycle(statements)]
fn add_form(
    alloc: Global,
    project: &Project,
    starts: &[u32],
    in_sub: bool,
    line: u32,
    form: &CoreForm,
    code: &mut List<Coded>,
) -> Result<(), Mem>
    ensures { OnOk result (code.new ≡ code.old ++ form_code (site_of (project_view project.now) starts.now in_sub) line (core_form_view form.now)) }
{
    match form {
        CoreForm::Store(target, value) => add_stored(alloc, code, line, target.get(), value.get()),
        CoreForm::If(test, body, other) => {
            let then = list_of(alloc, project, starts, in_sub, body)?;
            let rest = list_of(alloc, project, starts, in_sub, other)?;
            add_if(
                alloc,
                code,
                project,
                line,
                test.get(),
                then.as_slice(),
                has_any(other),
                rest.as_slice(),
            )
        }
        CoreForm::When(test, body) => {
            let then = list_of(alloc, project, starts, in_sub, body)?;
            add_when(alloc, code, line, test.get(), then.as_slice())
        }
        CoreForm::While(test, body) => {
            let then = list_of(alloc, project, starts, in_sub, body)?;
            add_loop(alloc, code, project, line, test.get(), then.as_slice())
        }
        CoreForm::Emit(event, start, length) => {
            add_words(code, line, &[instruction::emit(*event), *start, *length])
        }
        CoreForm::CallSub(which) => {
            add_words(
                code,
                line,
                &[instruction::sub_call((start_of(starts, *which) % 4096) as u16)],
            )
        }
        CoreForm::Call(native, values) => {
            let mut words = List::new(alloc);
            add_call(&mut words, project, *native, values.as_slice())?;
            add_words(code, line, words.as_slice())
        }
        CoreForm::Return => add_words(code, line, &[end_word(in_sub)]),
    }
}

/// The code of statements.
#[cycle(statements)]
pub fn list_of(
    alloc: Global,
    project: &Project,
    starts: &[u32],
    in_sub: bool,
    body: &List<CoreStmt>,
) -> Result<List<Coded>, Mem>
    ensures { IfOk result (λ code. code ≡ list_code (site_of (project_view project.now) starts.now in_sub) (core_stmts_view body.now)) }
{
    let mut code = List::new(alloc);
    for stmt in body.as_slice() {
        add_stmt(alloc, project, starts, in_sub, stmt, &mut code)?;
    }
    Ok(code)
}
