//! The calls of subroutines by subroutines.
ghost use Rattle.std.specs.Prelude.{◌≡◌, [], ◌∷◌, ◌++◌, map, IfOk, OnOk};
ghost use Rattle.aseba_tree.specs.View.{place_view, handler_view, stmt_view, stmt_form_view, stmts_view};
ghost use Rattle.aseba_tree.specs.Faults as tree;
ghost use Rattle.aseba_check.specs.Cycles.{call_view};

use aseba_tree::{Handler, Pos, Stmt, StmtForm};
use aseba_words::{List, Mem, Name};
use std::alloc::Global;

/// A `callsub` in a subroutine.
#[derive(Clone, Copy, Debug)]
pub struct SubCall<'a> {
    pub caller: &'a Name,
    pub called: &'a Name,
    /// The place of the name that is called.
    pub at: Pos,
}

/// The calls from subroutines in the order of the text.
pub fn sub_calls(alloc: Global, parts: &[Handler]) -> Result<List<SubCall<'_>>, Mem>
    ensures { IfOk result (λ calls. map call_view calls ≡ tree.sub_calls (map handler_view parts.now)) }
{
    let mut calls = List::new(alloc);
    for part in parts {
        add_part(&mut calls, part)?;
    }
    Ok(calls)
}

/// Adds the calls of a part, where it is a subroutine.
fn add_part<'a>(calls: &mut List<SubCall<'a>>, part: &'a Handler) -> Result<(), Mem>
    ensures { OnOk result (map call_view calls.new ≡ map call_view calls.old ++ tree.sub_calls (handler_view part.now ∷ [])) }
{
    if part.is_sub {
        add_calls(calls, &part.name, &part.body)
    } else {
        Ok(())
    }
}

/// Adds the calls of statements of a subroutine.
#[cycle(walk_calls)]
fn add_calls<'a>(
    calls: &mut List<SubCall<'a>>,
    caller: &'a Name,
    body: &'a List<Stmt>,
) -> Result<(), Mem>
    ensures { OnOk result (map call_view calls.new ≡ map call_view calls.old ++ tree.stmts_calls caller.now (stmts_view body.now)) }
{
    for stmt in body.as_slice() {
        add_stmt(calls, caller, stmt)?;
    }
    Ok(())
}

#[cycle(walk_calls)]
fn add_stmt<'a>(calls: &mut List<SubCall<'a>>, caller: &'a Name, stmt: &'a Stmt) -> Result<(), Mem>
    ensures { OnOk result (map call_view calls.new ≡ map call_view calls.old ++ tree.stmt_calls caller.now (stmt_view stmt.now)) }
{
    add_form(calls, caller, stmt.at, &stmt.form)
}

#[cycle(walk_calls)]
fn add_form<'a>(
    calls: &mut List<SubCall<'a>>,
    caller: &'a Name,
    at: Pos,
    form: &'a StmtForm,
) -> Result<(), Mem>
    ensures { OnOk result (map call_view calls.new ≡ map call_view calls.old ++ tree.form_calls caller.now (place_view at) (stmt_form_view form.now)) }
{
    match form {
        StmtForm::If(_, then, other) => {
            add_calls(calls, caller, then)?;
            add_calls(calls, caller, other)
        }
        StmtForm::When(_, body) => add_calls(calls, caller, body),
        StmtForm::While(_, body) => add_calls(calls, caller, body),
        StmtForm::For(_, body) => add_calls(calls, caller, body),
        StmtForm::CallSub(called) => add(calls, SubCall { caller, called, at }),
        StmtForm::Set(_, _)
        | StmtForm::Change(_, _, _)
        | StmtForm::Step(_, _)
        | StmtForm::Emit(_, _)
        | StmtForm::Call(_, _)
        | StmtForm::Return => Ok(()),
    }
}

/// Adds a call at the end.
fn add<'a>(calls: &mut List<SubCall<'a>>, call: SubCall<'a>) -> Result<(), Mem>
    ensures { OnOk result (map call_view calls.new ≡ map call_view calls.old ++ call_view call.entry ∷ []) }
{
    calls.add(call)
}
