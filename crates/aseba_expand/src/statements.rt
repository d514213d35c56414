//! The statements of a source as statements in element form.
ghost use Rattle.std.specs.Prelude.{◌≡◌, ◌+◌, ◌≤◌, [], ◌∷◌, ◌++◌, map, IfOk, OnOk};
ghost use Rattle.aseba_tree.specs.Core.{core_stmt};
ghost use Rattle.aseba_tree.specs.CoreExpr.{infix_of, into};
ghost use Rattle.aseba_tree.specs.Elements.{element_of, target_index};
ghost use Rattle.aseba_tree.specs.Layout.{cells_of_variables};
ghost use Rattle.aseba_tree.specs.Numbers.{assigned_room, form_room, stmt_room, stmts_room};
ghost use Rattle.aseba_tree.specs.Step.{step_of};
ghost use Rattle.aseba_tree.specs.View.{core_expr_view, core_form_view, core_stmt_view, expr_view, head_view, stmt_form_view, stmt_view, stmts_view, target_view};
ghost use Rattle.aseba_expand.specs.Listed.{listed, listed_all, listed_form, listed_loop, listed_target, next_store, store_of};
ghost use Rattle.aseba_expand.specs.Plain.{for_first, for_test, start_of};
ghost use Rattle.aseba_expand.specs.Scope.{KnowsNames, program_of};

use crate::arguments::{add_call, add_emit};
use crate::constants::constant_of;
use crate::elements::{changed, element, elements, stepped};
use crate::scope::Scope;
use crate::stores::{add_assigned, add_store, store};
use aseba_tree::{CoreExpr, CoreForm, CoreStmt, CoreTarget, Expr, ForHead, Stmt, StmtForm, Target};
use aseba_words::{Binary, List, Mem};
use sqlite_items::Boxed;
use std::alloc::Global;

/// The core of statements.
#[cycle(statements)]
pub fn body(alloc: Global, scope: &Scope, stmts: &List<Stmt>) -> Result<List<CoreStmt>, Mem>
    requires names { KnowsNames scope.now }
    requires room { cells_of_variables (program_of scope.now) + stmts_room (program_of scope.now) (stmts_view stmts.now) ≤ 65535 }
    ensures { IfOk result (λ built. map core_stmt_view built ≡ listed_all (program_of scope.now) (stmts_view stmts.now)) }
{
    let mut built = List::new(alloc);
    for stmt in stmts.as_slice() {
        add_stmt(alloc, scope, stmt, &mut built)?;
    }
    Ok(built)
}

/// Adds the core of a statement.
#[cycle(statements)]
fn add_stmt(
    alloc: Global,
    scope: &Scope,
    stmt: &Stmt,
    built: &mut List<CoreStmt>,
) -> Result<(), Mem>
    requires names { KnowsNames scope.now }
    requires room { cells_of_variables (program_of scope.now) + stmt_room (program_of scope.now) (stmt_view stmt.now) ≤ 65535 }
    ensures { OnOk result (map core_stmt_view built.new ≡ map core_stmt_view built.old ++ listed (program_of scope.now) (stmt_view stmt.now)) }
{
    add_form(alloc, scope, stmt.line, &stmt.form, built)
}

#[cycle(statements)]
fn add_form(
    alloc: Global,
    scope: &Scope,
    line: u32,
    form: &StmtForm,
    built: &mut List<CoreStmt>,
) -> Result<(), Mem>
    requires names { KnowsNames scope.now }
    requires room { cells_of_variables (program_of scope.now) + form_room (program_of scope.now) (stmt_form_view form.now) ≤ 65535 }
    ensures { OnOk result (map core_stmt_view built.new ≡ map core_stmt_view built.old ++ listed_form (program_of scope.now) line (stmt_form_view form.now)) }
{
    match form {
        StmtForm::Set(target, value) => {
            let values = elements(alloc, scope, value.get())?;
            add_target(alloc, scope, line, target.get(), values, built)
        }
        StmtForm::Change(target, op, value) => {
            let values = changed(alloc, scope, target.get(), *op, value.get())?;
            add_target(alloc, scope, line, target.get(), values, built)
        }
        StmtForm::Step(target, op) => {
            let values = stepped(alloc, scope, target.get(), *op)?;
            add_target(alloc, scope, line, target.get(), values, built)
        }
        StmtForm::If(test, then, other) => {
            let test = boxed_element(alloc, scope, test.get())?;
            let then = body(alloc, scope, then)?;
            let other = body(alloc, scope, other)?;
            add_core(line, CoreForm::If(test, then, other), built)
        }
        StmtForm::When(test, then) => {
            let test = boxed_element(alloc, scope, test.get())?;
            let then = body(alloc, scope, then)?;
            add_core(line, CoreForm::When(test, then), built)
        }
        StmtForm::While(test, then) => {
            let test = boxed_element(alloc, scope, test.get())?;
            let then = body(alloc, scope, then)?;
            add_core(line, CoreForm::While(test, then), built)
        }
        StmtForm::For(head, then) => {
            let then = body(alloc, scope, then)?;
            add_loop(alloc, scope, line, head.get(), then, built)
        }
        StmtForm::Emit(name, argument) => add_emit(alloc, scope, line, name, argument, built),
        StmtForm::CallSub(name) => add_core(line, CoreForm::CallSub(scope.sub(name)), built),
        StmtForm::Call(name, arguments) => add_call(alloc, scope, line, name, arguments, built),
        StmtForm::Return => add_core(line, CoreForm::Return, built),
    }
}

/// Adds a statement.
fn add_core(line: u32, form: CoreForm, built: &mut List<CoreStmt>) -> Result<(), Mem>
    ensures { OnOk result (map core_stmt_view built.new ≡ map core_stmt_view built.old ++ core_stmt line (core_form_view form) ∷ []) }
{
    built.add(CoreStmt { line, form })
}

/// Adds the stores of elements into what a target names.
fn add_target(
    alloc: Global,
    scope: &Scope,
    line: u32,
    target: &Target,
    elements: List<CoreExpr>,
    built: &mut List<CoreStmt>,
) -> Result<(), Mem>
    requires names { KnowsNames scope.now }
    requires room { cells_of_variables (program_of scope.now) + assigned_room (target_index (program_of scope.now) (target_view target.now).part) (map core_expr_view elements) ≤ 65535 }
    ensures { OnOk result (map core_stmt_view built.new ≡ map core_stmt_view built.old ++ listed_target (program_of scope.now) line (target_view target.now) (map core_expr_view elements)) }
{
    add_assigned(
        alloc,
        scope,
        line,
        &target.name,
        &target.part,
        elements,
        built,
    )
}

/// The element of a condition, in a box of its own.
fn boxed_element(alloc: Global, scope: &Scope, test: &Expr) -> Result<Boxed<CoreExpr>, Mem>
    requires { KnowsNames scope.now }
    ensures { IfOk result (λ e. core_expr_view e ≡ element_of (program_of scope.now) (expr_view test.now)) }
{
    Ok(Boxed::new(alloc, element(alloc, scope, test)?)?)
}

// Loops with a variable

/// Adds the loop with a variable over the core of its body.
fn add_loop(
    alloc: Global,
    scope: &Scope,
    line: u32,
    head: &ForHead,
    then: List<CoreStmt>,
    built: &mut List<CoreStmt>,
) -> Result<(), Mem>
    requires { KnowsNames scope.now }
    ensures { OnOk result (map core_stmt_view built.new ≡ map core_stmt_view built.old ++ listed_loop (program_of scope.now) line (head_view head.now) (map core_stmt_view then)) }
{
    add_first(alloc, scope, line, head, built)?;
    let mut then = then;
    then.add(next_store(alloc, scope, line, head)?)?;
    let test = Boxed::new(alloc, for_test(alloc, scope, head)?)?;
    add_core(line, CoreForm::While(test, then), built)
}

/// Adds the store of the first bound.
fn add_first(
    alloc: Global,
    scope: &Scope,
    line: u32,
    head: &ForHead,
    built: &mut List<CoreStmt>,
) -> Result<(), Mem>
    requires { KnowsNames scope.now }
    ensures { OnOk result (map core_stmt_view built.new ≡ map core_stmt_view built.old ++ store_of line (into (start_of (program_of scope.now) (head_view head.now).name)) (for_first (program_of scope.now) (head_view head.now)) ∷ []) }
{
    let target = CoreTarget::Cell(scope.known_place(&head.name).start);
    let first = CoreExpr::Number(constant_of(scope, &head.first));
    add_store(alloc, line, target, first, built)
}

/// The number by which the variable grows with each turn.
fn step_of(scope: &Scope, head: &ForHead) -> i16
    requires { KnowsNames scope.now }
    ensures { result ≡ step_of (program_of scope.now).project.consts (head_view head.now).step }
{
    match &head.step {
        Some(step) => constant_of(scope, step),
        None => 1,
    }
}

/// Whether the variable has not passed its last bound.
fn for_test(alloc: Global, scope: &Scope, head: &ForHead) -> Result<CoreExpr, Mem>
    requires { KnowsNames scope.now }
    ensures { IfOk result (λ e. core_expr_view e ≡ for_test (program_of scope.now) (head_view head.now)) }
{
    let op = if step_of(scope, head) < 0 {
        Binary::AtLeast
    } else {
        Binary::AtMost
    };
    let variable = CoreExpr::Cell(scope.known_place(&head.name).start);
    let last = CoreExpr::Number(constant_of(scope, &head.last));
    two(alloc, op, variable, last)
}

/// The store of the variable's next value.
fn next_store(alloc: Global, scope: &Scope, line: u32, head: &ForHead) -> Result<CoreStmt, Mem>
    requires { KnowsNames scope.now }
    ensures { IfOk result (λ s. core_stmt_view s ≡ next_store (program_of scope.now) line (head_view head.now)) }
{
    let address = scope.known_place(&head.name).start;
    let step = CoreExpr::Number(step_of(scope, head));
    let value = two(alloc, Binary::Add, CoreExpr::Cell(address), step)?;
    store(alloc, line, CoreTarget::Cell(address), value)
}

fn two(alloc: Global, op: Binary, left: CoreExpr, right: CoreExpr) -> Result<CoreExpr, Mem>
    ensures { IfOk result (λ e. core_expr_view e ≡ infix_of op (core_expr_view left) (core_expr_view right)) }
{
    let left = Boxed::new(alloc, left)?;
    Ok(CoreExpr::Two(op, left, Boxed::new(alloc, right)?))
}
