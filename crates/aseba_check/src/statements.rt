//! The walk over statements. Each hands on the least of the faults so far.
ghost use Rattle.std.specs.Prelude.{◌≡◌, option_map, IfOk, OnOk};
ghost use Rattle.aseba_tree.specs.View.{expr_view, part_view, target_view, head_view, stmt_view, stmt_form_view, stmts_view};
ghost use Rattle.aseba_tree.specs.Each.{EachOption, EachPart, EachHead, EachStmt, EachForm, EachStmts};
ghost use Rattle.aseba_check.specs.Fits.{Fits};
ghost use Rattle.aseba_check.specs.Looked.{looked};
ghost use Rattle.aseba_check.specs.Statements as told;

use crate::calls::call_fault;
use crate::expressions::{boxed_facts, facts_of};
use crate::facts::{
    Facts, Meaning, bad_size, constant_place, event_size, index_facts, not_one_cell, range_facts,
    target_facts, unknown_variable, variable_size,
};
use crate::fault::{Fault, Rule, fault_if, least};
use crate::sizes::{is_more_than_one, is_zero};
use crate::table::Table;
use crate::world::World;
use aseba_tree::{Expr, ForHead, Part, Pos, Stmt, StmtForm, Target};
use aseba_words::{List, Mem, Name};
use sqlite_items::Boxed;
use std::alloc::Global;

/// The least fault of statements and those before them.
#[cycle(walk_stmt)]
pub fn body_fault(
    alloc: Global,
    world: &World,
    body: &List<Stmt>,
    before: Option<Fault>,
) -> Result<Option<Fault>, Mem>
    ensures told { IfOk result (λ fault. fault ≡ told.stmts_told (told.known_of world.now) before (stmts_view body.now)) }
    ensures fits { OnOk result (EachStmts Fits (stmts_view body.now)) }
{
    let mut fault = before;
    for stmt in body.as_slice() {
        fault = stmt_fault(alloc, world, stmt, fault)?;
    }
    Ok(fault)
}

#[cycle(walk_stmt)]
fn stmt_fault(
    alloc: Global,
    world: &World,
    stmt: &Stmt,
    before: Option<Fault>,
) -> Result<Option<Fault>, Mem>
    ensures told { IfOk result (λ fault. fault ≡ told.stmt_told (told.known_of world.now) before (stmt_view stmt.now)) }
    ensures fits { OnOk result (EachStmt Fits (stmt_view stmt.now)) }
{
    form_fault(alloc, world, stmt.at, &stmt.form, before)
}

#[cycle(walk_stmt)]
fn form_fault(
    alloc: Global,
    world: &World,
    at: Pos,
    form: &StmtForm,
    before: Option<Fault>,
) -> Result<Option<Fault>, Mem>
    ensures told { IfOk result (λ fault. fault ≡ told.form_told (told.known_of world.now) before at (stmt_form_view form.now)) }
    ensures fits { OnOk result (EachForm Fits (stmt_form_view form.now)) }
{
    let names = &world.names;
    match form {
        StmtForm::Set(target, value) | StmtForm::Change(target, _, value) => {
            let fault = assignment_fault(names, at, target.get(), value.get());
            Ok(least(before, fault))
        }
        StmtForm::Step(target, _) => {
            let fault = target_of(names, target.get()).fault;
            Ok(least(before, fault))
        }
        StmtForm::If(test, then, other) => {
            let fault = tested(names, before, test.get());
            let fault = body_fault(alloc, world, then, fault)?;
            body_fault(alloc, world, other, fault)
        }
        StmtForm::When(test, body) => {
            let fault = tested(names, before, test.get());
            body_fault(alloc, world, body, fault)
        }
        StmtForm::While(test, body) => {
            let fault = tested(names, before, test.get());
            body_fault(alloc, world, body, fault)
        }
        StmtForm::For(head, body) => {
            let fault = headed(names, before, at, head.get());
            body_fault(alloc, world, body, fault)
        }
        StmtForm::Emit(name, value) => Ok(least(before, emit_fault(world, at, name, value))),
        StmtForm::CallSub(name) => {
            let fault = fault_if(!world.is_sub(name), at, Rule::Unknown);
            Ok(least(before, fault))
        }
        StmtForm::Call(name, arguments) => {
            let fault = call_fault(alloc, world, at, name, arguments)?;
            Ok(least(before, fault))
        }
        StmtForm::Return => Ok(before),
    }
}

/// The fault of an assignment whose sign stands at a place.
fn assignment_fault(names: &Table<Meaning>, at: Pos, target: &Target, value: &Expr) -> Option<Fault>
    ensures told { result ≡ told.assignment_told (looked names.now) at (target_view target.now) (expr_view value.now) }
    ensures fits { EachPart Fits (part_view target.now.part) × Fits (expr_view value.now) }
{
    let target = target_of(names, target);
    let value = facts_of(names, value);
    let inside = least(target.fault, value.fault);
    least(inside, bad_size(at, target.size, value.size))
}

/// The least of faults and that of a test behind them.
fn tested(names: &Table<Meaning>, before: Option<Fault>, test: &Expr) -> Option<Fault>
    ensures told { result ≡ told.tested (looked names.now) before (expr_view test.now) }
    ensures fits { Fits (expr_view test.now) }
{
    least(before, cell_fault(names, test))
}

/// The least of faults and that of the head of a `for` behind them.
fn headed(names: &Table<Meaning>, before: Option<Fault>, at: Pos, head: &ForHead) -> Option<Fault>
    ensures told { result ≡ told.headed (looked names.now) before at (head_view head.now) }
    ensures fits { EachHead Fits (head_view head.now) }
{
    least(before, head_fault(names, at, head))
}

/// What is known of a target.
fn target_of(names: &Table<Meaning>, target: &Target) -> Facts
    ensures told { result ≡ told.target_facts (looked names.now) (target_view target.now) }
    ensures fits { EachPart Fits (part_view target.now.part) }
{
    part_of(names, target.at, names.find(&target.name), &target.part)
}

/// What is known of a part of a variable whose name stands at a place.
fn part_of(names: &Table<Meaning>, at: Pos, meaning: Option<Meaning>, part: &Part) -> Facts
    ensures told { result ≡ told.part_facts (looked names.now) at meaning (part_view part.now) }
    ensures fits { EachPart Fits (part_view part.now) }
{
    match part {
        Part::All => target_facts(at, meaning),
        Part::At(index) => {
            let index = boxed_facts(names, index);
            index_facts(at, at, meaning, &index)
        }
        Part::Span(from, to) => {
            let from = boxed_facts(names, from);
            let to = boxed_facts(names, to);
            range_facts(at, at, meaning, &from, &to)
        }
    }
}

/// The fault of an expression that has to have one cell.
fn cell_fault(names: &Table<Meaning>, expr: &Expr) -> Option<Fault>
    ensures told { result ≡ told.cell_told (looked names.now) (expr_view expr.now) }
    ensures fits { Fits (expr_view expr.now) }
{
    let facts = facts_of(names, expr);
    least(facts.fault, not_one_cell(&facts))
}

/// The fault of an expression that has to be one number that numbers and constants give.
pub fn bound_fault(facts: &Facts) -> Option<Fault>
    ensures { result ≡ told.bound_told facts.now }
{
    least(facts.fault, constant_place(facts))
}

/// The fault of the head of a `for` whose variable stands at a place.
fn head_fault(names: &Table<Meaning>, at: Pos, head: &ForHead) -> Option<Fault>
    ensures told { result ≡ told.head_told (looked names.now) at (head_view head.now) }
    ensures fits { EachHead Fits (head_view head.now) }
{
    let meaning = names.find(&head.name);
    let is_vector = is_more_than_one(variable_size(meaning));
    let variable = least(
        unknown_variable(at, meaning),
        fault_if(is_vector, at, Rule::NotScalar),
    );
    let first = least(variable, bound_fault(&facts_of(names, &head.first)));
    let last = least(first, bound_fault(&facts_of(names, &head.last)));
    least(last, step_fault(names, &head.step))
}

fn step_fault(names: &Table<Meaning>, step: &Option<Expr>) -> Option<Fault>
    ensures told { result ≡ told.step_told (looked names.now) (option_map expr_view step.now) }
    ensures fits { EachOption Fits (option_map expr_view step.now) }
{
    match step {
        None => None,
        Some(step) => {
            let facts = facts_of(names, step);
            let zero = fault_if(is_zero(facts.value), facts.first, Rule::ZeroStep);
            least(bound_fault(&facts), zero)
        }
    }
}

/// The fault of an `emit` whose event's name stands at a place.
fn emit_fault(world: &World, at: Pos, name: &Name, value: &Option<Boxed<Expr>>) -> Option<Fault>
    ensures told { result ≡ told.emit_told (told.known_of world.now) at name.now (option_map expr_view value.now) }
    ensures fits { EachOption Fits (option_map expr_view value.now) }
{
    event_fault(world, at, world.event_size(name), value)
}

/// The same for an event of this size, none where it isn't a global one.
fn event_fault(
    world: &World,
    at: Pos,
    size: Option<u64>,
    value: &Option<Boxed<Expr>>,
) -> Option<Fault>
    ensures told { result ≡ told.event_told (told.known_of world.now) at size (option_map expr_view value.now) }
    ensures fits { EachOption Fits (option_map expr_view value.now) }
{
    match value {
        None => fault_if(size.is_none(), at, Rule::Unknown),
        Some(value) => {
            let facts = facts_of(&world.names, value.get());
            emitted_fault(at, size, &facts)
        }
    }
}

fn emitted_fault(at: Pos, size: Option<u64>, value: &Facts) -> Option<Fault>
    ensures { result ≡ told.emitted at size value.now }
{
    let unknown = fault_if(size.is_none(), at, Rule::Unknown);
    let inside = least(unknown, value.fault);
    least(inside, event_size(value.first, size, value.size))
}
