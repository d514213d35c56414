//! The walk over what statements take.
ghost use Rattle.std.specs.Prelude.{◌≡◌, option_map};
ghost use Rattle.aseba_tree.specs.View.{expr_view, part_view, target_view, head_view, stmt_view, stmt_form_view, stmts_view};
ghost use Rattle.aseba_check.specs.Looked.{looked};
ghost use Rattle.aseba_check.specs.Statements.{known_of};
ghost use Rattle.aseba_check.specs.CountedStatements as told;

use crate::counting::calls::{call_taken, emit_taken};
use crate::counting::count::{Count, index_count, infix_count, name_count, number_words};
use crate::counting::elements::{count_of, range_count};
use crate::counting::taken::{
    Taken, assigned, behind, branched, callsub_taken, longer, none_taken,
};
use crate::expressions::facts_of;
use crate::facts::Meaning;
use crate::table::Table;
use crate::world::World;
use aseba_tree::{Expr, ForHead, Part, Stmt, StmtForm, Target};
use aseba_words::{Binary, List};

/// What statements take, where each subroutine takes a number of stack cells and a jump so many
/// words.
#[cycle(walk_taken)]
pub fn body_taken(world: &World, subs: &Table<u64>, jump: u64, body: &List<Stmt>) -> Taken
    ensures { result ≡ told.stmts_taken (known_of world.now) (looked subs.now) jump told.none_taken (stmts_view body.now) }
{
    let mut taken = none_taken();
    for stmt in body.as_slice() {
        taken = behind(taken, stmt_taken(world, subs, jump, stmt));
    }
    taken
}

#[cycle(walk_taken)]
fn stmt_taken(world: &World, subs: &Table<u64>, jump: u64, stmt: &Stmt) -> Taken
    ensures { result ≡ told.stmt_taken (known_of world.now) (looked subs.now) jump (stmt_view stmt.now) }
{
    form_taken(world, subs, jump, &stmt.form)
}

#[cycle(walk_taken)]
fn form_taken(world: &World, subs: &Table<u64>, jump: u64, form: &StmtForm) -> Taken
    ensures { result ≡ told.form_taken (known_of world.now) (looked subs.now) jump (stmt_form_view form.now) }
{
    let names = &world.names;
    match form {
        StmtForm::Set(target, value) => set_taken(names, target.get(), value.get()),
        StmtForm::Change(target, op, value) => {
            change_taken(names, target.get(), *op, value.get())
        }
        StmtForm::Step(target, op) => step_taken(names, target.get(), *op),
        StmtForm::If(test, then, other) => {
            let test = test_taken(names, test.get());
            let then = body_taken(world, subs, jump, then);
            let behind_jump = with_jump(jump, other, body_taken(world, subs, jump, other));
            behind(behind(test, then), behind_jump)
        }
        StmtForm::When(test, body) => {
            let test = test_taken(names, test.get());
            behind(test, body_taken(world, subs, jump, body))
        }
        StmtForm::While(test, body) => {
            let test = longer(test_taken(names, test.get()), jump);
            behind(test, body_taken(world, subs, jump, body))
        }
        StmtForm::For(head, body) => {
            let head = head_taken(names, jump, head.get());
            behind(head, body_taken(world, subs, jump, body))
        }
        StmtForm::Emit(_, value) => emit_taken(names, value),
        StmtForm::CallSub(name) => callsub_taken(subs.find(name)),
        StmtForm::Call(name, arguments) => call_taken(world, name, arguments),
        StmtForm::Return => returned(),
    }
}

fn returned() -> Taken
    ensures { result ≡ record { words = 1; depth = 0; room = 0 } }
{
    Taken {
        words: 1,
        depth: 0,
        room: 0,
    }
}

fn test_taken(names: &Table<Meaning>, test: &Expr) -> Taken
    ensures { result ≡ told.test_taken (looked names.now) (expr_view test.now) }
{
    branched(count_of(names, test))
}

/// With a jump over statements, where there are any.
fn with_jump(jump: u64, other: &List<Stmt>, taken: Taken) -> Taken
    ensures { result ≡ told.with_jump jump (stmts_view other.now) taken }
{
    match other.as_slice() {
        [] => taken,
        _ => longer(taken, jump),
    }
}

/// The bounds and the step of a loop are numbers. Its code stores the first bound, tests, adds the
/// step and jumps back.
fn head_taken(names: &Table<Meaning>, jump: u64, head: &ForHead) -> Taken
    ensures { result ≡ told.head_taken (looked names.now) jump (head_view head.now) }
{
    let first = bound_words(facts_of(names, &head.first).value);
    let last = bound_words(facts_of(names, &head.last).value);
    let bounds = first.saturating_add(last);
    let words = bounds.saturating_add(step_words(names, &head.step));
    Taken {
        words: words.saturating_add(7).saturating_add(jump),
        depth: 2,
        room: 0,
    }
}

fn bound_words(value: Option<i16>) -> u64
    ensures { result ≡ told.bound_words value }
{
    number_words(i64::from(value.unwrap_or(0)))
}

fn step_words(names: &Table<Meaning>, step: &Option<Expr>) -> u64
    ensures { result ≡ told.step_words (looked names.now) (option_map expr_view step.now) }
{
    match step {
        None => 1,
        Some(step) => bound_words(facts_of(names, step).value),
    }
}

/// What the elements that a target means take, and its index where it has one.
#[derive(Clone, Copy, Debug)]
struct Aimed {
    elements: Count,
    index: Option<Count>,
}

fn set_taken(names: &Table<Meaning>, target: &Target, value: &Expr) -> Taken
    ensures { result ≡ told.set_taken (looked names.now) (target_view target.now) (expr_view value.now) }
{
    let target = target_aimed(names, target);
    assigned(target.index, count_of(names, value))
}

fn change_taken(names: &Table<Meaning>, target: &Target, op: Binary, value: &Expr) -> Taken
    ensures { result ≡ told.change_taken (looked names.now) (target_view target.now) op (expr_view value.now) }
{
    let target = target_aimed(names, target);
    let value = count_of(names, value);
    assigned(target.index, infix_count(op, target.elements, value))
}

fn step_taken(names: &Table<Meaning>, target: &Target, op: Binary) -> Taken
    ensures { result ≡ told.bump_taken (looked names.now) (target_view target.now) op }
{
    let target = target_aimed(names, target);
    assigned(target.index, step_count(op, target.elements))
}

/// An operator with 1 behind each element.
fn step_count(op: Binary, elements: Count) -> Count
    ensures { result ≡ told.bumped_counted op elements }
{
    let words = elements.words.saturating_add(elements.cells);
    Count {
        cells: elements.cells,
        words: words.saturating_add(elements.cells),
        depth: elements.depth.max(2),
        compares: op.is_of_one_cell(),
    }
}

fn target_aimed(names: &Table<Meaning>, target: &Target) -> Aimed
    ensures { result ≡ told.target_aimed (looked names.now) (target_view target.now) }
{
    part_aimed(names, names.find(&target.name), &target.part)
}

fn part_aimed(names: &Table<Meaning>, meaning: Option<Meaning>, part: &Part) -> Aimed
    ensures { result ≡ told.part_aimed (looked names.now) meaning (part_view part.now) }
{
    match part {
        Part::All => Aimed {
            elements: name_count(meaning),
            index: None,
        },
        Part::At(index) => aimed_at(count_of(names, index.get())),
        Part::Span(from, to) => Aimed {
            elements: range_count(names, from.get(), to.get()),
            index: None,
        },
    }
}

/// One cell, at a computed index.
fn aimed_at(index: Count) -> Aimed
    ensures { result ≡ told.aimed_at index }
{
    Aimed {
        elements: index_count(index),
        index: Some(index),
    }
}
