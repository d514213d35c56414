//! What the parts of a source take, and the whole of it.
ghost use Rattle.std.specs.Prelude.{◌≡◌, map, option_map};
ghost use Rattle.aseba_tree.specs.Numbers as tree;
ghost use Rattle.aseba_tree.specs.View.{expr_view, decl_view, handler_view, source_view, project_view};
ghost use Rattle.aseba_check.specs.Looked.{looked};
ghost use Rattle.aseba_check.specs.Statements.{known_of};
ghost use Rattle.aseba_check.specs.CountedStatements.{none_taken};
ghost use Rattle.aseba_check.specs.CountedParts as told;

use crate::counting::elements::count_of;
use crate::counting::statements::body_taken;
use crate::counting::taken::{Taken, assigned, behind, longer, none_taken};
use crate::facts::Meaning;
use crate::table::Table;
use crate::world::World;
use aseba_tree::{Decl, Expr, Handler, Project, Source};
use std::alloc::Global;

/// The words of a jump in a project: in one with more than 2048 words of code it takes four.
pub fn jump_words(project: &Project) -> u64
    ensures { result ≡ tree.jump_words (project_view project.now) }
{
    if is_large(project) { 4 } else { 1 }
}

/// Whether a project has more words of code than a jump reaches over.
pub fn is_large(project: &Project) -> bool
    ensures { result ≡ tree.is_large (project_view project.now) }
{
    2048 < project.node.code
}

/// The words of a part with its last one, where a jump takes so many. Of a part without a fault
/// they are those of its plain code.
pub fn part_words(alloc: Global, world: &World, jump: u64, part: &Handler) -> u64
    ensures { result ≡ told.part_words (known_of world.now) jump (handler_view part.now) }
{
    let subs = Table::new(alloc);
    let taken = body_taken(world, &subs, jump, &part.body);
    taken.words.saturating_add(1)
}

/// What a source takes, where each subroutine takes a number of stack cells.
pub fn source_taken(world: &World, subs: &Table<u64>, jump: u64, source: &Source) -> Taken
    ensures { result ≡ told.source_taken (known_of world.now) (looked subs.now) jump (source_view source.now) }
{
    let init = init_taken(world, subs, jump, source);
    behind(
        init,
        parts_taken(world, subs, jump, source.parts.as_slice()),
    )
}

/// The assignments of declarations and the statements behind them, with their last word and the
/// first three of the event table: its length, and the event of the init code with its address.
fn init_taken(world: &World, subs: &Table<u64>, jump: u64, source: &Source) -> Taken
    ensures { result ≡ told.init_taken (known_of world.now) (looked subs.now) jump (source_view source.now) }
{
    let vars = vars_taken(&world.names, source.vars.as_slice());
    let init = body_taken(world, subs, jump, &source.init);
    longer(behind(vars, init), 4)
}

fn vars_taken(names: &Table<Meaning>, vars: &[Decl]) -> Taken
    ensures { result ≡ told.vars_taken (looked names.now) none_taken (map decl_view vars.now) }
{
    let mut taken = none_taken();
    for decl in vars {
        taken = behind(taken, value_taken(names, &decl.value));
    }
    taken
}

/// The assignment of a declaration's value, where it has one.
fn value_taken(names: &Table<Meaning>, value: &Option<Expr>) -> Taken
    ensures { result ≡ told.value_taken (looked names.now) (option_map expr_view value.now) }
{
    match value {
        None => none_taken(),
        Some(value) => assigned(None, count_of(names, value)),
    }
}

fn parts_taken(world: &World, subs: &Table<u64>, jump: u64, parts: &[Handler]) -> Taken
    ensures { result ≡ told.parts_taken (known_of world.now) (looked subs.now) jump none_taken (map handler_view parts.now) }
{
    let mut taken = none_taken();
    for part in parts {
        taken = behind(taken, part_taken(world, subs, jump, part));
    }
    taken
}

fn part_taken(world: &World, subs: &Table<u64>, jump: u64, part: &Handler) -> Taken
    ensures { result ≡ told.part_taken (known_of world.now) (looked subs.now) jump (handler_view part.now) }
{
    with_end(body_taken(world, subs, jump, &part.body), part)
}

/// A part with its last word. A handler has two more in the event table. The stack cells of a
/// subroutine count where it is called.
fn with_end(taken: Taken, part: &Handler) -> Taken
    ensures { result ≡ told.with_end taken (handler_view part.now) }
{
    if part.is_sub {
        Taken {
            words: taken.words.saturating_add(1),
            depth: 0,
            room: taken.room,
        }
    } else {
        longer(taken, 3)
    }
}
