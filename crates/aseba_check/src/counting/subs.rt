//! The stack cells of subroutines.
ghost use Rattle.std.specs.Prelude.{◌≡◌, true, length, map, IfOk, IfSome, OnOk};
ghost use Rattle.aseba_tree.specs.View.{handler_view, stmt_view, stmt_form_view, stmts_view};
ghost use Rattle.aseba_check.specs.Looked.{looked, nothing};
ghost use Rattle.aseba_check.specs.Parts.{with_subs};
ghost use Rattle.aseba_check.specs.Statements.{known_of};
ghost use Rattle.aseba_check.specs.CountedParts as told;

use crate::counting::statements::body_taken;
use crate::order::order_of;
use crate::parts::sub_places;
use crate::sub_calls::sub_calls;
use crate::table::Table;
use crate::world::World;
use aseba_tree::{Handler, Stmt, StmtForm};
use aseba_words::{List, Mem};
use std::alloc::Global;

/// The stack cells of each subroutine, calls inside it included. Calls are no deeper than there
/// are parts.
///
/// In an order in which each stands behind those that it calls, one pass tells them. Whether the
/// order is one is seen in that pass. Where it isn't (calls close a cycle, a name stands twice, or a
/// subroutine that is called isn't there) they are counted in rounds, one call deeper in each. No
/// source that the check accepted has any of these.
pub fn sub_depths(
    alloc: Global,
    world: &World,
    jump: u64,
    parts: &[Handler],
) -> Result<Table<u64>, Mem>
    ensures { IfOk result (λ subs. looked subs ≡ told.depths_after (known_of world.now) jump (map handler_view parts.now) (length parts.now)) }
{
    let order = callees_first(alloc, parts)?;
    match depths_in_order(alloc, world, jump, parts, order.as_slice())? {
        Some(depths) => Ok(depths),
        None => depths_by_rounds(alloc, world, jump, parts),
    }
}

/// The places of subroutines among the parts, each behind those that it calls, where calls close no
/// cycle. Nothing is promised of it: who takes it tests it.
fn callees_first(alloc: Global, parts: &[Handler]) -> Result<List<usize>, Mem> {
    let by_rank = places_by_rank(alloc, parts)?;
    let mut places = List::new(alloc);
    for place in by_rank.as_slice() {
        if let Some(place) = place {
            places.add(*place)?;
        }
    }
    Ok(places)
}

/// The place of the subroutine of each rank, where there is one.
fn places_by_rank(alloc: Global, parts: &[Handler]) -> Result<Vec<Option<usize>>, Mem> {
    let calls = sub_calls(alloc, parts)?;
    let order = order_of(alloc, parts, calls.as_slice())?;
    let mut by_rank = vec![in alloc; None; parts.len() + 2]?;
    for (place, part) in parts.iter().enumerate() {
        if part.is_sub {
            put(&mut by_rank, order.ranks.find(&part.name), place);
        }
    }
    Ok(by_rank)
}

fn put(by_rank: &mut Vec<Option<usize>>, rank: Option<usize>, place: usize) {
    if let Some(slot) = by_rank.get_mut(rank.unwrap_or(0)) {
        *slot = Some(place);
    }
}

/// The stack cells of all subroutines, where each stands in this order behind those that it calls.
fn depths_in_order(
    alloc: Global,
    world: &World,
    jump: u64,
    parts: &[Handler],
    order: &[usize],
) -> Result<Option<Table<u64>>, Mem>
    ensures { IfOk result (λ found. IfSome found (λ subs. looked subs ≡ told.depths_after (known_of world.now) jump (map handler_view parts.now) (length parts.now))) }
{
    let places = sub_places(alloc, parts)?;
    let depths = settled(alloc, world, jump, parts, &places, order)?;
    if order.len() <= parts.len() && are_settled(&depths, parts) {
        Ok(Some(depths))
    } else {
        Ok(None)
    }
}

/// The stack cells of the subroutines that stand in this order behind those that they call.
fn settled(
    alloc: Global,
    world: &World,
    jump: u64,
    parts: &[Handler],
    places: &Table<usize>,
    order: &[usize],
) -> Result<Table<u64>, Mem>
    requires { looked places.now ≡ with_subs nothing 0 (map handler_view parts.now) }
    ensures { IfOk result (λ subs. told.AreSettled (known_of world.now) jump (map handler_view parts.now) (looked subs) (length order.now)) }
{
    let mut depths = Table::new(alloc);
    for place in order {
        settle(alloc, world, jump, parts, places, &mut depths, *place)?;
    }
    Ok(depths)
}

/// Adds the stack cells of the subroutine of a place, where those of all that it calls are there.
fn settle(
    alloc: Global,
    world: &World,
    jump: u64,
    parts: &[Handler],
    places: &Table<usize>,
    depths: &mut Table<u64>,
    place: usize,
) -> Result<(), Mem>
    requires { looked places.now ≡ with_subs nothing 0 (map handler_view parts.now) }
    ensures { OnOk result (told.Settles (known_of world.now) jump (map handler_view parts.now) (looked depths.old) (looked depths.new)) }
{
    let Some(part) = parts.get(place) else {
        return Ok(());
    };
    if is_first(places, place, part) && are_ready(depths, &part.body) {
        let taken = body_taken(world, depths, jump, &part.body);
        depths.set_first(alloc, &part.name, taken.depth)
    } else {
        Ok(())
    }
}

/// Whether the part of a place is the first subroutine of its name.
fn is_first(places: &Table<usize>, place: usize, part: &Handler) -> bool
    ensures { result ≡ told.is_first (looked places.now) place (handler_view part.now) }
{
    match places.find(&part.name) {
        Some(first) => part.is_sub && first == place,
        None => false,
    }
}

/// Whether the stack cells of each subroutine that is called are there.
#[cycle(walk_ready)]
fn are_ready(depths: &Table<u64>, body: &List<Stmt>) -> bool
    ensures { result ≡ told.are_ready (looked depths.now) true (stmts_view body.now) }
{
    let mut ready = true;
    for stmt in body.as_slice() {
        ready = ready && is_ready(depths, stmt);
    }
    ready
}

#[cycle(walk_ready)]
fn is_ready(depths: &Table<u64>, stmt: &Stmt) -> bool
    ensures { result ≡ told.is_ready (looked depths.now) (stmt_view stmt.now) }
{
    is_form_ready(depths, &stmt.form)
}

#[cycle(walk_ready)]
fn is_form_ready(depths: &Table<u64>, form: &StmtForm) -> bool
    ensures { result ≡ told.is_form_ready (looked depths.now) (stmt_form_view form.now) }
{
    match form {
        StmtForm::If(_, then, other) => are_ready(depths, then) && are_ready(depths, other),
        StmtForm::When(_, body) => are_ready(depths, body),
        StmtForm::While(_, body) => are_ready(depths, body),
        StmtForm::For(_, body) => are_ready(depths, body),
        StmtForm::CallSub(name) => depths.find(name).is_some(),
        _ => true,
    }
}

/// Whether the stack cells of all subroutines are there.
fn are_settled(depths: &Table<u64>, parts: &[Handler]) -> bool
    ensures { result ≡ told.all_settled (looked depths.now) true (map handler_view parts.now) }
{
    let mut settled = true;
    for part in parts {
        settled = settled && is_settled(depths, part);
    }
    settled
}

fn is_settled(depths: &Table<u64>, part: &Handler) -> bool
    ensures { result ≡ told.is_settled (looked depths.now) (handler_view part.now) }
{
    !part.is_sub || depths.find(&part.name).is_some()
}

/// The same for calls in any order, one deeper in each round.
fn depths_by_rounds(
    alloc: Global,
    world: &World,
    jump: u64,
    parts: &[Handler],
) -> Result<Table<u64>, Mem>
    ensures { IfOk result (λ subs. looked subs ≡ told.depths_after (known_of world.now) jump (map handler_view parts.now) (length parts.now)) }
{
    let mut depths = Table::new(alloc);
    let mut deep = 0;
    while deep < parts.len() {
        depths = next_depths(alloc, world, jump, &depths, parts)?;
        deep += 1;
    }
    Ok(depths)
}

/// The stack cells where calls go one deeper than before.
fn next_depths(
    alloc: Global,
    world: &World,
    jump: u64,
    depths: &Table<u64>,
    parts: &[Handler],
) -> Result<Table<u64>, Mem>
    ensures { IfOk result (λ subs. looked subs ≡ told.next_depths (known_of world.now) jump (looked depths.now) nothing (map handler_view parts.now)) }
{
    let mut next = Table::new(alloc);
    add_depths(alloc, world, jump, depths, &mut next, parts)?;
    Ok(next)
}

fn add_depths(
    alloc: Global,
    world: &World,
    jump: u64,
    depths: &Table<u64>,
    next: &mut Table<u64>,
    parts: &[Handler],
) -> Result<(), Mem>
    ensures { OnOk result (looked next.new ≡ told.next_depths (known_of world.now) jump (looked depths.now) (looked next.old) (map handler_view parts.now)) }
{
    for part in parts {
        add_depth(alloc, world, jump, depths, next, part)?;
    }
    Ok(())
}

fn add_depth(
    alloc: Global,
    world: &World,
    jump: u64,
    depths: &Table<u64>,
    next: &mut Table<u64>,
    part: &Handler,
) -> Result<(), Mem>
    ensures { OnOk result (looked next.new ≡ told.with_depth (known_of world.now) jump (looked depths.now) (looked next.old) (handler_view part.now)) }
{
    if part.is_sub {
        let taken = body_taken(world, depths, jump, &part.body);
        next.set_first(alloc, &part.name, taken.depth)
    } else {
        Ok(())
    }
}
