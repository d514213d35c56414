//! The turns of the switch on one thread.
ghost use Rattle.std.specs.Prelude.{◌≡◌, ℕ, ◌&&◌, not, ◌<◌, ◌≤◌, ◌^◌, IfOk, OnOk, length, nat_lt};
ghost use Rattle.aseba_router.specs.Middle.{IsSound, middle};
ghost use Rattle.aseba_router.specs.Shown.{act, put};
ghost use Rattle.aseba_router.specs.Turns.{has_room, heard_as, is_away, is_there, session_of as the_session};
ghost use Rattle.aseba_router.specs.Taken.{TookAt, TookTurn, wire_at};
ghost use Rattle.aseba_router.specs.declared.turn.Turn.TheVariants as turn;

use crate::entry::Entry;
use crate::exchange::Exchange;
use crate::item::Item;
use crate::session::Session;
use crate::turn::Turn;
use crate::wire::Wire;
use aseba_edge::{LinkIn, LinkOut};
use aseba_message::Frame;
use aseba_words::Mem;
use std::alloc::Global;
use std::sync::Arc;

/// The session of a link, which has one.
fn session_of(port: u16) -> Session
    ensures { result ≡ the_session port }
{
    Session { port, nth: 0 }
}

/// Whether the session of a link may join.
fn may_open<I: LinkIn, O: LinkOut>(
    exchange: &Exchange,
    wires: &[Wire<I, O>],
    places: usize,
    port: u16,
) -> bool
    requires { places ≤ length wires.now }
    ensures { result ≡ (nat_lt port places && is_away (wire_at wires.now port).stage && has_room (middle exchange.now)) }
{
    let index = usize::from(port);
    index < places && wires[index].stage().is_away() && exchange.has_room()
}

/// Whether a link may be read.
fn may_read<I: LinkIn, O: LinkOut>(
    exchange: &Exchange,
    wires: &[Wire<I, O>],
    places: usize,
    port: u16,
) -> bool
    requires { places ≤ length wires.now }
    ensures { result ≡ (nat_lt port places && is_there (wire_at wires.now port).stage && has_room (middle exchange.now)) }
{
    let index = usize::from(port);
    index < places && wires[index].stage().is_there() && exchange.has_room()
}

/// Whether the session of a link has joined.
fn may_write<I: LinkIn, O: LinkOut>(wires: &[Wire<I, O>], places: usize, port: u16) -> bool
    requires { places ≤ length wires.now }
    ensures { result ≡ (nat_lt port places && not (is_away (wire_at wires.now port).stage)) }
{
    let index = usize::from(port);
    index < places && !wires[index].stage().is_away()
}

/// What a session says: a frame, or that it leaves.
fn item_of(alloc: Global, port: u16, heard: Option<Frame>) -> Result<Item, Mem>
    ensures { IfOk result (λ item. act item ≡ heard_as (the_session port) heard) }
{
    match heard {
        Some(frame) => Ok(Item::Said(session_of(port), Arc::new(alloc, frame)?)),
        None => Ok(Item::Leave(session_of(port))),
    }
}

/// The session of a link joins.
fn open<I: LinkIn, O: LinkOut>(
    exchange: &mut Exchange,
    wires: &mut [Wire<I, O>],
    places: usize,
    port: u16,
) -> Result<(), Mem>
    requires { places ≤ length wires.old }
    ensures { OnOk result (TookTurn places (turn.Open port) (middle exchange.old) wires.old (middle exchange.new) wires.new) }
{
    if !may_open(exchange, wires, places, port) {
        return Ok(());
    }
    exchange.admit(Item::Join(session_of(port)))?;
    wires[usize::from(port)].open();
    Ok(())
}

/// A link is read for one frame.
fn read<I: LinkIn, O: LinkOut>(
    alloc: Global,
    exchange: &mut Exchange,
    wires: &mut [Wire<I, O>],
    places: usize,
    port: u16,
) -> Result<(), Mem>
    requires { places ≤ length wires.old }
    ensures { OnOk result (TookTurn places (turn.Read port) (middle exchange.old) wires.old (middle exchange.new) wires.new) }
{
    if !may_read(exchange, wires, places, port) {
        return Ok(());
    }
    let heard = wires[usize::from(port)].hear(alloc)?;
    exchange.admit(item_of(alloc, port, heard)?)?;
    Ok(())
}

/// A link takes an entry.
fn give<I: LinkIn, O: LinkOut>(
    alloc: Global,
    wires: &mut [Wire<I, O>],
    port: u16,
    entry: &Entry,
) -> Result<(), Mem>
    requires { port < length wires.old }
    ensures { OnOk result (TookAt port (put entry.now) wires.old wires.new) }
{
    wires[usize::from(port)].take(alloc, entry)
}

/// An entry of a port's queue is written to its link.
fn write<I: LinkIn, O: LinkOut>(
    alloc: Global,
    exchange: &mut Exchange,
    wires: &mut [Wire<I, O>],
    places: usize,
    port: u16,
) -> Result<(), Mem>
    requires places { places ≤ length wires.old }
    requires sound { (n : ℕ) × IsSound n (middle exchange.old) }
    ensures { OnOk result (TookTurn places (turn.Write port) (middle exchange.old) wires.old (middle exchange.new) wires.new) }
{
    if !may_write(wires, places, port) {
        return Ok(());
    }
    let Some(entry) = exchange.pop(port) else {
        return Ok(());
    };
    give(alloc, wires, port, &entry)?;
    Ok(())
}

/// The next item is routed.
fn route<I: LinkIn, O: LinkOut>(
    exchange: &mut Exchange,
    wires: &[Wire<I, O>],
    places: usize,
) -> Result<(), Mem>
    requires few { exchange.old.router.items < 2 ^ 62 }
    requires sound { (n : ℕ) × IsSound n (middle exchange.old) }
    ensures { OnOk result (TookTurn places turn.Route (middle exchange.old) wires.now (middle exchange.new) wires.now) }
{
    exchange.route()?;
    Ok(())
}

/// A turn is taken. One that can't be done changes nothing.
pub(crate) fn take_turn<I: LinkIn, O: LinkOut>(
    alloc: Global,
    exchange: &mut Exchange,
    wires: &mut [Wire<I, O>],
    places: usize,
    turn: Turn,
) -> Result<(), Mem>
    requires places { places ≤ length wires.old }
    requires few { exchange.old.router.items < 2 ^ 62 }
    requires sound { (n : ℕ) × IsSound n (middle exchange.old) }
    ensures { OnOk result (TookTurn places turn (middle exchange.old) wires.old (middle exchange.new) wires.new) }
{
    match turn {
        Turn::Open(port) => open(exchange, wires, places, port),
        Turn::Read(port) => read(alloc, exchange, wires, places, port),
        Turn::Route => route(exchange, wires, places),
        Turn::Write(port) => write(alloc, exchange, wires, places, port),
    }
}
