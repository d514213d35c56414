//! The switch on one thread.
ghost use Rattle.std.specs.Prelude.{◌≡◌, ℕ, ◌≤◌, ◌<◌, ◌^◌, IfOk, OnOk, List as Items, length, map};
ghost use Rattle.aseba_router.specs.Ends.{Ends};
ghost use Rattle.aseba_router.specs.Middle.{IsSound, middle};
ghost use Rattle.aseba_router.specs.Relayed.{AllFull, Relayed, TookTurns, fresh};
ghost use Rattle.aseba_router.specs.Shown.{act};
ghost use Rattle.aseba_router.specs.Taken.{AllLines, switch};
ghost use Rattle.aseba_router.specs.Turns.{Line};

use crate::config::HubConfig;
use crate::exchange::Exchange;
use crate::outcome::Relay;
use crate::router::Router;
use crate::turn::Turn;
use crate::turning::take_turn;
use crate::wire::Wire;
use aseba_edge::{LinkIn, LinkOut};
use aseba_words::{List, Mem};
use std::alloc::Global;

/// Takes turns in order, where the links of the first places have a port.
pub(crate) fn take_turns<I: LinkIn, O: LinkOut>(
    alloc: Global,
    exchange: &mut Exchange,
    wires: &mut [Wire<I, O>],
    places: usize,
    turns: &[Turn],
) -> Result<(), Mem>
    requires places { places ≤ length wires.old }
    requires fresh { exchange.old.router.items ≡ 0 }
    requires few { length turns.now < 2 ^ 62 }
    requires sound { (n : ℕ) × (places ≤ n) × IsSound n (middle exchange.old) }
    ensures { OnOk result ((before : Items Ends) (lines : ℕ → Line) → AllLines places before wires.old lines →
        TookTurns places (switch (middle exchange.old) lines) before turns.now (middle exchange.new) wires.new) }
{
    for turn in turns {
        take_turn(alloc, exchange, wires, places, *turn)?;
    }
    Ok(())
}

/// The links before anything happened to them.
fn wires_of<I: LinkIn, O: LinkOut>(
    alloc: Global,
    links: List<(I, O)>,
) -> Result<Vec<Wire<I, O>>, Mem>
    ensures { IfOk result (λ wires. wires.items ≡ map (λ link. fresh record {
      input = I.contents link.0;
      input_mark = I.mark link.0;
      read_faults = I.faults link.0;
      taken = O.taken link.1;
      output_mark = O.mark link.1;
      put_faults = O.faults link.1;
    }) links) }
{
    let mut wires = Vec::new(alloc);
    for link in links.into_vec() {
        let (input, output) = link;
        wires.push(Wire::new(input, output))?;
    }
    Ok(wires)
}

/// The links behind all that happened to them.
fn links_of<I: LinkIn, O: LinkOut>(
    alloc: Global,
    wires: Vec<Wire<I, O>>,
) -> Result<List<(I, O)>, Mem>
    ensures { IfOk result (λ links. map (λ link. record {
      input = I.contents link.0;
      input_mark = I.mark link.0;
      read_faults = I.faults link.0;
      taken = O.taken link.1;
      output_mark = O.mark link.1;
      put_faults = O.faults link.1;
    }) links
        ≡ map (λ wire. wire.ends) wires.items) }
{
    let mut links = List::new(alloc);
    for wire in wires {
        links.add(wire.into_ends())?;
    }
    Ok(links)
}

/// For each link the place of the first push that came back for its session.
fn all_full(
    alloc: Global,
    router: &Router,
    places: usize,
    count: usize,
) -> Result<List<Option<u64>>, Mem>
    requires { places < 2 ^ 16 }
    ensures { IfOk result (AllFull router.now places count) }
{
    let mut full = List::new(alloc);
    for index in 0..count {
        let place = if index < places {
            router.full_at(index as u16)
        } else {
            None
        };
        full.add(place)?;
    }
    Ok(full)
}

/// A switch on one thread, over the turns that are told. A link's place in the list is its port;
/// links past the ports are never opened, and a turn that can't be done changes nothing. It fails
/// for want of memory alone.
pub fn relay<I: LinkIn, O: LinkOut>(
    alloc: Global,
    config: &HubConfig,
    links: List<(I, O)>,
    turns: &[Turn],
) -> Result<Relay<I, O>, Mem>
    requires ports { (0 < config.now.ports) × (config.now.ports ≤ 64) }
    requires queue { (0 < config.now.queue) × (config.now.queue ≤ 65536) }
    requires few { length turns.now < 2 ^ 62 }
    ensures { IfOk result (λ relay. Relayed config.now.ports config.now.queue config.now.echo turns.now
        (map (λ link. record {
          input = I.contents link.0;
          input_mark = I.mark link.0;
          read_faults = I.faults link.0;
          taken = O.taken link.1;
          output_mark = O.mark link.1;
          put_faults = O.faults link.1;
        }) links)
        (map (λ link. record {
          input = I.contents link.0;
          input_mark = I.mark link.0;
          read_faults = I.faults link.0;
          taken = O.taken link.1;
          output_mark = O.mark link.1;
          put_faults = O.faults link.1;
        }) relay.links)
        (map act relay.items) relay.full) }
{
    let mut wires = wires_of(alloc, links)?;
    let count = wires.len();
    let places = count.min(usize::from(config.ports));
    let mut exchange = Exchange::new(alloc, config.ports, config.queue, config.echo)?;
    take_turns(alloc, &mut exchange, &mut wires, places, turns)?;
    let full = all_full(alloc, &exchange.router, places, count)?;
    let Exchange { routed, .. } = exchange;
    Ok(Relay {
        items: routed,
        links: links_of(alloc, wires)?,
        full,
    })
}
