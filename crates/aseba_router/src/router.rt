ghost use Rattle.std.specs.Prelude.{◌≡◌, ℕ, [], ◌<◌, ◌≤◌, ◌^◌, length, replicate, IfOk, OnOk, OnErr};
ghost use Rattle.aseba_router.specs.Port.{unused};
ghost use Rattle.aseba_router.specs.Queue.{Queue};
ghost use Rattle.aseba_router.specs.Routed.{IsRoomy, Retried, Routed, full_of, port_of};
ghost use Rattle.aseba_router.specs.Shown.{act};

use crate::item::Item;
use crate::place::Place;
use crate::ports::Ports;
use crate::table::{happen, retry_all};
use aseba_words::Mem;
use std::alloc::Global;
use std::marker::Model;

/// The hub's router: what its ports get, item by item. It takes one item at a time and pushes the
/// entries that the ports' sessions are to get of it.
#[derive(Drop)]
pub struct Router {
    places: Vec<Place>,
    items: u64,
    echo: bool,
}

impl Model for Router {
    ghost use Rattle.std.specs.Prelude.{◌<◌, ◌≤◌, ◌^◌, length};
    ghost use Rattle.aseba_router.specs.Routed.{Table};
    ghost use Rattle.aseba_router.specs.Rows.{ports_of};

    ghost Value = { Table };

    ghost view = { λ r. record { ports = ports_of r.places.items; items = r.items; echo = r.echo } };

    ghost invariant = { λ r. (length r.places.items < 2 ^ 16) × (r.items ≤ 2 ^ 62) };
}

impl Router {
    /// A router of so many ports, which no session has held. With `echo` a session gets what it says
    /// itself, too.
    pub fn new(alloc: Global, ports: u16, echo: bool) -> Result<Router, Mem>
        ensures made { IfOk result (λ made.
            made ≡ record { ports = replicate ports unused; items = 0; echo = echo }) }
        // It has room for its first item where the queues are empty.
        ensures room { IfOk result (λ made. (queues : ℕ → Queue) → ((p : ℕ) → (queues p).list ≡ []) → IsRoomy made queues) }
    {
        let mut places = Vec::new(alloc);
        for _ in 0..ports {
            places.push(Place::new(alloc))?;
        }
        Ok(Router {
            places,
            items: 0,
            echo,
        })
    }

    /// Takes the next item: the shares of its frame first, and then it pushes what each port is to
    /// get. For want of memory nothing was pushed, and the router is as before.
    pub fn event<P: Ports>(&mut self, item: Item, ports: &mut P) -> Result<(), Mem>
        requires port { port_of (act item) < length self.old.ports }
        requires few { self.old.items < 2 ^ 62 }
        requires there { length self.old.ports ≤ P.ports ports.old }
        requires room { IsRoomy self.old (P.queue ports.old) }
        ensures routed { OnOk result (Routed (act item) self.old (P.queue ports.old) self.new (P.queue ports.new)) }
        ensures unchanged { OnErr result ((self.new ≡ self.old) × (ports.new ≡ ports.old)) }
        ensures room { IsRoomy self.new (P.queue ports.new) }
        ensures count { P.ports ports.new ≡ P.ports ports.old }
    {
        happen(&mut self.places, item, self.items, self.echo, ports)?;
        self.items += 1;
        Ok(())
    }

    /// Tries the Ends that wait again, in order, at each port up to the first that comes back. It
    /// takes no memory.
    pub fn retry<P: Ports>(&mut self, ports: &mut P)
        requires there { length self.old.ports ≤ P.ports ports.old }
        requires room { IsRoomy self.old (P.queue ports.old) }
        ensures retried { Retried self.old (P.queue ports.old) self.new (P.queue ports.new) }
        ensures room { IsRoomy self.new (P.queue ports.new) }
        ensures count { P.ports ports.new ≡ P.ports ports.old }
    {
        retry_all(&mut self.places, ports);
    }

    /// How many items there were. It takes no memory.
    pub fn items(&self) -> u64
        ensures { result ≡ self.now.items }
    {
        self.items
    }

    /// The place of the item by which the last session of a port was dropped, or at which its End
    /// came back, counted from 0: none where nothing came back for it, and for a port that isn't
    /// there. It takes no memory.
    pub fn full_at(&self, port: u16) -> Option<u64>
        ensures { result ≡ full_of self.now port }
    {
        let index = usize::from(port);
        if index >= self.places.len() {
            return None;
        }
        self.places[index].full
    }
}
