//! The middle of the switch: the in-queue, the router and the ports' queues.
ghost use Rattle.std.specs.Prelude.{◌≡◌, ℕ, ◌<◌, ◌≤◌, ◌+◌, ◌++◌, ◌∷◌, ◌^◌, [], IfOk, OnOk, length, map, option_to_list, option_map};
ghost use Rattle.aseba_router.specs.Shown.{act, put};
ghost use Rattle.aseba_router.specs.Turns.{HasRouted, admitted, has_room, nothing_yet};

use crate::entry::Entry;
use crate::item::Item;
use crate::memory_ports::MemoryPorts;
use crate::router::Router;
use aseba_words::{List, Mem};
use std::alloc::Global;
use std::collections::VecDeque;
use std::sync::Arc;

/// What the in-queue holds at most.
const INTAKE_ROOM: usize = 1024;

/// The items that wait, those that were routed, the router and the ports' queues.
#[derive(Drop)]
pub(crate) struct Exchange {
    pub intake: VecDeque<Item>,
    pub routed: List<Item>,
    pub router: Router,
    pub queues: MemoryPorts,
}

/// An item that shares its frame with another one.
fn share_item(item: &Item) -> Result<Item, Mem>
    ensures { IfOk result (λ shared. act shared ≡ act item.now) }
{
    match item {
        Item::Join(session) => Ok(Item::Join(*session)),
        Item::Said(session, frame) => Ok(Item::Said(*session, Arc::try_clone(frame)?)),
        Item::Leave(session) => Ok(Item::Leave(*session)),
    }
}

impl Exchange {
    ghost use Rattle.aseba_router.specs.Middle.{IsSound, PopDone, middle};

    /// One of so many ports, whose queues hold this many entries each, to which nothing happened.
    pub fn new(alloc: Global, ports: u16, queue: u32, echo: bool) -> Result<Exchange, Mem>
        ensures first { IfOk result (λ first. middle first ≡ nothing_yet ports queue echo) }
        ensures sound { IfOk result (λ first. IsSound ports (middle first)) }
    {
        Ok(Exchange {
            intake: VecDeque::new(alloc),
            routed: List::new(alloc),
            router: Router::new(alloc, ports, echo)?,
            queues: MemoryPorts::new(alloc, ports, queue)?,
        })
    }

    /// Whether the in-queue has room for an item.
    #[tactic(auto, unfolding(crate::specs::Turns::intake_room))]
    pub fn has_room(&self) -> bool
        ensures { result ≡ has_room (middle self.now) }
    {
        self.intake.len() < INTAKE_ROOM
    }

    /// Puts an item into the in-queue.
    pub fn admit(&mut self, item: Item) -> Result<(), Mem>
        ensures { OnOk result (middle self.new ≡ admitted (act item) (middle self.old)) }
    {
        self.intake.push_back(item)?;
        Ok(())
    }

    /// Does the event of the first item that waits, if there is one.
    pub fn route(&mut self) -> Result<(), Mem>
        requires few { self.old.router.items < 2 ^ 62 }
        requires sound { (n : ℕ) × IsSound n (middle self.old) }
        ensures routed { OnOk result (HasRouted (middle self.old).waiting (middle self.old) (middle self.new)) }
        ensures sound { OnOk result ((n : ℕ) → IsSound n (middle self.old) → IsSound n (middle self.new)) }
    {
        let Some(item) = self.intake.pop_front() else {
            return Ok(());
        };
        self.routed.add(share_item(&item)?)?;
        self.router.event(item, &mut self.queues)
    }

    /// Takes the first entry of a port's queue, if there is one, and then tries the Ends that wait
    /// again.
    pub fn pop(&mut self, port: u16) -> Option<Entry>
        requires sound { (n : ℕ) × IsSound n (middle self.old) }
        ensures popped { PopDone port (option_map put result) (middle self.old) (middle self.new) }
        ensures sound { (n : ℕ) → IsSound n (middle self.old) → IsSound n (middle self.new) }
    {
        let Some(entry) = self.queues.pop(port) else {
            return None;
        };
        self.router.retry(&mut self.queues);
        Some(entry)
    }
}
