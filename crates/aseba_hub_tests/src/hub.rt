//! A router with its queues, for tests to call.
ghost use Rattle.std.specs.Prelude.{◌≡◌, length};
ghost use Rattle.aseba_router.specs.Memory.{queue_at};
ghost use Rattle.aseba_router.specs.Routed.{IsRoomy, port_of};
ghost use Rattle.aseba_router.specs.Shown.{act};

use aseba_message::Frame;
use aseba_router::{Entry, Item, MemoryPorts, Router, Session};
use aseba_words::{List, Mem};
use std::alloc::Global;
use std::sync::Arc;

/// A router and as many queues as it has ports.
#[derive(Drop)]
pub struct Hub {
    ports: u16,
    router: Router,
    queues: MemoryPorts,
    ghost count: { length router.ports ≡ ports },
    ghost there: { length queues ≡ ports },
    ghost roomy: { IsRoomy router (queue_at queues) },
}

/// A frame of this kind, with nothing in it.
fn frame(alloc: Global, kind: u16) -> Frame {
    Frame {
        source: 1,
        kind,
        payload: List::new(alloc),
    }
}

impl Hub {
    pub fn new(alloc: Global, ports: u16, queue: u32, echo: bool) -> Result<Hub, Mem> {
        let queues = MemoryPorts::new(alloc, ports, queue)?;
        let router = Router::new(alloc, ports, echo)?;
        Ok(Hub {
            ports,
            router,
            queues,
        })
    }

    /// Takes an item. It does nothing where the port isn't there, or there were a million items.
    fn event(&mut self, item: Item, port: u16) -> Result<(), Mem>
        requires { port_of (act item) ≡ port }
    {
        if self.router.items() >= 1_000_000 || port >= self.ports {
            return Ok(());
        }
        self.router.event(item, &mut self.queues)
    }

    pub fn join(&mut self, session: Session) -> Result<(), Mem> {
        self.event(Item::Join(session), session.port)
    }

    pub fn say(&mut self, alloc: Global, session: Session, kind: u16) -> Result<(), Mem> {
        let said = Arc::new(alloc, frame(alloc, kind))?;
        self.event(Item::Said(session, said), session.port)
    }

    pub fn leave(&mut self, session: Session) -> Result<(), Mem> {
        self.event(Item::Leave(session), session.port)
    }

    /// The kind of the first frame of a port's queue, or none where an End comes first.
    pub fn pop(&mut self, port: u16) -> Option<Option<u16>> {
        match self.queues.pop(port)? {
            Entry::Frame(frame) => Some(Some(frame.kind)),
            Entry::End(_) => Some(None),
        }
    }

    pub fn retry(&mut self) {
        if self.router.items() < 1_000_000 {
            self.router.retry(&mut self.queues);
        }
    }

    pub fn full_at(&self, port: u16) -> Option<u64> {
        self.router.full_at(port)
    }

    pub fn items(&self) -> u64 {
        self.router.items()
    }
}
