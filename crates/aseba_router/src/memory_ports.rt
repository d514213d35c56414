ghost use Rattle.std.specs.Prelude.{◌≡◌, ◌==◌, ℕ, [], IfOk, length, replicate, is_err};
ghost use Rattle.aseba_router.specs.Memory.{Popped, empty, queue_at};
ghost use Rattle.aseba_router.specs.Routed.{IsRoomy, Table};

use crate::entry::Entry;
use crate::memory_queue::MemoryQueue;
use crate::ports::Ports;
use aseba_words::Mem;
use std::alloc::Global;
use std::marker::Model;

/// The queues of a hub's ports, in memory. Contracts see the list of them.
#[derive(Drop)]
pub struct MemoryPorts {
    queues: Vec<MemoryQueue>,
}

impl Model for MemoryPorts {
    ghost use Rattle.std.specs.Prelude.{List, map};
    ghost use Rattle.aseba_router.specs.Queue.{Queue};
    ghost use Rattle.aseba_router.specs.Memory.{queue_of};

    ghost Value = { List Queue };

    ghost view = { λ ports. map queue_of ports.queues.items };
}

impl MemoryPorts {
    /// So many ports, whose queues hold this many entries each, and are empty.
    pub fn new(alloc: Global, ports: u16, queue: u32) -> Result<MemoryPorts, Mem>
        ensures made { IfOk result (λ made. made ≡ replicate ports (empty queue)) }
        ensures empty { IfOk result (λ made. (p : ℕ) → (queue_at made p).list ≡ []) }
    {
        let mut queues = Vec::new(alloc);
        for _ in 0..ports {
            queues.push(MemoryQueue::new(alloc, queue as usize)?)?;
        }
        Ok(MemoryPorts { queues })
    }

    /// Takes the first entry of a port's queue: none where it holds nothing or there is no such
    /// port. It takes no memory.
    pub fn pop(&mut self, port: u16) -> Option<Entry>
        ensures popped { Popped port result self.old self.new }
        // Where a router had room, it has room.
        ensures room { (table : Table) → IsRoomy table (queue_at self.old) → IsRoomy table (queue_at self.new) }
    {
        let index = usize::from(port);
        if index >= self.queues.len() {
            return None;
        }
        self.queues[index].pop()
    }
}

impl Ports for MemoryPorts {
    ghost use Rattle.std.specs.Prelude.{◌<◌, ◌^◌, IfErr};
    ghost use Rattle.aseba_router.specs.Queue.{OthersStay, Push};
    ghost use Rattle.aseba_router.specs.Shown.{put};

    ghost ports = { λ ports. length ports };

    ghost queue = { λ ports. queue_at ports };

    fn push(&mut self, port: u16, entry: Entry) -> Result<(), Entry>
        requires there { port < length self.old }
        requires room { length (queue_at self.old port).list < 2 ^ 62 }
        ensures pushed { Push (is_err result) (put entry) (queue_at self.old port) (queue_at self.new port) }
        ensures given_back { IfErr result (λ back. back ≡ entry) }
        ensures others { OthersStay port (queue_at self.old) (queue_at self.new) }
        ensures count { length self.new ≡ length self.old }
        ensures exactly { is_err result
            ≡ (length (queue_at self.old port).list == (queue_at self.old port).capacity) }
    {
        self.queues[usize::from(port)].push(entry)
    }
}
