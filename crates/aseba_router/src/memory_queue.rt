ghost use Rattle.std.specs.Prelude.{◌≡◌, ◌∷◌, ◌++◌, ◌<◌, ◌≤◌, ◌==◌, length, map, is_err, is_some, nat_lt, IfErr, option_map, option_to_list};
ghost use Rattle.std.specs.VecDeque.{deque_capacity};
ghost use Rattle.aseba_edge.specs.Counts.{Counts};
ghost use Rattle.aseba_router.specs.Shown.{put};

use crate::entry::Entry;
use aseba_words::Mem;
use std::alloc::Global;
use std::collections::VecDeque;

/// A queue in memory. It has room for all that it may hold.
#[derive(Drop)]
pub(crate) struct MemoryQueue {
    pub entries: VecDeque<Entry>,
    pub refusals: u64,
    pub capacity: usize,
    ghost room: { capacity ≤ deque_capacity entries },
    ghost within: { length entries.items ≤ capacity },
}

impl MemoryQueue {
    ghost use Rattle.std.specs.Prelude.{IfOk, []};
    ghost use Rattle.aseba_router.specs.Memory.{queue_of};
    ghost use Rattle.aseba_router.specs.Queue.{Push};

    pub fn new(alloc: Global, capacity: usize) -> Result<MemoryQueue, Mem>
        ensures { IfOk result (λ queue. queue_of queue ≡ record { list = []; refusals = 0; capacity = capacity }) }
    {
        let entries = VecDeque::with_capacity(alloc, capacity)?;
        Ok(MemoryQueue {
            entries,
            refusals: 0,
            capacity,
        })
    }

    pub fn push(&mut self, entry: Entry) -> Result<(), Entry>
        ensures pushed { Push (is_err result) (put entry) (queue_of self.old) (queue_of self.new) }
        ensures given_back { IfErr result (λ back. back ≡ entry) }
        ensures exactly { is_err result ≡ (length self.old.entries.items == self.old.capacity) }
    {
        if self.entries.len() == self.capacity {
            self.refusals = self.refusals.saturating_add(1);
            return Err(entry);
        }
        self.entries.push_back_reserved(entry);
        Ok(())
    }

    pub fn pop(&mut self) -> Option<Entry>
        ensures list { map put self.old.entries.items
            ≡ option_to_list (option_map put result) ++ map put self.new.entries.items }
        ensures some { is_some result ≡ nat_lt 0 (length self.old.entries.items) }
        ensures rest { queue_of self.new ≡
            record (queue_of self.old) { list = map put self.new.entries.items } }
    {
        self.entries.pop_front()
    }
}
