ghost use Rattle.std.specs.Prelude.{◌≡◌, ◌<◌, ◌^◌, ℕ, length, is_err, IfErr};
ghost use Rattle.aseba_router.specs.Queue.{OthersStay, Push, Queue};
ghost use Rattle.aseba_router.specs.Shown.{put};

use crate::entry::Entry;

/// The queues of a hub's ports, one for each port.
pub trait Ports {
    /// How many ports there are.
    ghost ports: { Self → ℕ };

    /// What stands in the queue of a port, or was ever pushed to it; how often an entry came back
    /// from it; and how many it holds at most.
    ghost queue: { Self → ℕ → Queue };

    /// Pushes an entry to the end of a port's queue. An entry comes back only where the queue holds
    /// its capacity, and that is counted. It takes no memory.
    fn push(&mut self, port: u16, entry: Entry) -> Result<(), Entry>
        requires there { port < ports self.old }
        requires room { length (queue self.old port).list < 2 ^ 62 }
        ensures pushed { Push (is_err result) (put entry) (queue self.old port) (queue self.new port) }
        ensures given_back { IfErr result (λ back. back ≡ entry) }
        ensures others { OthersStay port (queue self.old) (queue self.new) }
        ensures count { ports self.new ≡ ports self.old };
}
