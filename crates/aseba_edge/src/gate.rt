ghost use Rattle.std.specs.Prelude.{◌≡◌, IfOk, false, nat_le};
ghost use Rattle.aseba_edge.specs.Plan.{next_call};

use crate::watched::Watched;
use aseba_words::Mem;
use std::alloc::Global;
use std::thread;

/// For how many turns an input waits before its gate counts as stuck.
const TURNS: u32 = 1_000_000;

/// What an input in memory waits for at the end of its bytes: that its output has taken a number of
/// bytes. Each of the two has a gate, maybe in the hands of different threads, and both share the
/// number that the output keeps.
#[derive(Drop)]
pub(crate) struct Gate {
    watched: Watched,
    /// How many bytes have to be taken.
    pub until: u64,
    /// How many bytes were taken, as this side told or saw it last.
    pub taken: u64,
    /// For how many turns the input goes on waiting.
    pub turns: u32,
}

impl Gate {
    ghost use Rattle.aseba_edge.specs.Gate.{Waited};

    /// A gate that opens when `until` bytes were taken.
    pub(crate) fn new(alloc: Global, until: u64) -> Result<Gate, Mem>
        ensures until { IfOk result (λ gate. gate.until ≡ until) }
        ensures turns { IfOk result (λ gate. gate.turns ≡ 1000000) }
        ensures taken { IfOk result (λ gate. gate.taken ≡ 0) }
        ensures looks { IfOk result (λ gate. gate.watched.looks ≡ 0) }
    {
        Ok(Gate {
            watched: Watched::new(alloc)?,
            until,
            taken: 0,
            turns: TURNS,
        })
    }

    /// The same gate, for the output.
    pub(crate) fn share(&self) -> Result<Gate, Mem>
        ensures until { IfOk result (λ gate. gate.until ≡ self.now.until) }
        ensures turns { IfOk result (λ gate. gate.turns ≡ self.now.turns) }
        ensures taken { IfOk result (λ gate. gate.taken ≡ self.now.taken) }
        ensures looks { IfOk result (λ gate. gate.watched.looks ≡ 0) }
    {
        Ok(Gate {
            watched: self.watched.share()?,
            until: self.until,
            taken: self.taken,
            turns: self.turns,
        })
    }

    /// Says how many bytes were taken.
    pub(crate) fn tell(&mut self, taken: u64)
        ensures { self.new ≡ record self.old { taken = taken } }
    {
        self.watched.tell(taken);
        self.taken = taken;
    }

    /// Looks whether the gate is open.
    fn look(&mut self) -> bool
        ensures answer { result ≡ nat_le self.new.until self.new.taken }
        ensures looked { self.new.watched.looks ≡ next_call self.old.watched.looks }
        ensures until { self.new.until ≡ self.old.until }
        ensures turns { self.new.turns ≡ self.old.turns }
    {
        self.taken = self.watched.look();
        self.until <= self.taken
    }

    /// Lets others run until the gate is open or no turn is left, and answers whether it is open.
    /// It looks before each turn and behind the last one.
    pub(crate) fn wait(&mut self) -> bool
        ensures answer { result ≡ nat_le self.new.until self.new.taken }
        ensures waited { Waited self.old self.new }
        ensures stuck { result ≡ false → self.new.turns ≡ 0 }
    {
        while !self.look() {
            if self.turns == 0 {
                return false;
            }
            self.turns -= 1;
            thread::yield_now();
        }
        true
    }
}
