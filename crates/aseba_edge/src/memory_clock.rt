ghost use Rattle.std.specs.Prelude.{◌≡◌, ◌<◌, ◌≤◌, ◌^◌, ◌∷◌, drop, false, true, IfSome, max, vec_len};
ghost use Rattle.aseba_edge.specs.Clock.{IsNext, left_behind, lifted};
ghost use Rattle.aseba_edge.specs.Rising.{rising};

use crate::clock::Clock;
use aseba_words::List;

/// A clock in memory. It gives its answers one after the other and repeats its last one. One that
/// is lower than the floor is lifted to it, so that the time never falls.
#[derive(Debug, Drop)]
pub struct MemoryClock {
    next: u64,
    later: List<u64>,
    index: usize,
    floor: u64,
    has_answered: bool,
    ghost below: { has_answered ≡ false → next < 2 ^ 63 },
}

impl MemoryClock {
    /// A clock whose first answer is `first`. It takes no memory.
    pub fn new(first: u64, later: List<u64>) -> MemoryClock
        requires { first < 2 ^ 63 }
        ensures answers { rising result.floor (result.next ∷ drop result.index result.later) ≡ rising 0 (first ∷ later) }
        ensures floor { result.floor ≡ 0 }
        ensures fresh { result.has_answered ≡ false }
    {
        MemoryClock {
            next: first,
            later,
            index: 0,
            floor: 0,
            has_answered: false,
        }
    }
}

impl Clock for MemoryClock {
    ghost use Rattle.std.specs.Prelude.{Some};

    ghost floor = { λ clock. clock.floor };

    ghost has_answered = { λ clock. clock.has_answered };

    ghost answers = { λ clock. Some (rising clock.floor (clock.next ∷ drop clock.index clock.later)) };

    fn now_ms(&mut self) -> u64 {
        let answer = self.next.max(self.floor);
        self.floor = answer;
        self.has_answered = true;
        if let Some(next) = self.later.as_slice().get(self.index) {
            self.next = *next;
            self.index += 1;
        }
        answer
    }

    fn wait_until(&mut self, ms: u64) {
        self.floor = self.floor.max(ms);
    }
}
