ghost use Rattle.std.specs.Prelude.{◌≡◌, ◌<◌, ◌≤◌, ◌^◌, ℕ, List, Option, option_map, IfSome, Bool, true, false};
ghost use Rattle.aseba_edge.specs.Clock.{IsNext, left_behind, lifted};

/// A clock whose time, in milliseconds, never falls.
pub trait Clock {
    /// The time below which no answer falls.
    ghost floor: { Self → ℕ };

    /// Whether it has been asked for the time yet.
    ghost has_answered: { Self → Bool };

    /// The answers that it has left, where that is told.
    ghost answers: { Self → Option (List ℕ) };

    /// The time. The first answer is below 2^63, unless the floor wasn't. It takes no memory.
    fn now_ms(&mut self) -> u64
        ensures rises { floor self.old ≤ result }
        ensures floor { floor self.new ≡ result }
        ensures first { has_answered self.old ≡ false → floor self.old < 2 ^ 63 → result < 2 ^ 63 }
        ensures answered { has_answered self.new ≡ true }
        ensures answer { IfSome (answers self.old) (λ left. IsNext left result) }
        ensures left { answers self.new ≡ option_map left_behind (answers self.old) };

    /// Waits until the time is at least `ms`. It takes no memory.
    fn wait_until(&mut self, ms: u64)
        ensures rises { floor self.old ≤ floor self.new }
        ensures waited { ms ≤ floor self.new }
        ensures answered { has_answered self.new ≡ has_answered self.old }
        ensures left { answers self.new ≡ option_map (lifted ms) (answers self.old) };
}
