ghost use Rattle.std.specs.Prelude.{◌≡◌, ◌<◌, ◌^◌, None, true, false};

use crate::clock::Clock;
use std::time::{Duration, Instant};
use std::{thread, time};

/// The system's clock. Its time counts from when it was made.
#[derive(Drop)]
pub struct SystemClock<R> {
    rt: R,
    start: Option<Instant>,
    floor: u64,
    has_answered: bool,
}

impl<R: time::Clock> SystemClock<R> {
    /// Takes no memory. Where the system can't be asked, no time passes.
    pub fn new(rt: R) -> SystemClock<R>
        ensures floor { result.floor ≡ 0 }
        ensures fresh { result.has_answered ≡ false }
    {
        let start = Instant::now(&rt).ok();
        SystemClock {
            rt,
            start,
            floor: 0,
            has_answered: false,
        }
    }

    /// The milliseconds since the start, by the system.
    fn reading(&self) -> u64
        ensures { result < 2 ^ 63 }
    {
        let (Some(start), Ok(now)) = (self.start, Instant::now(&self.rt)) else {
            return 0;
        };
        let passed = now.duration_since(start).as_millis();
        u64::try_from(passed).unwrap_or(u64::MAX).min(u64::MAX / 2)
    }
}

impl<R: time::Clock> Clock for SystemClock<R> {
    ghost floor = { λ clock. clock.floor };

    ghost has_answered = { λ clock. clock.has_answered };

    ghost answers = { λ _. None };

    fn now_ms(&mut self) -> u64 {
        let answer = self.reading().max(self.floor);
        self.floor = answer;
        self.has_answered = true;
        answer
    }

    fn wait_until(&mut self, ms: u64) {
        let left = ms.saturating_sub(self.reading().max(self.floor));
        thread::sleep(&self.rt, Duration::from_millis(left));
        self.floor = self.floor.max(ms);
    }
}
