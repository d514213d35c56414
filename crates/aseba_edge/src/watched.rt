ghost use Rattle.std.specs.Prelude.{◌≡◌, ◌<◌, ◌^◌, IfOk};
ghost use Rattle.aseba_edge.specs.Plan.{next_call};

use aseba_words::Mem;
use std::alloc::Global;
use std::sync::Arc;
use std::sync::atomic::{AtomicU64, Ordering};

/// A number that two sides share: one tells it and the other looks at it, maybe on different
/// threads. Each side counts how often it looked, which nothing else here can do. The count stands
/// still at its end.
#[derive(Drop)]
pub(crate) struct Watched {
    number: Arc<AtomicU64>,
    looks: u64,
    ghost counted: { looks < 2 ^ 64 },
}

impl Watched {
    /// The number 0.
    pub fn new(alloc: Global) -> Result<Watched, Mem>
        ensures { IfOk result (λ watched. watched.looks ≡ 0) }
    {
        let number = Arc::new(alloc, AtomicU64::new(0))?;
        Ok(Watched { number, looks: 0 })
    }

    /// The same number, for the other side.
    pub fn share(&self) -> Result<Watched, Mem>
        ensures { IfOk result (λ watched. watched.looks ≡ 0) }
    {
        let number = Arc::try_clone(&self.number)?;
        Ok(Watched { number, looks: 0 })
    }

    /// Says what the number is now.
    pub fn tell(&self, number: u64) {
        self.number.store(number, Ordering::SeqCst);
    }

    /// Looks what the number is now.
    pub fn look(&mut self) -> u64
        ensures { self.new.looks ≡ next_call self.old.looks }
    {
        self.looks = self.looks.saturating_add(1);
        self.number.load(Ordering::SeqCst)
    }
}
