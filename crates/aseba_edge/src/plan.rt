ghost use Rattle.std.specs.Prelude.{◌≡◌, true};
ghost use Rattle.aseba_edge.specs.Counts.{Counts};
ghost use Rattle.aseba_edge.specs.Plan.{is_named, next_call};

use aseba_words::List;

/// The calls of an object in memory: which are to fail, how many have been made and how many have
/// failed. The first call has number 1. The two counts stand still at their end.
#[derive(Debug, Drop)]
pub(crate) struct Plan {
    pub failing: List<u64>,
    pub calls: u64,
    pub faults: u64,
}

impl Plan {
    pub fn new(failing: List<u64>) -> Plan
        ensures { result ≡ record { failing = failing; calls = 0; faults = 0 } }
    {
        Plan {
            failing,
            calls: 0,
            faults: 0,
        }
    }

    /// Counts a call, and says whether it is to fail.
    pub fn begin(&mut self) -> bool
        ensures fails { result ≡ is_named self.old.failing (next_call self.old.calls) }
        ensures counted { self.new ≡ record self.old { calls = next_call self.old.calls } }
    {
        self.calls = self.calls.saturating_add(1);
        self.failing.as_slice().contains(&self.calls)
    }

    /// Counts a failure.
    pub fn fail(&mut self)
        ensures rose { Counts true self.old.faults self.new.faults }
        ensures rest { self.new ≡ record self.old { faults = next_call self.old.faults } }
    {
        self.faults = self.faults.saturating_add(1);
    }
}
