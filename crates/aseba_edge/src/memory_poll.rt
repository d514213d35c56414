ghost use Rattle.std.specs.Prelude.{◌≡◌, ◌<◌, ◌^◌, IfOk, Some, [], false, true, length, refl};
ghost use Rattle.aseba_edge.specs.Counts.{Counts};
ghost use Rattle.aseba_edge.specs.Link.{IsInRoom, IsPolled, after_poll, is_failed, next_given};
ghost use Rattle.aseba_edge.specs.Plan.{after_call, is_named, next_call};
ghost use Rattle.aseba_edge.specs.PollTape.{full};

use crate::plan::Plan;
use crate::poll::{LinkPoll, PollAnswer, Polled};
use crate::poll_tape::PollTape;
use aseba_words::{List, Mem};
use std::alloc::Global;

/// The input of a link in memory, for one who polls it. It gives its answers one by one. Given polls
/// fail, the first being number 1.
#[derive(Drop)]
pub struct MemoryPoll {
    tape: PollTape,
    mark: u64,
    plan: Plan,
    ghost counted: { plan.faults < 2 ^ 64 },
}

impl MemoryPoll {
    /// An input of these answers, without pieces that are empty.
    pub(crate) fn new(
        alloc: Global,
        mark: u64,
        answers: &[PollAnswer],
        failing: List<u64>,
    ) -> Result<MemoryPoll, Mem>
        ensures tape { IfOk result (λ input. input.tape ≡
            record { given = []; left = full answers.now; has_ended = false }) }
        ensures mark { IfOk result (λ input. input.mark ≡ mark) }
        ensures plan { IfOk result (λ input.
            input.plan ≡ record { failing = failing; calls = 0; faults = 0 }) }
    {
        Ok(MemoryPoll {
            tape: PollTape::new(alloc, answers)?,
            mark,
            plan: Plan::new(failing),
        })
    }
}

impl MemoryPoll {
    /// The number that its script gave the link, by which its user tells it from others.
    pub fn mark(&self) -> u64
        ensures { result ≡ self.now.mark }
    {
        self.mark
    }

    /// How many polls have failed.
    pub fn faults(&self) -> u64
        ensures { result ≡ self.now.plan.faults }
    {
        self.plan.faults
    }
}

impl LinkPoll for MemoryPoll {
    ghost contents = { λ input. Some input.tape };

    ghost mark = { λ input. Some input.mark };

    ghost faults = { λ input. input.plan.faults };

    ghost tells_mark = { λ _. refl };

    ghost bounds_faults = { λ input. input.counted };

    fn poll(&mut self, buf: &mut [u8]) -> Polled
        requires { 0 < length buf.old }
        ensures fits { IsInRoom (length buf.old) result }
        ensures answer { IsPolled (next_given (length buf.old) self.old.tape.left) result buf.new }
        ensures given { self.new.tape ≡ after_poll (length buf.old) result self.old.tape }
        ensures mark { self.new.mark ≡ self.old.mark }
        ensures count { Counts (is_failed result) self.old.plan.faults self.new.plan.faults }
        ensures fails { is_failed result ≡
            is_named self.old.plan.failing (next_call self.old.plan.calls) }
        ensures plan { self.new.plan ≡ after_call (is_failed result) self.old.plan }
    {
        if self.plan.begin() {
            self.plan.fail();
            return Polled::Failed;
        }
        self.tape.poll(buf)
    }
}
