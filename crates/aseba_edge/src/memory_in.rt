ghost use Rattle.std.specs.Prelude.{◌≡◌, ◌<◌, ◌≤◌, ◌^◌, IfOk, IsErr, IsOk, OnErr, OnOk, Some, None, [], false, true, is_err, length, refl, take};
ghost use Rattle.aseba_edge.specs.Counts.{Counts};
ghost use Rattle.aseba_edge.specs.Gate.{HasWaited, IsOpen, IsStuck, turns_of, until_of};
ghost use Rattle.aseba_edge.specs.Link.{after_read, is_empty, next_bytes};
ghost use Rattle.aseba_edge.specs.Plan.{after_call, is_named, next_call};
ghost use Rattle.aseba_edge.specs.Tape.{full};

use crate::gate::Gate;
use crate::link::{LinkFault, LinkIn};
use crate::plan::Plan;
use crate::tape::Tape;
use aseba_words::{List, Mem};
use std::alloc::Global;

/// The input of a link in memory. It gives its pieces one by one. Given reads fail, the first being
/// number 1. One with a gate waits at the end of its bytes until its output has taken a number of
/// bytes, and fails where that hasn't come in 1,000,000 turns. A read into an empty buffer asks no
/// gate.
#[derive(Drop)]
pub struct MemoryIn {
    tape: Tape,
    mark: u64,
    plan: Plan,
    gate: Option<Gate>,
    ghost counted: { plan.faults < 2 ^ 64 },
}

impl MemoryIn {
    /// An input of these pieces, without those that are empty.
    pub(crate) fn new(
        alloc: Global,
        mark: u64,
        pieces: &[List<u8>],
        failing: List<u64>,
        gate: Option<Gate>,
    ) -> Result<MemoryIn, Mem>
        ensures tape { IfOk result (λ input. input.tape ≡
            record { given = []; left = full pieces.now; has_ended = false }) }
        ensures mark { IfOk result (λ input. input.mark ≡ mark) }
        ensures plan { IfOk result (λ input.
            input.plan ≡ record { failing = failing; calls = 0; faults = 0 }) }
        ensures gate { IfOk result (λ input. input.gate ≡ gate) }
    {
        Ok(MemoryIn {
            tape: Tape::new(alloc, pieces)?,
            mark,
            plan: Plan::new(failing),
            gate,
        })
    }

    /// Whether nothing keeps the input from its end. At the end of its bytes it waits at its gate.
    fn is_open(&mut self) -> bool
        ensures free { self.old.gate ≡ None → result ≡ true }
        ensures before { is_empty self.old.tape.left ≡ false → result ≡ true }
        ensures open { result ≡ true → is_empty self.old.tape.left ≡ true → IsOpen self.new.gate }
        ensures stuck { result ≡ false → IsStuck self.new.gate }
        ensures waited { is_empty self.old.tape.left ≡ true → HasWaited self.old.gate self.new.gate }
        ensures passed { is_empty self.old.tape.left ≡ false → self.new.gate ≡ self.old.gate }
        ensures until { until_of self.new.gate ≡ until_of self.old.gate }
        ensures turns { turns_of self.new.gate ≤ turns_of self.old.gate }
        ensures rest { self.new ≡ record self.old { gate = self.new.gate } }
    {
        if !self.tape.is_at_end() {
            return true;
        }
        match &mut self.gate {
            Some(gate) => gate.wait(),
            None => true,
        }
    }

    /// Counts a fault.
    fn fail(&mut self) -> LinkFault
        ensures count { Counts true self.old.plan.faults self.new.plan.faults }
        ensures faults { self.new.plan ≡
            record self.old.plan { faults = next_call self.old.plan.faults } }
        ensures rest { self.new ≡ record self.old { plan = self.new.plan; counted = self.new.counted } }
    {
        self.plan.fail();
        LinkFault
    }
}

impl MemoryIn {
    /// The number that its script gave the link, by which its user tells it from others.
    pub fn mark(&self) -> u64
        ensures { result ≡ self.now.mark }
    {
        self.mark
    }

    /// How many reads have failed.
    pub fn faults(&self) -> u64
        ensures { result ≡ self.now.plan.faults }
    {
        self.plan.faults
    }
}

impl LinkIn for MemoryIn {
    ghost contents = { λ input. Some input.tape };

    ghost mark = { λ input. Some input.mark };

    ghost faults = { λ input. input.plan.faults };

    ghost tells_mark = { λ _. refl };

    ghost bounds_faults = { λ input. input.counted };

    fn read(&mut self, buf: &mut [u8]) -> Result<usize, LinkFault>
        ensures fits { IfOk result (λ count. count ≤ length buf.old) }
        ensures bytes { IfOk result (λ count.
            take count buf.new ≡ next_bytes (length buf.old) self.old.tape.left) }
        ensures end { IfOk result (λ count.
            count ≡ 0 → 0 < length buf.old → self.old.tape.left ≡ []) }
        ensures given { OnOk result (self.new.tape ≡ after_read (length buf.old) self.old.tape) }
        ensures kept { OnErr result (self.new.tape ≡ self.old.tape) }
        ensures mark { self.new.mark ≡ self.old.mark }
        ensures count { Counts (is_err result) self.old.plan.faults self.new.plan.faults }
        ensures named { is_named self.old.plan.failing (next_call self.old.plan.calls) ≡ true →
            IsErr result }
        ensures free { is_named self.old.plan.failing (next_call self.old.plan.calls) ≡ false →
            self.old.gate ≡ None → IsOk result }
        ensures before { is_named self.old.plan.failing (next_call self.old.plan.calls) ≡ false →
            is_empty self.old.tape.left ≡ false → IsOk result }
        ensures open { IfOk result (λ count.
            count ≡ 0 → 0 < length buf.old → IsOpen self.new.gate) }
        ensures stuck { is_named self.old.plan.failing (next_call self.old.plan.calls) ≡ false →
            IsErr result → IsStuck self.new.gate }
        ensures waited { is_named self.old.plan.failing (next_call self.old.plan.calls) ≡ false →
            0 < length buf.old → is_empty self.old.tape.left ≡ true →
            HasWaited self.old.gate self.new.gate }
        ensures passed { is_named self.old.plan.failing (next_call self.old.plan.calls) ≡ true →
            self.new.gate ≡ self.old.gate }
        ensures before_end { is_empty self.old.tape.left ≡ false →
            self.new.gate ≡ self.old.gate }
        ensures until { until_of self.new.gate ≡ until_of self.old.gate }
        ensures turns { turns_of self.new.gate ≤ turns_of self.old.gate }
        ensures no_room { is_named self.old.plan.failing (next_call self.old.plan.calls) ≡ false →
            length buf.old ≡ 0 → IsOk result }
        ensures untouched { length buf.old ≡ 0 →
            self.new ≡ record self.old { plan = self.new.plan; counted = self.new.counted } }
        ensures plan { self.new.plan ≡ after_call (is_err result) self.old.plan }
    {
        if self.plan.begin() {
            return Err(self.fail());
        }
        if buf.is_empty() {
            return Ok(0);
        }
        if !self.is_open() {
            return Err(self.fail());
        }
        Ok(self.tape.read(buf))
    }
}
