ghost use Rattle.std.specs.Prelude.{◌≡◌, IfErr, IfOk, OnOk, Some, [], is_err, option_map, refl, vec_len};
ghost use Rattle.aseba_edge.specs.Counts.{Counts};
ghost use Rattle.aseba_edge.specs.Gate.{taken_of, turns_of, until_of};
ghost use Rattle.aseba_edge.specs.MemorySink.{put_answer};
ghost use Rattle.aseba_edge.specs.Plan.{after_call, next_call};
ghost use Rattle.aseba_edge.specs.Sink.{Took, TookFewer};

use crate::gate::Gate;
use crate::link::LinkOut;
use crate::memory_sink::MemorySink;
use crate::sink::{PutFault, Sink};
use aseba_words::{List, Mem};
use std::alloc::Global;

/// The output of a link in memory. It takes what a sink in memory takes, and tells the gate of its
/// input, if that has one.
#[derive(Drop)]
pub struct MemoryOut {
    sink: MemorySink,
    mark: u64,
    gate: Option<Gate>,
    hang_ups: u64,
}

impl MemoryOut {
    pub(crate) fn new(
        alloc: Global,
        mark: u64,
        room: usize,
        failing: List<u64>,
        gate: Option<Gate>,
    ) -> Result<MemoryOut, Mem>
        ensures empty { IfOk result (λ output. output.sink.bytes.items ≡ []) }
        ensures room { IfOk result (λ output. output.sink.room ≡ room) }
        ensures mark { IfOk result (λ output. output.mark ≡ mark) }
        ensures plan { IfOk result (λ output.
            output.sink.plan ≡ record { failing = failing; calls = 0; faults = 0 }) }
        ensures gate { IfOk result (λ output. output.gate ≡ gate) }
        ensures hang_ups { IfOk result (λ output. output.hang_ups ≡ 0) }
    {
        Ok(MemoryOut {
            sink: MemorySink::new(alloc, room, failing)?,
            mark,
            gate,
            hang_ups: 0,
        })
    }

    /// The bytes taken so far.
    pub fn bytes(&self) -> &[u8]
        ensures { result.now ≡ self.now.sink.bytes.items }
    {
        self.sink.bytes()
    }

    /// The number that its script gave the link, by which its user tells it from others.
    pub fn mark(&self) -> u64
        ensures { result ≡ self.now.mark }
    {
        self.mark
    }

    /// How many puts have failed.
    pub fn faults(&self) -> u64
        ensures { result ≡ self.now.sink.plan.faults }
    {
        self.sink.faults()
    }

    /// How often it was asked to hang up. The count stands still at its end.
    pub fn hang_ups(&self) -> u64
        ensures { result ≡ self.now.hang_ups }
    {
        self.hang_ups
    }
}

impl LinkOut for MemoryOut {
    ghost taken = { λ output. Some output.sink.bytes.items };

    ghost mark = { λ output. Some output.mark };

    ghost faults = { λ output. output.sink.plan.faults };

    ghost tells_mark = { λ _. refl };

    ghost bounds_faults = { λ output. output.sink.counted };

    fn put(&mut self, piece: &[u8]) -> Result<(), PutFault>
        ensures whole { OnOk result
            (Took (Some self.old.sink.bytes.items) piece.now (Some self.new.sink.bytes.items)) }
        ensures part { IfErr result (λ fault. TookFewer fault.taken
            (Some self.old.sink.bytes.items) piece.now (Some self.new.sink.bytes.items)) }
        ensures mark { self.new.mark ≡ self.old.mark }
        ensures count { Counts (is_err result) self.old.sink.plan.faults self.new.sink.plan.faults }
        ensures answer { result ≡ put_answer self.old.sink piece.now }
        ensures told { taken_of self.new.gate ≡
            option_map (λ _. vec_len self.new.sink.bytes) self.old.gate }
        ensures until { until_of self.new.gate ≡ until_of self.old.gate }
        ensures turns { turns_of self.new.gate ≡ turns_of self.old.gate }
        ensures room { self.new.sink.room ≡ self.old.sink.room }
        ensures hang_ups { self.new.hang_ups ≡ self.old.hang_ups }
        ensures plan { self.new.sink.plan ≡ after_call (is_err result) self.old.sink.plan }
    {
        let answer = self.sink.put(piece);
        if let Some(gate) = &mut self.gate {
            gate.tell(self.sink.bytes().len() as u64);
        }
        answer
    }

    fn hang_up(&mut self)
        ensures { self.new ≡ record self.old { hang_ups = next_call self.old.hang_ups } }
    {
        self.hang_ups = self.hang_ups.saturating_add(1);
    }
}
