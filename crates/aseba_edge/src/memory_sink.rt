ghost use Rattle.std.specs.Prelude.{◌≡◌, ◌<◌, ◌≤◌, ◌^◌, [], Some, OnOk, IfOk, IfErr, is_err, vec_len, vec_capacity};
ghost use Rattle.aseba_edge.specs.Counts.{Counts};
ghost use Rattle.aseba_edge.specs.Plan.{after_call};
ghost use Rattle.aseba_edge.specs.Sink.{Took, TookFewer};

use crate::plan::Plan;
use crate::sink::{PutFault, Sink};
use aseba_words::{List, Mem};
use std::alloc::Global;

/// A sink in memory, with room for a number of bytes. A put that would pass it takes what there is
/// room for, and fails. Given calls fail too, the first being number 1, and take nothing.
#[derive(Debug, Drop)]
pub struct MemorySink {
    bytes: Vec<u8>,
    room: usize,
    plan: Plan,
    ghost fits: { vec_len bytes ≤ room },
    ghost reserved: { room ≤ vec_capacity bytes },
    pub ghost counted: { plan.faults < 2 ^ 64 },
}

impl MemorySink {
    /// An empty sink. The room is taken from memory here, so a put takes none.
    pub fn new(alloc: Global, room: usize, failing: List<u64>) -> Result<MemorySink, Mem>
        ensures empty { IfOk result (λ sink. sink.bytes.items ≡ []) }
        ensures room { IfOk result (λ sink. sink.room ≡ room) }
        ensures plan { IfOk result (λ sink. sink.plan ≡ record { failing = failing; calls = 0; faults = 0 }) }
    {
        let bytes = Vec::with_capacity(alloc, room)?;
        Ok(MemorySink {
            bytes,
            room,
            plan: Plan::new(failing),
        })
    }

    /// The bytes taken so far.
    pub fn bytes(&self) -> &[u8]
        ensures { result.now ≡ self.now.bytes.items }
    {
        self.bytes.as_slice()
    }

    /// How many puts have failed.
    pub fn faults(&self) -> u64
        ensures { result ≡ self.now.plan.faults }
    {
        self.plan.faults
    }
}

impl Sink for MemorySink {
    ghost use Rattle.aseba_edge.specs.MemorySink.{put_answer};

    ghost taken = { λ sink. Some sink.bytes.items };

    ghost faults = { λ sink. sink.plan.faults };

    ghost bounds_faults = { λ sink. sink.counted };

    fn put(&mut self, piece: &[u8]) -> Result<(), PutFault>
        ensures whole { OnOk result
            (Took (Some self.old.bytes.items) piece.now (Some self.new.bytes.items)) }
        ensures part { IfErr result (λ fault. TookFewer fault.taken
            (Some self.old.bytes.items) piece.now (Some self.new.bytes.items)) }
        ensures count { Counts (is_err result) self.old.plan.faults self.new.plan.faults }
        ensures answer { result ≡ put_answer self.old piece.now }
        ensures room { self.new.room ≡ self.old.room }
        ensures plan { self.new.plan ≡ after_call (is_err result) self.old.plan }
    {
        let left = self.room - self.bytes.len();
        let room = if self.plan.begin() { 0 } else { left };
        let taken = piece.len().min(room);
        if self.bytes.extend_from_slice(&piece[..taken]).is_err() {
            unreachable!("the room was reserved");
        }
        if taken < piece.len() {
            self.plan.fail();
            return Err(PutFault { taken });
        }
        Ok(())
    }
}
