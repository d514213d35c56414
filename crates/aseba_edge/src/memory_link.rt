ghost use Rattle.std.specs.Prelude.{◌≡◌, [], false};

use crate::gate::Gate;
use crate::memory_in::MemoryIn;
use crate::memory_out::MemoryOut;
use crate::memory_poll::MemoryPoll;
use crate::poll::PollAnswer;
use aseba_words::{List, Mem};
use std::alloc::Global;

/// How the two ends of a link in memory behave.
#[derive(Debug, Drop)]
pub struct LinkScript {
    /// By what the link is known.
    pub mark: u64,
    /// The numbers of the reads or polls that are to fail, the first being number 1.
    pub failing_reads: List<u64>,
    /// How many bytes the output takes.
    pub room: usize,
    /// The numbers of the puts that are to fail, the first being number 1.
    pub failing_puts: List<u64>,
}

impl LinkScript {
    /// A link on which no call fails before its room is taken. It takes no memory.
    pub fn new(alloc: Global, mark: u64, room: usize) -> LinkScript
        ensures { result ≡ record { mark = mark; failing_reads = []; room = room; failing_puts = [] } }
    {
        LinkScript {
            mark,
            failing_reads: List::new(alloc),
            room,
            failing_puts: List::new(alloc),
        }
    }
}

/// A fresh link in memory, for a dialer to give.
#[derive(Drop)]
pub struct MemoryLink {
    pub input: MemoryIn,
    pub output: MemoryOut,
    ghost unread: { input.tape.given ≡ [] },
    ghost not_ended: { input.tape.has_ended ≡ false },
    ghost no_read_failed: { input.plan.faults ≡ 0 },
    ghost none_taken: { output.sink.bytes.items ≡ [] },
    ghost no_put_failed: { output.sink.plan.faults ≡ 0 },
    ghost not_hung_up: { output.hang_ups ≡ 0 },
    ghost same_mark: { input.mark ≡ output.mark },
}

impl MemoryLink {
    ghost use Rattle.std.specs.Prelude.{IfOk, None};
    ghost use Rattle.aseba_edge.specs.Gate.{IsGated};
    ghost use Rattle.aseba_edge.specs.Tape.{full};

    /// A link whose input gives these pieces and ends then.
    pub fn new(alloc: Global, script: LinkScript, pieces: &[List<u8>]) -> Result<MemoryLink, Mem>
        ensures left { IfOk result (λ link. link.input.tape.left ≡ full pieces.now) }
        ensures mark { IfOk result (λ link. link.input.mark ≡ script.mark) }
        ensures room { IfOk result (λ link. link.output.sink.room ≡ script.room) }
        ensures reads { IfOk result (λ link. link.input.plan ≡
            record { failing = script.failing_reads; calls = 0; faults = 0 }) }
        ensures puts { IfOk result (λ link. link.output.sink.plan ≡
            record { failing = script.failing_puts; calls = 0; faults = 0 }) }
        ensures free { IfOk result (λ link.
            (link.input.gate ≡ None) × (link.output.gate ≡ None)) }
    {
        let LinkScript {
            mark,
            failing_reads,
            room,
            failing_puts,
        } = script;
        Ok(MemoryLink {
            input: MemoryIn::new(alloc, mark, pieces, failing_reads, None)?,
            output: MemoryOut::new(alloc, mark, room, failing_puts, None)?,
        })
    }

    /// A link whose input gives these pieces, and ends when its output has taken `until` bytes. It
    /// fails where that hasn't come in 1,000,000 turns.
    pub fn gated(
        alloc: Global,
        script: LinkScript,
        pieces: &[List<u8>],
        until: u64,
    ) -> Result<MemoryLink, Mem>
        ensures left { IfOk result (λ link. link.input.tape.left ≡ full pieces.now) }
        ensures mark { IfOk result (λ link. link.input.mark ≡ script.mark) }
        ensures room { IfOk result (λ link. link.output.sink.room ≡ script.room) }
        ensures reads { IfOk result (λ link. link.input.plan ≡
            record { failing = script.failing_reads; calls = 0; faults = 0 }) }
        ensures puts { IfOk result (λ link. link.output.sink.plan ≡
            record { failing = script.failing_puts; calls = 0; faults = 0 }) }
        ensures gate { IfOk result (λ link. IsGated until 1000000 link.input.gate) }
        ensures tells { IfOk result (λ link. IsGated until 1000000 link.output.gate) }
    {
        let LinkScript {
            mark,
            failing_reads,
            room,
            failing_puts,
        } = script;
        let gate = Gate::new(alloc, until)?;
        let shared = gate.share()?;
        Ok(MemoryLink {
            input: MemoryIn::new(alloc, mark, pieces, failing_reads, Some(gate))?,
            output: MemoryOut::new(alloc, mark, room, failing_puts, Some(shared))?,
        })
    }
}

/// A fresh link in memory with a polled input, for a dialer to give.
#[derive(Drop)]
pub struct MemoryPolledLink {
    pub input: MemoryPoll,
    pub output: MemoryOut,
    ghost unread: { input.tape.given ≡ [] },
    ghost not_ended: { input.tape.has_ended ≡ false },
    ghost no_poll_failed: { input.plan.faults ≡ 0 },
    ghost none_taken: { output.sink.bytes.items ≡ [] },
    ghost no_put_failed: { output.sink.plan.faults ≡ 0 },
    ghost not_hung_up: { output.hang_ups ≡ 0 },
    ghost same_mark: { input.mark ≡ output.mark },
}

impl MemoryPolledLink {
    ghost use Rattle.std.specs.Prelude.{IfOk};
    ghost use Rattle.aseba_edge.specs.PollTape.{full};

    /// A link whose input gives these answers and ends then.
    pub fn new(
        alloc: Global,
        script: LinkScript,
        answers: &[PollAnswer],
    ) -> Result<MemoryPolledLink, Mem>
        ensures left { IfOk result (λ link. link.input.tape.left ≡ full answers.now) }
        ensures mark { IfOk result (λ link. link.input.mark ≡ script.mark) }
        ensures room { IfOk result (λ link. link.output.sink.room ≡ script.room) }
        ensures polls { IfOk result (λ link. link.input.plan ≡
            record { failing = script.failing_reads; calls = 0; faults = 0 }) }
        ensures puts { IfOk result (λ link. link.output.sink.plan ≡
            record { failing = script.failing_puts; calls = 0; faults = 0 }) }
    {
        let LinkScript {
            mark,
            failing_reads,
            room,
            failing_puts,
        } = script;
        Ok(MemoryPolledLink {
            input: MemoryPoll::new(alloc, mark, answers, failing_reads)?,
            output: MemoryOut::new(alloc, mark, room, failing_puts, None)?,
        })
    }
}
