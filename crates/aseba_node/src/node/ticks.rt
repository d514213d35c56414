//! What a node does of its own.
ghost use Rattle.std.specs.Prelude.{◌≡◌, IfOk, OnOk, length};
ghost use Rattle.aseba_vm.specs.Sending.{SendsInside};
ghost use Rattle.aseba_vm.specs.declared.tick.Tick.TheVariants.{Sent};
ghost use Rattle.aseba_node.specs.Delivered.{ran, sending, stopping, ticked_node};
ghost use Rattle.aseba_node.specs.Told.{fault_text, notice_of};

use crate::cells::words_of;
use crate::node::Node;
use aseba_debug::Command;
use aseba_payload::Payload;
use aseba_vm::{NodeFault, Notice, Tick};
use aseba_words::{Mem, Name};
use std::alloc::Global;

impl Node {
    /// Does so many ticks.
    #[tactic(auto, using(crate::proofs::Steps::ran_next, crate::proofs::Steps::ran_none))]
    pub(super) fn do_ticks(&mut self, ticks: u32) -> Result<(), Mem>
        ensures { OnOk result (self.new ≡ ran ticks self.old) }
    {
        for _ in 0..ticks {
            self.tick()?;
        }
        Ok(())
    }

    /// Does one tick, says what it sends, and stops at a breakpoint.
    #[tactic(auto, unfolding(crate::specs::Delivered::ticked_node))]
    fn tick(&mut self) -> Result<(), Mem>
        ensures { OnOk result (self.new ≡ ticked_node self.old) }
    {
        let tick = self.machine.tick();
        self.send(tick)?;
        self.stop_at_break()
    }

    /// Says what a tick sent.
    #[tactic(auto, using(crate::proofs::Sayable::can_notice))]
    pub(super) fn send(&mut self, tick: Tick) -> Result<(), Mem>
        requires { SendsInside (length self.old.machine.cells) tick }
        ensures { OnOk result (self.new ≡ sending tick self.old) }
    {
        match tick {
            Tick::Sent(notice) => {
                let payload = payload_of(self.outbox.alloc(), self.machine.cells(), notice)?;
                self.say(&payload)
            }
            Tick::Idle | Tick::Paused | Tick::Quiet | Tick::Stored { .. } | Tick::Effect => Ok(()),
        }
    }

    /// Pauses the machine where it came to a breakpoint, and says where it stands then.
    pub(super) fn stop_at_break(&mut self) -> Result<(), Mem>
        ensures { OnOk result (self.new ≡ stopping self.old) }
    {
        if !self.debug.check(&mut self.machine) {
            return Ok(());
        }
        let state = self.debug.command(&mut self.machine, Command::State);
        self.reply(state)
    }
}

/// What a notice says, where the machine has these cells.
fn payload_of(alloc: Global, cells: &[i16], notice: Notice) -> Result<Payload, Mem>
    requires { SendsInside (length cells.now) (Sent notice) }
    ensures { IfOk result (λ payload. payload ≡ notice_of cells.now notice) }
{
    match notice {
        Notice::Emit { event, start, len } => {
            let start = usize::from(start);
            let words = words_of(alloc, &cells[start..start + usize::from(len)])?;
            Ok(Payload::User { kind: event, words })
        }
        Notice::Bounds { pc, size, index } => Ok(Payload::BoundsAt {
            pc,
            size,
            index: index.cast_unsigned(),
        }),
        Notice::Division { pc } => Ok(Payload::DivisionAt { pc }),
        Notice::NodeError { pc, fault } => {
            let text = Name::new(alloc, fault_text(fault))?;
            Ok(Payload::ErrorAt { pc, text })
        }
    }
}

/// The name of a node error.
fn fault_text(fault: NodeFault) -> &'static [u8]
    ensures { result.now ≡ fault_text fault }
{
    match fault {
        NodeFault::Stack => b"stack",
        NodeFault::Address => b"address",
        NodeFault::Word => b"word",
        NodeFault::Native => b"native",
        NodeFault::Code => b"code",
    }
}
