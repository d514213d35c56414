//! What a node does at an event.
ghost use Rattle.std.specs.Prelude.{◌≡◌, OnOk};
ghost use Rattle.aseba_node.specs.Delivered.{heard};

use crate::cells::cells_of;
use crate::node::Node;
use aseba_payload::Payload;
use aseba_vm::Arrival;
use aseba_words::Mem;

impl Node {
    /// Lets an event arrive. A handler that it kills is told of first.
    #[tactic(auto, using(crate::proofs::Sayable::can_killed), unfolding(crate::specs::Delivered::heard))]
    pub(super) fn hear(&mut self, event: u16, source: u16, words: &[u16]) -> Result<(), Mem>
        ensures { OnOk result (self.new ≡ heard event source words.now self.old) }
    {
        let args = cells_of(self.outbox.alloc(), words)?;
        match self.machine.arrive(event, source, args.as_slice()) {
            Arrival::NoHandler | Arrival::Dropped => Ok(()),
            Arrival::Killed { pc } => {
                self.say(&Payload::KilledAt { pc })?;
                self.stop_at_break()
            }
            Arrival::Started => self.stop_at_break(),
        }
    }
}
