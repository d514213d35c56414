ghost use Rattle.std.specs.Prelude.{◌≡◌};
ghost use Rattle.aseba_vm.specs.Arrival.{arrived, begun};

use crate::arrival::Arrival;
use crate::lists::{handler_of, tell};
use crate::machine::Machine;

impl Machine {
    /// Takes an event from a sender. An event with a handler begins it, and kills the one that runs,
    /// whose held values are applied first; a machine that is paused inside a handler drops it.
    /// Arguments that don't fit `event.args` are cut off, and cells without an argument stay.
    #[tactic(auto, unfolding(crate::specs::Arrival::arrived))]
    pub fn arrive(&mut self, event: u16, source: u16, args: &[i16]) -> Arrival
        ensures answer { result ≡ (arrived event source args.now self.old).0 }
        ensures state { self.new ≡ (arrived event source args.now self.old).1 }
    {
        let Some(address) = handler_of(event, self.code.as_slice()) else {
            return Arrival::NoHandler;
        };
        if !self.active {
            self.begin(address, source, args);
            return Arrival::Started;
        }
        if self.paused {
            return Arrival::Dropped;
        }
        let pc = self.pc;
        self.end();
        self.begin(address, source, args);
        Arrival::Killed { pc }
    }

    /// Begins the handler at an address, for an event from this sender.
    fn begin(&mut self, address: u16, source: u16, args: &[i16])
        ensures { self.new ≡ begun address source args.now self.old }
    {
        tell(self.cells.as_mut_slice(), &self.shape, source, args);
        self.pc = address;
        self.active = true;
    }
}
