ghost use Rattle.std.specs.Prelude.{◌≡◌};
ghost use Rattle.aseba_vm.specs.Control.{hold_written, stopped};

use crate::lists::{hold, overwrite_cells};
use crate::machine::Machine;
use crate::refusals::OutOfCells;

impl Machine {
    /// Writes values into the cells from an address on. While a handler is active they are held,
    /// each in the place of an earlier one for its cell, and stored when the handler has ended.
    /// Where they pass the last cell, nothing changes.
    #[tactic(auto, unfolding(crate::specs::Control::hold_written))]
    pub fn hold_write(&mut self, start: u16, values: &[i16]) -> Result<(), OutOfCells>
        ensures answer { result ≡ (hold_written start values.now self.old).0 }
        ensures state { self.new ≡ (hold_written start values.now self.old).1 }
    {
        let size = self.shape.cells;
        let end = u64::from(start) + values.len() as u64;
        if end > u64::from(size) {
            return Err(OutOfCells { end, size });
        }
        if self.active {
            hold(self.held.as_mut_slice(), usize::from(start), values);
            self.any_held = true;
        } else {
            overwrite_cells(self.cells.as_mut_slice(), usize::from(start), values);
        }
        Ok(())
    }

    /// Sets or clears the flag that keeps ticks from doing anything.
    pub fn set_paused(&mut self, paused: bool)
        ensures { self.new ≡ record self.old { paused = paused } }
    {
        self.paused = paused;
    }

    /// Ends the handler without a notice, and clears the paused flag.
    pub fn stop(&mut self)
        ensures { self.new ≡ stopped self.old }
    {
        self.end();
        self.paused = false;
    }
}
