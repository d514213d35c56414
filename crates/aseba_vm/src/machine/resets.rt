ghost use Rattle.std.specs.Prelude.{◌≡◌};
ghost use Rattle.aseba_vm.specs.Loaded.{loaded, reset_state};

use crate::lists::{handler_of, overwrite_words, put_named};
use crate::machine::Machine;
use crate::refusals::OutOfCode;

/// The event whose handler is the init code. No message has this number.
const INIT_EVENT: u16 = 0xffff;

impl Machine {
    /// Puts words into the code from a place on. Where they pass its end, nothing changes.
    #[tactic(auto, unfolding(crate::specs::Loaded::loaded))]
    pub fn load(&mut self, start: u16, words: &[u16]) -> Result<(), OutOfCode>
        ensures answer { result ≡ (loaded start words.now self.old).0 }
        ensures state { self.new ≡ (loaded start words.now self.old).1 }
    {
        let size = self.shape.code;
        let end = u64::from(start) + words.len() as u64;
        if end > u64::from(size) {
            return Err(OutOfCode { end, size });
        }
        overwrite_words(self.code.as_mut_slice(), usize::from(start), words);
        Ok(())
    }

    /// Begins anew: nothing is held or on the stack, all cells are 0 but `_id`, and the init code
    /// begins, if there is one. Without it the machine is idle and the counter 0. The code stays,
    /// with what each `when` remembers.
    #[tactic(auto, unfolding(crate::specs::Loaded::reset_state))]
    pub fn reset(&mut self, paused: bool)
        ensures { self.new ≡ reset_state paused self.old }
    {
        self.stack.clear();
        self.held.fill(None);
        self.any_held = false;
        self.cells.fill(0);
        put_named(self.cells.as_mut_slice(), self.shape.id, self.id);
        self.paused = paused;
        let init = handler_of(INIT_EVENT, self.code.as_slice());
        self.active = init.is_some();
        self.pc = init.unwrap_or(0);
    }
}
