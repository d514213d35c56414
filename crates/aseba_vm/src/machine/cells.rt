//! The instructions that store into a cell.

ghost use Rattle.std.specs.Prelude.{◌≡◌, ◌<◌, length};
ghost use Rattle.aseba_vm.specs.Rows.{store_row, store_indirect_row};

use crate::machine::Machine;
use crate::opcode::operand;
use crate::tick::{Notice, Tick};

impl Machine {
    pub(super) fn store_cell(&mut self, word: u16) -> Result<Tick, Notice>
        requires { self.old.pc < length self.old.code }
        ensures { (result, self.new) ≡ store_row word self.old }
    {
        let value = self.pop()?;
        let address = operand(word);
        self.put(address, value)?;
        self.forward(1);
        Ok(Tick::Stored { address })
    }

    pub(super) fn store_indirect(&mut self, word: u16) -> Result<Tick, Notice>
        requires { self.old.pc < length self.old.code }
        ensures { (result, self.new) ≡ store_indirect_row word self.old }
    {
        let size = self.fetch(1)?;
        let index = self.pop()?;
        let value = self.pop()?;
        let index = self.index(size, index)?;
        let address = operand(word) + index;
        self.put(address, value)?;
        self.forward(2);
        Ok(Tick::Stored { address })
    }
}
