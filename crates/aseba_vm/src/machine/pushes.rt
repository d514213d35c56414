//! The instructions that push a number or a cell.

ghost use Rattle.std.specs.Prelude.{◌≡◌, ◌<◌, length};
ghost use Rattle.aseba_vm.specs.Rows.{small_number_row, large_number_row, load_row, load_indirect_row};

use crate::machine::Machine;
use crate::opcode::{operand, signed_operand};
use crate::tick::{Notice, Tick};

impl Machine {
    pub(super) fn small_number(&mut self, word: u16) -> Result<Tick, Notice>
        requires { self.old.pc < length self.old.code }
        ensures { (result, self.new) ≡ small_number_row word self.old }
    {
        self.check_room()?;
        self.push(signed_operand(word));
        self.forward(1);
        Ok(Tick::Quiet)
    }

    pub(super) fn large_number(&mut self) -> Result<Tick, Notice>
        requires { self.old.pc < length self.old.code }
        ensures { (result, self.new) ≡ large_number_row self.old }
    {
        let number = self.fetch(1)?;
        self.check_room()?;
        self.push(number.cast_signed());
        self.forward(2);
        Ok(Tick::Quiet)
    }

    pub(super) fn load_cell(&mut self, word: u16) -> Result<Tick, Notice>
        requires { self.old.pc < length self.old.code }
        ensures { (result, self.new) ≡ load_row word self.old }
    {
        self.check_room()?;
        let value = self.cell(operand(word))?;
        self.push(value);
        self.forward(1);
        Ok(Tick::Quiet)
    }

    pub(super) fn load_indirect(&mut self, word: u16) -> Result<Tick, Notice>
        requires { self.old.pc < length self.old.code }
        ensures { (result, self.new) ≡ load_indirect_row word self.old }
    {
        let size = self.fetch(1)?;
        let index = self.pop()?;
        let index = self.index(size, index)?;
        let value = self.cell(operand(word) + index)?;
        self.push(value);
        self.forward(2);
        Ok(Tick::Quiet)
    }
}
