//! The instructions that compute.

ghost use Rattle.std.specs.Prelude.{◌≡◌, ◌<◌, length, OnOk, IsTrue};
ghost use Rattle.aseba_vm.specs.Outcome.{computed};
ghost use Rattle.aseba_vm.specs.Rows.{unary_row, binary_row};
ghost use Rattle.aseba_vm.specs.State.{has_room};

use crate::machine::Machine;
use crate::opcode::{binary_operator, unary_operator};
use crate::tick::{NodeFault, Notice, Tick};
use aseba_words::{Binary, binary, unary};

impl Machine {
    pub(super) fn unary_operator(&mut self, word: u16) -> Result<Tick, Notice>
        requires { self.old.pc < length self.old.code }
        ensures { (result, self.new) ≡ unary_row word self.old }
    {
        let operator = unary_operator(word).ok_or(self.fault(NodeFault::Word))?;
        let value = self.pop()?;
        self.push(unary(operator, value));
        self.forward(1);
        Ok(Tick::Quiet)
    }

    pub(super) fn binary_operator(&mut self, word: u16) -> Result<Tick, Notice>
        requires { self.old.pc < length self.old.code }
        ensures { (result, self.new) ≡ binary_row word self.old }
    {
        let operator = binary_operator(word).ok_or(self.fault(NodeFault::Word))?;
        let value = self.compute(operator)?;
        self.push(value);
        self.forward(1);
        Ok(Tick::Quiet)
    }

    /// The operator's value of two values that are popped.
    pub(super) fn compute(&mut self, operator: Binary) -> Result<i16, Notice>
        ensures value { (result, self.new) ≡ computed operator self.old }
        ensures counter { self.new.pc ≡ self.old.pc }
        ensures code { self.new.code ≡ self.old.code }
        ensures room { OnOk result (IsTrue (has_room self.new)) }
    {
        let right = self.pop()?;
        let left = self.pop()?;
        let value = binary(operator, left, right).ok_or(Notice::Division { pc: self.pc })?;
        Ok(value)
    }
}
