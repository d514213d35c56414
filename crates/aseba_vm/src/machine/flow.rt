//! The instructions that lead the counter elsewhere.

ghost use Rattle.std.specs.Prelude.{◌≡◌, ◌<◌, ◌+◌, ◌≤◌, length};
ghost use Rattle.aseba_vm.specs.Rows.{jump_row, branch_row, branched, sub_call_row, sub_return_row};

use crate::machine::Machine;
use crate::opcode::{branch_operator, is_when, operand, remembering, signed_operand, was_true};
use crate::tick::{NodeFault, Notice, Tick};

impl Machine {
    pub(super) fn jump(&mut self, word: u16) -> Result<Tick, Notice>
        ensures { (result, self.new) ≡ jump_row word self.old }
    {
        let target = self.target(signed_operand(word))?;
        self.go(target);
        Ok(Tick::Effect)
    }

    pub(super) fn branch(&mut self, word: u16) -> Result<Tick, Notice>
        ensures { (result, self.new) ≡ branch_row word self.old }
    {
        let by = self.fetch(1)?;
        let target = self.target(by.cast_signed())?;
        let operator = branch_operator(word).ok_or(self.fault(NodeFault::Word))?;
        let value = self.compute(operator)?;
        self.take_branch(value != 0, word, target);
        Ok(Tick::Effect)
    }

    /// Goes where a branch leads, and lets a `when` remember its condition.
    fn take_branch(&mut self, truth: bool, word: u16, target: u16)
        requires { self.old.pc + 2 ≤ length self.old.code }
        ensures { self.new ≡ branched truth word target self.old }
    {
        let enters = truth && !(is_when(word) && was_true(word));
        if is_when(word) {
            self.code[usize::from(self.pc)] = remembering(truth, word);
        }
        self.pc = if enters { self.pc + 2 } else { target };
    }

    pub(super) fn sub_call(&mut self, word: u16) -> Result<Tick, Notice>
        requires { self.old.pc < length self.old.code }
        ensures { (result, self.new) ≡ sub_call_row word self.old }
    {
        self.check_room()?;
        let behind = self.pc + 1;
        self.push(behind.cast_signed());
        let address = operand(word);
        if address >= self.shape.code {
            return Err(self.fault(NodeFault::Code));
        }
        self.go(address);
        Ok(Tick::Effect)
    }

    pub(super) fn sub_return(&mut self) -> Result<Tick, Notice>
        ensures { (result, self.new) ≡ sub_return_row self.old }
    {
        let address = self.pop()?;
        self.go(address.cast_unsigned());
        Ok(Tick::Effect)
    }
}
