ghost use Rattle.std.specs.Prelude.{◌≡◌, length};
ghost use Rattle.aseba_vm.specs.Rows.{row};
ghost use Rattle.aseba_vm.specs.Sending.{SendsInside};
ghost use Rattle.aseba_vm.specs.Tick.{settled, stepped, ticked};

use crate::machine::Machine;
use crate::opcode::Opcode;
use crate::tick::{NodeFault, Notice, Tick};

impl Machine {
    /// One tick: the instruction at the counter, or nothing where the machine is idle or paused.
    /// An event that it sends has a number below 4096 and takes along at most 256 cells that are there.
    #[tactic(auto, using(crate::proofs::Sends::sent))]
    pub fn tick(&mut self) -> Tick
        ensures answer { result ≡ (ticked self.old).0 }
        ensures state { self.new ≡ (ticked self.old).1 }
        ensures sent { SendsInside (length self.new.cells) result }
    {
        self.advance()
    }

    /// One tick.
    #[tactic(auto, unfolding(crate::specs::Tick::ticked))]
    fn advance(&mut self) -> Tick
        ensures answer { result ≡ (ticked self.old).0 }
        ensures state { self.new ≡ (ticked self.old).1 }
    {
        if !self.active {
            return Tick::Idle;
        }
        if self.paused {
            return Tick::Paused;
        }
        match self.step() {
            Ok(tick) => tick,
            Err(notice) => self.halt(notice),
        }
    }

    /// Ends the handler for the reason that the notice gives, and pauses.
    fn halt(&mut self, notice: Notice) -> Tick
        ensures { (result, self.new) ≡ settled (Err notice) self.old }
    {
        self.end();
        self.paused = true;
        Tick::Sent(notice)
    }

    /// The instruction at the counter.
    fn step(&mut self) -> Result<Tick, Notice>
        ensures { (result, self.new) ≡ stepped self.old }
    {
        let word = self.word()?;
        match Opcode::of_word(word) {
            Opcode::End => {
                self.end();
                Ok(Tick::Effect)
            }
            Opcode::SmallNumber => self.small_number(word),
            Opcode::LargeNumber => self.large_number(),
            Opcode::Load => self.load_cell(word),
            Opcode::Store => self.store_cell(word),
            Opcode::LoadIndirect => self.load_indirect(word),
            Opcode::StoreIndirect => self.store_indirect(word),
            Opcode::UnaryOperator => self.unary_operator(word),
            Opcode::BinaryOperator => self.binary_operator(word),
            Opcode::Jump => self.jump(word),
            Opcode::Branch => self.branch(word),
            Opcode::Emit => self.emit(word),
            Opcode::NativeCall => self.native_call(word),
            Opcode::SubCall => self.sub_call(word),
            Opcode::SubReturn => self.sub_return(),
            Opcode::NoInstruction => Err(self.fault(NodeFault::Word)),
        }
    }
}
