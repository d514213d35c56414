//! What the instructions are made of: the checks, each with the notice that it gives where it fails,
//! and the changes.

ghost use Rattle.std.specs.Prelude.{◌≡◌, ◌+◌, ◌<◌, ◌≤◌, drop, slice_get, slice_set, length, nat_lt, OnOk, IsTrue, ok_or, if◌then◌else◌, pos, ◌+ℤ◌};
ghost use Rattle.aseba_vm.specs.Outcome.{index_in};
ghost use Rattle.aseba_vm.specs.State.{ended, forward, has_room, pushed};

use crate::lists::{apply, index_in};
use crate::machine::Machine;
use crate::tick::{NodeFault, Notice};

impl Machine {
    /// The notice of a node error here.
    pub(super) fn fault(&self, fault: NodeFault) -> Notice
        ensures { result ≡ Notice.NodeError self.now.pc fault }
    {
        Notice::NodeError { pc: self.pc, fault }
    }

    /// The word at the counter.
    pub(super) fn word(&self) -> Result<u16, Notice>
        ensures { result ≡ ok_or (slice_get self.now.code self.now.pc) (Notice.NodeError self.now.pc NodeFault.Code) }
    {
        let word = self.code.get(usize::from(self.pc)).copied();
        word.ok_or(self.fault(NodeFault::Code))
    }

    /// A further word of the instruction.
    pub(super) fn fetch(&self, place: u16) -> Result<u16, Notice>
        ensures { result ≡ ok_or (slice_get self.now.code (self.now.pc + place)) (Notice.NodeError self.now.pc NodeFault.Code) }
    {
        let at = usize::from(self.pc) + usize::from(place);
        let word = self.code.get(at).copied();
        word.ok_or(self.fault(NodeFault::Code))
    }

    /// The place in the code that is so far from here.
    pub(super) fn target(&self, by: i16) -> Result<u16, Notice>
        ensures { result ≡ ok_or (index_in (length self.now.code) (pos self.now.pc +ℤ by)) (Notice.NodeError self.now.pc NodeFault.Code) }
    {
        let target = i32::from(self.pc) + i32::from(by);
        index_in(self.shape.code, target).ok_or(self.fault(NodeFault::Code))
    }

    /// An index inside its bounds.
    pub(super) fn index(&self, size: u16, index: i16) -> Result<u16, Notice>
        ensures { result ≡ ok_or (index_in size index) (Notice.Bounds self.now.pc size index) }
    {
        let bounds = Notice::Bounds {
            pc: self.pc,
            size,
            index,
        };
        index_in(size, i32::from(index)).ok_or(bounds)
    }

    /// The cell at an address.
    pub(super) fn cell(&self, address: u16) -> Result<i16, Notice>
        ensures { result ≡ ok_or (slice_get self.now.cells address) (Notice.NodeError self.now.pc NodeFault.Address) }
    {
        let cell = self.cells.get(usize::from(address)).copied();
        cell.ok_or(self.fault(NodeFault::Address))
    }

    /// Stores a value in the cell at an address.
    pub(super) fn put(&mut self, address: u16, value: i16) -> Result<(), Notice>
        ensures answer { result ≡ (if nat_lt address (length self.old.cells) then Ok tt else Err (Notice.NodeError self.old.pc NodeFault.Address)) }
        ensures state { self.new ≡ record self.old { cells = slice_set self.old.cells address value } }
    {
        if usize::from(address) >= self.cells.len() {
            return Err(self.fault(NodeFault::Address));
        }
        self.cells[usize::from(address)] = value;
        Ok(())
    }

    /// Refuses where the stack has no room for another value.
    pub(super) fn check_room(&self) -> Result<(), Notice>
        ensures { result ≡ (if has_room self.now then Ok tt else Err (Notice.NodeError self.now.pc NodeFault.Stack)) }
    {
        if self.stack.has_room() {
            Ok(())
        } else {
            Err(self.fault(NodeFault::Stack))
        }
    }

    /// Pushes a value.
    pub(super) fn push(&mut self, value: i16)
        requires { IsTrue (has_room self.old) }
        ensures { self.new ≡ pushed value self.old }
    {
        self.stack.push(value);
    }

    /// Pops a value.
    pub(super) fn pop(&mut self) -> Result<i16, Notice>
        ensures answer { result ≡ ok_or (slice_get self.old.stack 0) (Notice.NodeError self.old.pc NodeFault.Stack) }
        ensures state { self.new ≡ record self.old { stack = drop 1 self.old.stack } }
        ensures room { OnOk result (IsTrue (has_room self.new)) }
    {
        let fault = self.fault(NodeFault::Stack);
        self.stack.pop().ok_or(fault)
    }

    /// Goes on behind an instruction of so many words, which are inside the code.
    pub(super) fn forward(&mut self, words: u16)
        requires { self.old.pc + words ≤ length self.old.code }
        ensures { self.new ≡ forward words self.old }
    {
        self.pc += words;
    }

    /// Goes on at an address.
    pub(super) fn go(&mut self, address: u16)
        ensures { self.new ≡ record self.old { pc = address } }
    {
        self.pc = address;
    }

    /// Ends the handler.
    #[tactic(auto, using(crate::proofs::Held::held_values))]
    pub(super) fn end(&mut self)
        ensures { self.new ≡ ended self.old }
    {
        self.stack.clear();
        self.active = false;
        if self.any_held {
            apply(self.cells.as_mut_slice(), self.held.as_mut_slice());
            self.any_held = false;
        }
    }
}
