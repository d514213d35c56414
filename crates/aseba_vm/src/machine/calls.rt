//! The instructions that reach outside: emits and native functions.

ghost use Rattle.std.specs.Prelude.{◌≡◌, ◌<◌, ◌≤◌, length};
ghost use Rattle.aseba_words.specs.Natives.{sizes};
ghost use Rattle.aseba_natives.specs.Call.{arg_count};
ghost use Rattle.aseba_vm.specs.Rows.{can_emit, emit_row, native_row, native_ended, calling};

use crate::machine::Machine;
use crate::opcode::operand;
use crate::tick::{NodeFault, Notice, Tick};
use aseba_natives::{NativeEnd, native};
use aseba_words::Native;

/// The most cells that an event takes along.
const LONGEST_EVENT: u16 = 256;

/// The most arguments that a native takes.
const MOST_ARGS: usize = 5;

/// How many arguments a native takes: the address of each parameter, and the length of its arrays.
#[tactic(auto, using(crate::proofs::Arguments::arguments))]
fn arg_count(native: Native) -> u16
    ensures count { result ≡ arg_count (sizes native) }
    ensures most { result ≤ MOST_ARGS }
{
    native.sizes().len() as u16 + 1
}

impl Machine {
    pub(super) fn emit(&mut self, word: u16) -> Result<Tick, Notice>
        requires { self.old.pc < length self.old.code }
        ensures { (result, self.new) ≡ emit_row word self.old }
    {
        let start = self.fetch(1)?;
        let len = self.fetch(2)?;
        if !self.can_emit(start, len) {
            return Err(self.fault(NodeFault::Address));
        }
        self.forward(3);
        Ok(Tick::Sent(Notice::Emit {
            event: operand(word),
            start,
            len,
        }))
    }

    /// Whether an event can take these cells along.
    fn can_emit(&self, start: u16, len: u16) -> bool
        ensures { result ≡ can_emit start len self.now }
    {
        let end = u32::from(start) + u32::from(len);
        end <= u32::from(self.shape.cells) && len <= LONGEST_EVENT
    }

    pub(super) fn native_call(&mut self, word: u16) -> Result<Tick, Notice>
        requires { self.old.pc < length self.old.code }
        ensures { (result, self.new) ≡ native_row word self.old }
    {
        let id = operand(word);
        let native = Native::numbered(id).ok_or(self.fault(NodeFault::Native))?;
        let count = arg_count(native);
        if self.stack.len() < usize::from(count) {
            return Err(self.fault(NodeFault::Stack));
        }
        self.call(id, count)
    }

    /// Calls a native with so many arguments, which are on the stack.
    fn call(&mut self, id: u16, count: u16) -> Result<Tick, Notice>
        requires count { count ≤ length self.old.stack }
        requires most { count ≤ MOST_ARGS }
        requires inside { self.old.pc < length self.old.code }
        ensures { (result, self.new) ≡ calling id count self.old }
    {
        let mut args = [0; MOST_ARGS];
        let args = &mut args[..usize::from(count)];
        self.stack.pop_into(args);
        let end = native(id, self.cells.as_mut_slice(), args);
        self.end_call(end)
    }

    /// Goes on, or not, as the native ended.
    fn end_call(&mut self, end: NativeEnd) -> Result<Tick, Notice>
        requires { self.old.pc < length self.old.code }
        ensures { (result, self.new) ≡ native_ended end self.old }
    {
        match end {
            NativeEnd::Done => {
                self.forward(1);
                Ok(Tick::Effect)
            }
            NativeEnd::Division => Err(Notice::Division { pc: self.pc }),
            NativeEnd::BadCall => Err(self.fault(NodeFault::Native)),
        }
    }
}
