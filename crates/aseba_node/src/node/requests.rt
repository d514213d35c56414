//! What a node does when it is asked.
ghost use Rattle.std.specs.Prelude.{◌≡◌, ◌==◌, OnOk, length};
ghost use Rattle.aseba_vm.specs.Control.{hold_written};
ghost use Rattle.aseba_vm.specs.Loaded.{loaded};
ghost use Rattle.aseba_node.specs.Delivered.{cells_of, debugged, described, for_node, received, refused, replied, taken_or_refused, told_cells};
ghost use Rattle.aseba_debug.specs.Commanded.{TellsInside};

use crate::cells::cells_of;
use crate::node::Node;
use crate::parts::{VERSION, say_cells, say_description};
use aseba_debug::{Command, Reply};
use aseba_payload::Payload;
use aseba_words::{Mem, Name};

impl Node {
    /// Does what a payload of a source asks. What other nodes say is nothing to a node.
    #[tactic(auto, using(crate::proofs::Sayable::can_present), unfolding(crate::specs::Delivered::received))]
    pub(super) fn receive(&mut self, source: u16, payload: &Payload) -> Result<(), Mem>
        ensures { OnOk result (self.new ≡ received source payload.now self.old) }
    {
        match payload {
            Payload::User { kind, words } => self.hear(*kind, source, words.as_slice()),
            Payload::GetDescription { .. } => self.describe(),
            Payload::GetNodeDescription { node, .. } => self.describe_if(*node),
            Payload::SetBytecode { node, start, words } => {
                self.load(*node, *start, words.as_slice())
            }
            Payload::Reset { node } => self.debug(*node, Command::Reset),
            Payload::Run { node } => self.debug(*node, Command::Run),
            Payload::Pause { node } => self.debug(*node, Command::Pause),
            Payload::Step { node } => self.debug(*node, Command::Step),
            Payload::Stop { node } => self.debug(*node, Command::Stop),
            Payload::GetState { node } => self.debug(*node, Command::State),
            Payload::SetBreak { node, pc } => self.debug(*node, Command::Set(*pc)),
            Payload::ClearBreak { node, pc } => self.debug(*node, Command::Clear(*pc)),
            Payload::ClearBreaks { node } => self.debug(*node, Command::ClearAll),
            Payload::GetVariables {
                node,
                start,
                length,
            } => self.tell_cells(*node, *start, *length),
            Payload::SetVariables { node, start, words } => {
                self.write(*node, *start, words.as_slice())
            }
            Payload::ListNodes { .. } => self.say(&Payload::Present { version: VERSION }),
            _ => Ok(()),
        }
    }

    /// Whether a message for this id is for this node.
    fn is(&self, node: u16) -> bool
        ensures { result ≡ (node == self.now.id) }
    {
        node == self.outbox.id()
    }

    /// Says its description.
    fn describe(&mut self) -> Result<(), Mem>
        ensures { OnOk result (self.new ≡ described self.old) }
    {
        say_description(&mut self.outbox, &self.description)
    }

    fn describe_if(&mut self, node: u16) -> Result<(), Mem>
        ensures { OnOk result (self.new ≡ for_node node self.old (described self.old)) }
    {
        if !self.is(node) {
            return Ok(());
        }
        self.describe()
    }

    /// Puts words into the code, or refuses where they pass its end.
    fn load(&mut self, node: u16, start: u16, words: &[u16]) -> Result<(), Mem>
        ensures { OnOk result (self.new ≡ for_node node self.old
            (taken_or_refused (loaded start words.now self.old.machine) self.old)) }
    {
        if !self.is(node) {
            return Ok(());
        }
        match self.machine.load(start, words) {
            Ok(()) => Ok(()),
            Err(_) => self.refuse(),
        }
    }

    /// Writes cells from outside, or refuses where they pass the last one.
    fn write(&mut self, node: u16, start: u16, words: &[u16]) -> Result<(), Mem>
        ensures { OnOk result (self.new ≡ for_node node self.old
            (taken_or_refused (hold_written start (cells_of words.now) self.old.machine) self.old)) }
    {
        if !self.is(node) {
            return Ok(());
        }
        let values = cells_of(self.outbox.alloc(), words)?;
        match self.machine.hold_write(start, values.as_slice()) {
            Ok(()) => Ok(()),
            Err(_) => self.refuse(),
        }
    }

    /// Says cells, or refuses where they pass the last one.
    #[tactic(auto, unfolding(crate::specs::Delivered::told_cells))]
    fn tell_cells(&mut self, node: u16, start: u16, len: u16) -> Result<(), Mem>
        ensures { OnOk result (self.new ≡ for_node node self.old (told_cells start len self.old)) }
    {
        if !self.is(node) {
            return Ok(());
        }
        let (first, count) = (usize::from(start), usize::from(len));
        if first + count > self.machine.cells().len() {
            return self.refuse();
        }
        let cells = &self.machine.cells()[first..first + count];
        say_cells(&mut self.outbox, start, cells)
    }

    /// Says that what was asked is out of range.
    #[tactic(auto, using(crate::proofs::Sayable::can_error))]
    fn refuse(&mut self) -> Result<(), Mem>
        ensures { OnOk result (self.new ≡ refused self.old) }
    {
        let text = Name::new(self.outbox.alloc(), b"range")?;
        let pc = self.machine.pc();
        self.say(&Payload::ErrorAt { pc, text })
    }

    /// Does a command of the debugger, and says its reply.
    #[tactic(auto, unfolding(crate::specs::Delivered::debugged))]
    fn debug(&mut self, node: u16, command: Command) -> Result<(), Mem>
        ensures { OnOk result (self.new ≡ for_node node self.old (debugged command self.old)) }
    {
        if !self.is(node) {
            return Ok(());
        }
        let reply = self.debug.command(&mut self.machine, command);
        self.reply(reply)
    }

    /// Says a reply of the debugger. A step says what its tick sent first.
    #[tactic(auto, using(crate::proofs::Sayable::can_state, crate::proofs::Sayable::can_break))]
    pub(super) fn reply(&mut self, reply: Reply) -> Result<(), Mem>
        requires { TellsInside (length self.old.machine.cells) reply }
        ensures { OnOk result (self.new ≡ replied reply self.old) }
    {
        match reply {
            Reply::Nothing => Ok(()),
            Reply::State { pc, flags } => self.say(&Payload::State { pc, flags }),
            Reply::Stepped { tick, pc, flags } => {
                self.send(tick)?;
                self.say(&Payload::State { pc, flags })
            }
            Reply::Break { pc, taken } => self.say(&Payload::BreakSet {
                pc,
                result: u16::from(taken),
            }),
        }
    }
}
