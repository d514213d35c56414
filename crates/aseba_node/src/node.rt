ghost use Rattle.std.specs.Prelude.{◌≡◌, false, true, IfOk, OnErr, OnOk, drop, slice_get};
ghost use Rattle.aseba_tree.specs.Inside.{InsideProject};
ghost use Rattle.aseba_node.specs.CanSay.{CanSay};
ghost use Rattle.aseba_node.specs.Delivered.{delivered, ran};
ghost use Rattle.aseba_node.specs.NodeState.{new_node};
ghost use Rattle.aseba_node.specs.Saying.{say};

mod events;
mod requests;
mod ticks;

use crate::outbox::Outbox;
use aseba_debug::Debug;
use aseba_message::Frame;
use aseba_payload::{Payload, PayloadError, decode};
use aseba_target::shape;
use aseba_tree::{Description, Project};
use aseba_vm::Machine;
use aseba_words::Mem;
use std::alloc::Global;
use std::marker::Model;

/// A node of the network. It is told by frames what to do, and says what it does and has by frames,
/// which wait until they are taken.
#[derive(Drop)]
pub struct Node {
    description: Description,
    machine: Machine,
    debug: Debug,
    outbox: Outbox,
    /// Memory was too short for a call. Nothing is done any more then.
    failed: bool,
}

impl Model for Node {
    ghost use Rattle.aseba_node.specs.NodeState.{IsDescribed, NodeState};

    ghost Value = { NodeState };

    ghost view = { λ node. record {
      description = node.description;
      id = node.outbox.id;
      machine = node.machine;
      breaks = node.debug;
      waiting = node.outbox.waiting;
      failed = node.failed;
    } };

    ghost invariant = { λ node. IsDescribed node.description node.machine };
}

impl Node {
    /// A project's node: without code, idle and not paused.
    pub fn new(alloc: Global, project: &Project) -> Result<Node, Mem>
        requires { InsideProject project.now }
        ensures { IfOk result (λ node. node ≡ new_node project.now) }
    {
        let description = project.node.copy(alloc)?;
        let machine = Machine::new(alloc, &shape(project), project.id)?;
        Ok(Node {
            description,
            machine,
            debug: Debug::new(),
            outbox: Outbox::new(alloc, project.id),
            failed: false,
        })
    }

    /// Does what a frame asks, and says what belongs to it. A frame that has no payload, that is for
    /// another node or that comes from a node changes nothing. Once memory was too short, this is
    /// answered for good.
    pub fn deliver(&mut self, frame: &Frame) -> Result<(), Mem>
        ensures before { OnOk result (self.old.failed ≡ false) }
        ensures done { OnOk result (self.new ≡ delivered frame.now self.old) }
        ensures failed { OnErr result (self.new.failed ≡ true) }
    {
        self.check_memory()?;
        match self.take(frame) {
            Ok(()) => Ok(()),
            Err(mem) => {
                self.failed = true;
                Err(mem)
            }
        }
    }

    /// Does so many ticks, and says what the machine sends. Once memory was too short, this is
    /// answered for good.
    pub fn run(&mut self, ticks: u32) -> Result<(), Mem>
        ensures before { OnOk result (self.old.failed ≡ false) }
        ensures done { OnOk result (self.new ≡ ran ticks self.old) }
        ensures failed { OnErr result (self.new.failed ≡ true) }
    {
        self.check_memory()?;
        match self.do_ticks(ticks) {
            Ok(()) => Ok(()),
            Err(mem) => {
                self.failed = true;
                Err(mem)
            }
        }
    }

    /// Takes the oldest of the frames that were said, if there is one.
    pub fn next(&mut self) -> Option<Frame>
        ensures frame { result ≡ slice_get self.old.waiting 0 }
        ensures rest { self.new ≡ record self.old { waiting = drop 1 self.old.waiting } }
    {
        self.outbox.next()
    }

    /// Whether memory has sufficed so far.
    fn check_memory(&self) -> Result<(), Mem>
        ensures ok { OnOk result (self.now.failed ≡ false) }
        ensures err { OnErr result (self.now.failed ≡ true) }
    {
        if self.failed { Err(Mem) } else { Ok(()) }
    }

    /// Does what a frame asks.
    #[tactic(auto, using(crate::proofs::Steps::delivers, crate::proofs::Steps::ignores))]
    fn take(&mut self, frame: &Frame) -> Result<(), Mem>
        ensures { OnOk result (self.new ≡ delivered frame.now self.old) }
    {
        match decode(self.outbox.alloc(), frame) {
            Ok(payload) => self.receive(frame.source, &payload),
            Err(PayloadError::Mem) => Err(Mem),
            Err(_) => Ok(()),
        }
    }

    /// Says a payload.
    fn say(&mut self, payload: &Payload) -> Result<(), Mem>
        requires { CanSay payload.now }
        ensures { OnOk result (self.new ≡ say payload.now self.old) }
    {
        self.outbox.say(payload)
    }
}
