ghost use Rattle.std.specs.Prelude.{◌≡◌, [], ◌∷◌, ◌++◌, OnOk, drop, slice_get};
ghost use Rattle.aseba_node.specs.Saying.{spoken};
ghost use Rattle.aseba_node.specs.CanSay.{CanSay};

use aseba_message::Frame;
use aseba_payload::{Payload, to_frame};
use aseba_words::Mem;
use std::alloc::Global;
use std::collections::VecDeque;
use std::marker::Model;

/// What a node has said, the oldest first, until it is taken.
#[derive(Drop)]
pub(crate) struct Outbox {
    alloc: Global,
    /// The id of the node.
    id: u16,
    frames: VecDeque<Frame>,
}

impl Model for Outbox {
    ghost use Rattle.aseba_node.specs.Saying.{Spoken};

    ghost Value = { Spoken };

    ghost view = { λ outbox. record { id = outbox.id; waiting = outbox.frames.items } };
}

impl Outbox {
    /// A node of this id has said nothing yet.
    pub fn new(alloc: Global, id: u16) -> Outbox
        ensures { result ≡ record { id = id; waiting = [] } }
    {
        Outbox {
            alloc,
            id,
            frames: VecDeque::new(alloc),
        }
    }

    pub fn alloc(&self) -> Global {
        self.alloc
    }

    /// The id of the node.
    pub fn id(&self) -> u16
        ensures { result ≡ self.now.id }
    {
        self.id
    }

    /// Says a payload.
    #[tactic(auto, using(crate::proofs::Listing::spoken_by))]
    pub fn say(&mut self, payload: &Payload) -> Result<(), Mem>
        requires { CanSay payload.now }
        ensures { OnOk result (self.new ≡ record self.old { waiting = self.old.waiting ++ spoken self.old.id payload.now ∷ [] }) }
    {
        let frame = to_frame(self.alloc, self.id, payload)?;
        self.frames.push_back(frame)?;
        Ok(())
    }

    /// Takes the oldest frame.
    pub fn next(&mut self) -> Option<Frame>
        ensures frame { result ≡ slice_get self.old.waiting 0 }
        ensures rest { self.new ≡ record self.old { waiting = drop 1 self.old.waiting } }
    {
        self.frames.pop_front()
    }
}
