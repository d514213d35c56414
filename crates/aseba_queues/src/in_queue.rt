ghost use Rattle.std.specs.Prelude.{◌≡◌, ◌<◌, ◌≤◌, ◌^◌, ◌++◌, [], List, true, length, IfErr, IfNone, IfOk, IfSome, OnErr, OnOk};
ghost use Rattle.aseba_queues.specs.Knows.{InMoment, InWhole};
ghost use Rattle.aseba_queues.specs.Passes.{IsInPass, IsSameInPass, in_places, in_view};
ghost use Rattle.aseba_queues.specs.Views.{IsWhole, both, first, lessened, noted, owned, working};

use crate::in_rule::{InPop, InPush, InRule};
use crate::parts::Parts;
use crate::view::View;
use crossbeam_queue::{Pass, RuledArrayQueue};
use std::alloc::{AllocError, Global};
use std::sync::Wait;

/// A bounded queue into which many push, and from which the pass that came with it pops. Threads
/// share it by reference.
#[derive(Drop)]
pub struct InQueue<T> {
    ring: RuledArrayQueue<T, View<T>, InRule>,
}

/// The token with which its holder pushes to an `InQueue`, or pops from it. It has no bytes. One
/// that is dropped keeps its parts, so that no other pass has them all any more.
#[derive(Drop)]
pub struct InPass<T> {
    pass: Pass<T, View<T>>,
}

impl<T> InQueue<T> {
    /// An empty queue of so many places, and its owner's pass, which has all parts.
    #[tactic(auto, using(crate::proofs::InSteps::in_begins))]
    pub fn new(alloc: Global, places: usize) -> Result<(InQueue<T>, InPass<T>), AllocError>
        requires { 0 < places }
        ensures places { IfOk result (λ made. in_places made.0 ≡ places) }
        ensures pass { IfOk result (λ made. IsInPass made.0 made.1 × (in_view made.1 ≡ first)) }
    {
        let (ring, pass) = RuledArrayQueue::ruled(alloc, places)?;
        Ok((InQueue { ring }, InPass { pass }))
    }

    /// How many items the queue holds at most.
    pub fn capacity(&self) -> usize
        ensures { result ≡ in_places self.now }
    {
        self.ring.capacity()
    }

    /// Puts the item behind the others. It comes back only where the queue held its capacity at one
    /// moment of the call.
    pub fn push<R: Wait>(&self, rt: &R, pass: &mut InPass<T>, item: T) -> Result<(), T>
        requires queue { IsInPass self.now pass.old }
        requires part { 0 < (in_view pass.old).parts }
        ensures queue { IsSameInPass pass.old pass.new }
        ensures pushed { OnOk result (in_view pass.new ≡ noted item (in_view pass.old)) }
        ensures back { IfErr result (λ back. back ≡ item) }
        ensures same { OnErr result (in_view pass.new ≡ in_view pass.old) }
        ensures full { OnErr result (InMoment (in_places self.now) (in_view pass.old)) }
    {
        self.ring.push_as::<InPush, R>(rt, &mut pass.pass, item)
    }

    /// One attempt to push. The item comes back where the queue is full, and where another thread is
    /// in the way.
    pub fn try_push(&self, pass: &mut InPass<T>, item: T) -> Result<(), T>
        requires queue { IsInPass self.now pass.old }
        requires part { 0 < (in_view pass.old).parts }
        ensures queue { IsSameInPass pass.old pass.new }
        ensures pushed { OnOk result (in_view pass.new ≡ noted item (in_view pass.old)) }
        ensures back { IfErr result (λ back. back ≡ item) }
        ensures same { OnErr result (in_view pass.new ≡ in_view pass.old) }
    {
        self.ring.try_push_as::<InPush>(&mut pass.pass, item)
    }

    /// Takes the oldest item. `None` only where the queue was empty at one moment of the call.
    pub fn pop<R: Wait>(&self, rt: &R, pass: &mut InPass<T>) -> Option<T>
        requires queue { IsInPass self.now pass.old }
        requires owns { (in_view pass.old).owns ≡ true }
        requires few { length (in_view pass.old).one < 2 ^ 61 }
        ensures queue { IsSameInPass pass.old pass.new }
        ensures popped { IfSome result (λ item. in_view pass.new ≡ owned item (in_view pass.old)) }
        ensures same { IfNone result (in_view pass.new ≡ in_view pass.old) }
        ensures empty { IfNone result (InMoment 0 (in_view pass.old)) }
    {
        self.ring.pop_as::<InPop, R>(rt, &mut pass.pass)
    }

    /// A new pass with one of the pass's parts. The pass keeps at least one.
    #[tactic(auto, using(crate::proofs::InSteps::in_forks))]
    pub fn split(&self, pass: &mut InPass<T>) -> InPass<T>
        requires queue { IsInPass self.now pass.old }
        requires parts { 1 < (in_view pass.old).parts }
        ensures queue { IsSameInPass pass.old pass.new }
        ensures new { IsInPass self.now result × (in_view result ≡ working []) }
        ensures kept { in_view pass.new ≡ lessened (in_view pass.old) }
    {
        InPass {
            pass: self.ring.another::<Parts>(&mut pass.pass),
        }
    }

    /// Takes another pass in, with its parts and its lists, each apart. Where that one is the
    /// owner's, the pass that stays is from then on.
    #[tactic(auto, using(crate::proofs::InSteps::in_merges))]
    pub fn join(&self, pass: &mut InPass<T>, other: InPass<T>)
        requires queue { IsInPass self.now pass.old × IsInPass self.now other }
        ensures queue { IsSameInPass pass.old pass.new }
        ensures joined { in_view pass.new ≡ both (in_view pass.old) (in_view other) }
    {
        self.ring.absorb::<Parts>(&mut pass.pass, other.pass);
    }

    /// How many items the queue held at one moment of the call.
    pub fn waiting<R: Wait>(&self, rt: &R, pass: &mut InPass<T>) -> usize
        requires { IsInPass self.now pass.old }
        ensures queue { IsSameInPass pass.old pass.new }
        ensures same { in_view pass.new ≡ in_view pass.old }
        ensures most { result ≤ in_places self.now }
        ensures moment { InMoment result (in_view pass.old) }
    {
        self.ring.len_as::<InPop, R>(rt, &mut pass.pass)
    }

    /// What a pass with all parts knows: its lists are all that was pushed.
    pub fn total(&self, pass: &mut InPass<T>)
        requires queue { IsInPass self.now pass.old }
        requires whole { IsWhole (in_view pass.old) }
        ensures queue { IsSameInPass pass.old pass.new }
        ensures same { in_view pass.new ≡ in_view pass.old }
        ensures total { (items : List T) × InWhole (in_view pass.old) items }
    {
        self.ring.learn_as::<InPop>(&mut pass.pass);
    }
}
