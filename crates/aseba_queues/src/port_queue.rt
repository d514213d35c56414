ghost use Rattle.std.specs.Prelude.{◌≡◌, ◌<◌, ◌≤◌, ◌++◌, [], List, true, length, IfErr, IfNone, IfOk, IfSome, OnErr, OnOk};
ghost use Rattle.aseba_queues.specs.Knows.{PortMoment, PortWhole};
ghost use Rattle.aseba_queues.specs.Passes.{IsPortPass, IsSamePortPass, port_places, port_view};
ghost use Rattle.aseba_queues.specs.Views.{IsWhole, both, first, lessened, noted, owned, working};

use crate::parts::Parts;
use crate::port_rule::{PortPop, PortPush, PortRule};
use crate::view::View;
use crossbeam_queue::{Pass, RuledArrayQueue};
use std::alloc::{AllocError, Global};
use std::sync::Wait;

/// A bounded queue into which the pass that came with it pushes, and from which many pop. Threads
/// share it by reference.
#[derive(Drop)]
pub struct PortQueue<T> {
    ring: RuledArrayQueue<T, View<T>, PortRule>,
}

/// The token with which its holder pushes to a `PortQueue`, or pops from it. It has no bytes. One
/// that is dropped keeps its parts, so that no other pass has them all any more.
#[derive(Drop)]
pub struct PortPass<T> {
    pass: Pass<T, View<T>>,
}

impl<T> PortQueue<T> {
    /// An empty queue of so many places, and its owner's pass, which has all parts.
    #[tactic(auto, using(crate::proofs::PortSteps::port_begins))]
    pub fn new(alloc: Global, places: usize) -> Result<(PortQueue<T>, PortPass<T>), AllocError>
        requires { 0 < places }
        ensures places { IfOk result (λ made. port_places made.0 ≡ places) }
        ensures pass { IfOk result (λ made. IsPortPass made.0 made.1 × (port_view made.1 ≡ first)) }
    {
        let (ring, pass) = RuledArrayQueue::ruled(alloc, places)?;
        Ok((PortQueue { ring }, PortPass { pass }))
    }

    /// How many items the queue holds at most.
    pub fn capacity(&self) -> usize
        ensures { result ≡ port_places self.now }
    {
        self.ring.capacity()
    }

    /// Puts the item behind the others. It comes back only where the queue held its capacity at one
    /// moment of the call, so the pass has pushed at least that many.
    pub fn push<R: Wait>(&self, rt: &R, pass: &mut PortPass<T>, item: T) -> Result<(), T>
        requires queue { IsPortPass self.now pass.old }
        requires owns { (port_view pass.old).owns ≡ true }
        ensures queue { IsSamePortPass pass.old pass.new }
        ensures pushed { OnOk result (port_view pass.new ≡ owned item (port_view pass.old)) }
        ensures back { IfErr result (λ back. back ≡ item) }
        ensures same { OnErr result (port_view pass.new ≡ port_view pass.old) }
        ensures full { OnErr result (PortMoment (port_places self.now) (port_view pass.old)) }
        ensures enough { OnErr result (port_places self.now ≤ length (port_view pass.old).one) }
    {
        self.ring.push_as::<PortPush, R>(rt, &mut pass.pass, item)
    }

    /// One attempt to push. The item comes back where the queue is full, and where another thread is
    /// in the way.
    pub fn try_push(&self, pass: &mut PortPass<T>, item: T) -> Result<(), T>
        requires queue { IsPortPass self.now pass.old }
        requires owns { (port_view pass.old).owns ≡ true }
        ensures queue { IsSamePortPass pass.old pass.new }
        ensures pushed { OnOk result (port_view pass.new ≡ owned item (port_view pass.old)) }
        ensures back { IfErr result (λ back. back ≡ item) }
        ensures same { OnErr result (port_view pass.new ≡ port_view pass.old) }
    {
        self.ring.try_push_as::<PortPush>(&mut pass.pass, item)
    }

    /// Takes the oldest item. `None` only where the queue was empty at one moment of the call.
    pub fn pop<R: Wait>(&self, rt: &R, pass: &mut PortPass<T>) -> Option<T>
        requires queue { IsPortPass self.now pass.old }
        requires part { 0 < (port_view pass.old).parts }
        ensures queue { IsSamePortPass pass.old pass.new }
        ensures popped { IfSome result (λ item. port_view pass.new ≡ noted item (port_view pass.old)) }
        ensures same { IfNone result (port_view pass.new ≡ port_view pass.old) }
        ensures empty { IfNone result (PortMoment 0 (port_view pass.old)) }
    {
        self.ring.pop_as::<PortPop, R>(rt, &mut pass.pass)
    }

    /// A new pass with one of the pass's parts. The pass keeps at least one.
    #[tactic(auto, using(crate::proofs::PortSteps::port_forks))]
    pub fn split(&self, pass: &mut PortPass<T>) -> PortPass<T>
        requires queue { IsPortPass self.now pass.old }
        requires parts { 1 < (port_view pass.old).parts }
        ensures queue { IsSamePortPass pass.old pass.new }
        ensures new { IsPortPass self.now result × (port_view result ≡ working []) }
        ensures kept { port_view pass.new ≡ lessened (port_view pass.old) }
    {
        PortPass {
            pass: self.ring.another::<Parts>(&mut pass.pass),
        }
    }

    /// Takes another pass in, with its parts and its lists, each apart. Where that one is the
    /// owner's, the pass that stays is from then on.
    #[tactic(auto, using(crate::proofs::PortSteps::port_merges))]
    pub fn join(&self, pass: &mut PortPass<T>, other: PortPass<T>)
        requires queue { IsPortPass self.now pass.old × IsPortPass self.now other }
        ensures queue { IsSamePortPass pass.old pass.new }
        ensures joined { port_view pass.new ≡ both (port_view pass.old) (port_view other) }
    {
        self.ring.absorb::<Parts>(&mut pass.pass, other.pass);
    }

    /// How many items the queue held at one moment of the call.
    pub fn waiting<R: Wait>(&self, rt: &R, pass: &mut PortPass<T>) -> usize
        requires { IsPortPass self.now pass.old }
        ensures queue { IsSamePortPass pass.old pass.new }
        ensures same { port_view pass.new ≡ port_view pass.old }
        ensures most { result ≤ port_places self.now }
        ensures moment { PortMoment result (port_view pass.old) }
    {
        self.ring.len_as::<PortPop, R>(rt, &mut pass.pass)
    }

    /// What a pass with all parts knows: its lists are all that was popped.
    pub fn total(&self, pass: &mut PortPass<T>)
        requires queue { IsPortPass self.now pass.old }
        requires whole { IsWhole (port_view pass.old) }
        ensures queue { IsSamePortPass pass.old pass.new }
        ensures same { port_view pass.new ≡ port_view pass.old }
        ensures total { (items : List T) × PortWhole (port_view pass.old) items }
    {
        self.ring.learn_as::<PortPop>(&mut pass.pass);
    }
}
