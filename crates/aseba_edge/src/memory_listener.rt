ghost use Rattle.std.specs.Prelude.{◌≡◌, ◌<◌, ◌≤◌, ◌^◌, ◌+◌, ◌++◌, ◌∷◌, [], IsErr, OnErr, OnOk, Some, false, is_err, reverse, true, vec_capacity, vec_len};
ghost use Rattle.aseba_edge.specs.Counts.{Counts};
ghost use Rattle.aseba_edge.specs.Dialer.{IsFresh};
ghost use Rattle.aseba_edge.specs.Listener.{IfLink, IsNext, after_accept, after_back, after_open, is_failed};
ghost use Rattle.aseba_edge.specs.Plan.{after_call, fails_next};

use crate::listener::{Accepted, ListenFault, Listener};
use crate::memory_dialer::next_link;
use crate::memory_in::MemoryIn;
use crate::memory_link::MemoryLink;
use crate::memory_out::MemoryOut;
use crate::plan::Plan;
use crate::reserved::push_reserved;
use aseba_words::{List, Mem};
use std::alloc::Global;

/// A link in memory as it came back to its listener.
#[derive(Drop)]
pub struct MemoryEnds {
    pub input: MemoryIn,
    pub output: MemoryOut,
}

/// A listener in memory. It gives its links in their order, and says then that there is no more.
/// Given calls fail, openings and acceptances in one row, the first being number 1. One that isn't
/// open gives links all the same.
#[derive(Drop)]
pub struct MemoryListener {
    ports: Vec<u16>,
    /// The next one stands last.
    links: Vec<MemoryLink>,
    /// The marks of the links that were given.
    gave: Vec<u64>,
    back: Vec<MemoryEnds>,
    has_ended: bool,
    plan: Plan,
    ghost counted: { plan.faults < 2 ^ 64 },
    ghost fewer: { vec_len back ≤ vec_len gave },
    ghost reserved: { vec_len gave ≤ vec_capacity back },
}

/// Makes room for one link more: for its mark, and for itself when it comes back.
fn prepare(gave: &mut Vec<u64>, back: &mut Vec<MemoryEnds>) -> Result<(), Mem>
    requires fewer { vec_len back.old ≤ vec_len gave.old }
    requires reserved { vec_len gave.old ≤ vec_capacity back.old }
    ensures gave { gave.new.items ≡ gave.old.items }
    ensures back { back.new.items ≡ back.old.items }
    ensures kept { vec_len gave.new ≤ vec_capacity back.new }
    ensures room { OnOk result (vec_len gave.new < vec_capacity gave.new) }
    ensures room_back { OnOk result (vec_len gave.new < vec_capacity back.new) }
{
    gave.reserve(1)?;
    back.reserve(gave.len() - back.len() + 1)?;
    Ok(())
}

impl MemoryListener {
    ghost use Rattle.aseba_edge.specs.MemoryListener.{linked, links_left, listened_by};

    /// Takes no memory.
    pub fn new(alloc: Global, links: List<MemoryLink>, failing: List<u64>) -> MemoryListener
        ensures ports { result.ports.items ≡ [] }
        ensures links { links_left result ≡ links }
        ensures gave { result.gave.items ≡ [] }
        ensures back { result.back.items ≡ [] }
        ensures fresh { result.has_ended ≡ false }
        ensures plan { result.plan ≡ record { failing = failing; calls = 0; faults = 0 } }
    {
        let mut links = links.into_vec();
        links.reverse();
        MemoryListener {
            ports: Vec::new(alloc),
            links,
            gave: Vec::new(alloc),
            back: Vec::new(alloc),
            has_ended: false,
            plan: Plan::new(failing),
        }
    }

    /// The links that came back, in order.
    pub fn returned(&self) -> &[MemoryEnds]
        ensures { result.now ≡ self.now.back.items }
    {
        self.back.as_slice()
    }

    /// The ports that it was opened at, in order.
    pub fn ports(&self) -> &[u16]
        ensures { result.now ≡ self.now.ports.items }
    {
        self.ports.as_slice()
    }

    /// How many calls have failed.
    pub fn faults(&self) -> u64
        ensures { result ≡ self.now.plan.faults }
    {
        self.plan.faults
    }

    /// Gives the next link, for which there is room.
    fn give(&mut self) -> Accepted<MemoryIn, MemoryOut>
        requires room { vec_len self.old.gave < vec_capacity self.old.gave }
        requires room_back { vec_len self.old.gave < vec_capacity self.old.back }
        ensures fresh { IfLink result (λ input output. IsFresh
            input.plan.faults (Some input.tape) (Some input.mark)
            output.sink.plan.faults (Some output.sink.bytes.items) (Some output.mark)) }
        ensures next { IsNext linked result (listened_by self.old) }
        ensures given { listened_by self.new ≡
            after_accept (λ input. Some input.mark) result (listened_by self.old) }
        ensures done { is_failed result ≡ false }
        ensures plan { self.new.plan ≡ self.old.plan }
    {
        match next_link(&mut self.links, false) {
            Some(MemoryLink { input, output }) => {
                push_reserved(&mut self.gave, input.mark());
                Accepted::Link(input, output)
            }
            None => {
                self.has_ended = true;
                Accepted::NoMore
            }
        }
    }
}

impl Listener for MemoryListener {
    ghost use Rattle.aseba_edge.specs.MemoryListener.{linked, listened_by};

    type In = MemoryIn;

    type Out = MemoryOut;

    ghost contents = { λ listener. Some (listened_by listener) };

    ghost faults = { λ listener. listener.plan.faults };

    ghost bounds_faults = { λ listener. listener.counted };

    fn open(&mut self, port: u16) -> Result<(), ListenFault>
        ensures opened { OnOk result (listened_by self.new ≡ after_open port (listened_by self.old)) }
        ensures kept { OnErr result (listened_by self.new ≡ listened_by self.old) }
        ensures count { Counts (is_err result) self.old.plan.faults self.new.plan.faults }
        ensures named { fails_next self.old.plan ≡ true → IsErr result }
        ensures plan { self.new.plan ≡ after_call (is_err result) self.old.plan }
    {
        if self.plan.begin() || self.ports.push(port).is_err() {
            self.plan.fail();
            return Err(ListenFault);
        }
        Ok(())
    }

    fn accept(&mut self, _alloc: Global) -> Accepted<MemoryIn, MemoryOut>
        ensures fresh { IfLink result (λ input output. IsFresh
            input.plan.faults (Some input.tape) (Some input.mark)
            output.sink.plan.faults (Some output.sink.bytes.items) (Some output.mark)) }
        ensures next { IsNext linked result (listened_by self.old) }
        ensures given { listened_by self.new ≡
            after_accept (λ input. Some input.mark) result (listened_by self.old) }
        ensures count { Counts (is_failed result) self.old.plan.faults self.new.plan.faults }
        ensures fails { is_failed result ≡ fails_next self.old.plan }
        ensures plan { self.new.plan ≡ after_call (is_failed result) self.old.plan }
    {
        if self.plan.begin() {
            self.plan.fail();
            return Accepted::Failed;
        }
        if prepare(&mut self.gave, &mut self.back).is_err() {
            return Accepted::Mem;
        }
        self.give()
    }

    fn back(&mut self, input: MemoryIn, output: MemoryOut)
        ensures back { listened_by self.new ≡ after_back (linked input output) (listened_by self.old) }
        ensures plan { self.new.plan ≡ self.old.plan }
    {
        if self.back.len() < self.gave.len() {
            push_reserved(&mut self.back, MemoryEnds { input, output });
        }
    }
}
