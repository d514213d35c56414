ghost use Rattle.std.specs.Prelude.{◌≡◌, ◌<◌, ◌^◌, ◌++◌, ◌&&◌, [], IfOk, MatchResult, OnOk, Some, drop, if◌then◌else◌, is_some, nat_lt, not, option_to_list, reverse, vec_capacity, vec_len};
ghost use Rattle.aseba_edge.specs.Counts.{Counts};
ghost use Rattle.aseba_edge.specs.Dialer.{IsFresh, after_fault, after_link, due, is_refused};
ghost use Rattle.aseba_edge.specs.Plan.{after_call, fails_next};

use crate::dialer::{DialFault, Dialer};
use crate::memory_in::MemoryIn;
use crate::memory_link::{MemoryLink, MemoryPolledLink};
use crate::memory_out::MemoryOut;
use crate::memory_poll::MemoryPoll;
use crate::plan::Plan;
use crate::reserved::push_reserved;
use aseba_words::{List, Mem, Name};
use std::alloc::Global;

/// A dial that was answered: for which address, and the mark of the link, if one was given.
#[derive(Debug, Drop)]
pub(crate) struct Dial {
    pub address: Name,
    pub mark: Option<u64>,
}

/// A dialer in memory. It gives its links in their order, and refuses where none is left. Given
/// dials are refused too, the first being number 1. One for which memory doesn't suffice has its
/// number as well, but takes no link and isn't a fault.
#[derive(Drop)]
pub struct MemoryDialer {
    /// The next one stands last.
    links: Vec<MemoryLink>,
    polled: Vec<MemoryPolledLink>,
    dials: Vec<Dial>,
    plan: Plan,
    ghost counted: { plan.faults < 2 ^ 64 },
}

/// Makes room for one dial more, and copies its address.
fn prepare(alloc: Global, dials: &mut Vec<Dial>, address: &str) -> Result<Name, Mem>
    ensures address { IfOk result (λ name. name ≡ address.now) }
    ensures same { dials.new.items ≡ dials.old.items }
    ensures room { OnOk result (vec_len dials.new < vec_capacity dials.new) }
{
    dials.reserve(1)?;
    Name::new(alloc, address.as_bytes())
}

/// The link that is given next, none where the dial is to fail.
pub(crate) fn next_link<L>(links: &mut Vec<L>, fails: bool) -> Option<L>
    ensures given { links.old.items ≡ links.new.items ++ option_to_list result }
    ensures some { is_some result ≡ (not fails && nat_lt 0 (vec_len links.old)) }
    ensures due { result ≡ due fails (reverse links.old.items) }
    ensures left { reverse links.new.items ≡
        (if is_some result then drop 1 (reverse links.old.items) else reverse links.old.items) }
{
    if fails {
        return None;
    }
    links.pop()
}

impl MemoryDialer {
    ghost use Rattle.aseba_edge.specs.MemoryDialer.{links_left, polled_left};

    /// Takes no memory.
    pub fn new(
        alloc: Global,
        links: List<MemoryLink>,
        polled: List<MemoryPolledLink>,
        failing: List<u64>,
    ) -> MemoryDialer
        ensures dials { result.dials.items ≡ [] }
        ensures links { result.links.items ≡ reverse links }
        ensures polled { result.polled.items ≡ reverse polled }
        ensures order { links_left result ≡ links }
        ensures polled_order { polled_left result ≡ polled }
        ensures plan { result.plan ≡ record { failing = failing; calls = 0; faults = 0 } }
    {
        let mut links = links.into_vec();
        links.reverse();
        let mut polled = polled.into_vec();
        polled.reverse();
        MemoryDialer {
            links,
            polled,
            dials: Vec::new(alloc),
            plan: Plan::new(failing),
        }
    }
}

impl Dialer for MemoryDialer {
    ghost use Rattle.aseba_edge.specs.MemoryDialer.{GivesDue, GivesDuePolled, dialed_by, dials_after, left_behind, links_left, polled_left};

    type In = MemoryIn;

    type Out = MemoryOut;

    type Poll = MemoryPoll;

    ghost contents = { λ dialer. Some (dialed_by dialer.dials.items) };

    ghost faults = { λ dialer. dialer.plan.faults };

    ghost bounds_faults = { λ dialer. dialer.counted };

    fn dial(&mut self, alloc: Global, address: &str) -> Result<(MemoryIn, MemoryOut), DialFault>
        ensures fresh { IfOk result (λ link. IsFresh
            link.0.plan.faults (Some link.0.tape) (Some link.0.mark)
            link.1.sink.plan.faults (Some link.1.sink.bytes.items) (Some link.1.mark)) }
        ensures asked { MatchResult result
            (λ link. dialed_by self.new.dials.items ≡
            after_link address.now (Some link.0.mark) (dialed_by self.old.dials.items))
            (λ fault. dialed_by self.new.dials.items ≡
            after_fault address.now fault (dialed_by self.old.dials.items)) }
        ensures count { Counts (is_refused result) self.old.plan.faults self.new.plan.faults }
        ensures due { GivesDue (due (fails_next self.old.plan) (links_left self.old)) result }
        ensures left { links_left self.new ≡ left_behind result (links_left self.old) }
        ensures polled { self.new.polled ≡ self.old.polled }
        ensures dials { self.new.dials.items ≡
            dials_after address.now (λ link. link.0.mark) result self.old.dials.items }
        ensures plan { self.new.plan ≡ after_call (is_refused result) self.old.plan }
    {
        let fails = self.plan.begin();
        let address = prepare(alloc, &mut self.dials, address)?;
        match next_link(&mut self.links, fails) {
            Some(MemoryLink { input, output }) => {
                let mark = Some(input.mark());
                push_reserved(&mut self.dials, Dial { address, mark });
                Ok((input, output))
            }
            None => {
                let mark = None;
                push_reserved(&mut self.dials, Dial { address, mark });
                self.plan.fail();
                Err(DialFault::Refused)
            }
        }
    }

    fn dial_polled(
        &mut self,
        alloc: Global,
        address: &str,
    ) -> Result<(MemoryPoll, MemoryOut), DialFault>
        ensures fresh { IfOk result (λ link. IsFresh
            link.0.plan.faults (Some link.0.tape) (Some link.0.mark)
            link.1.sink.plan.faults (Some link.1.sink.bytes.items) (Some link.1.mark)) }
        ensures asked { MatchResult result
            (λ link. dialed_by self.new.dials.items ≡
            after_link address.now (Some link.0.mark) (dialed_by self.old.dials.items))
            (λ fault. dialed_by self.new.dials.items ≡
            after_fault address.now fault (dialed_by self.old.dials.items)) }
        ensures count { Counts (is_refused result) self.old.plan.faults self.new.plan.faults }
        ensures due { GivesDuePolled (due (fails_next self.old.plan) (polled_left self.old)) result }
        ensures left { polled_left self.new ≡ left_behind result (polled_left self.old) }
        ensures links { self.new.links ≡ self.old.links }
        ensures dials { self.new.dials.items ≡
            dials_after address.now (λ link. link.0.mark) result self.old.dials.items }
        ensures plan { self.new.plan ≡ after_call (is_refused result) self.old.plan }
    {
        let fails = self.plan.begin();
        let address = prepare(alloc, &mut self.dials, address)?;
        match next_link(&mut self.polled, fails) {
            Some(MemoryPolledLink { input, output }) => {
                let mark = Some(input.mark());
                push_reserved(&mut self.dials, Dial { address, mark });
                Ok((input, output))
            }
            None => {
                let mark = None;
                push_reserved(&mut self.dials, Dial { address, mark });
                self.plan.fail();
                Err(DialFault::Refused)
            }
        }
    }
}
