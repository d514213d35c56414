//! Calls by which a subroutine leads back to itself.
ghost use Rattle.std.specs.Prelude.{◌≡◌, ◌↔◌, [], ◌≤◌, length, map, take, drop, None, option_map, IfOk, IsTrue};
ghost use Rattle.aseba_tree.specs.View.{handler_view};
ghost use Rattle.aseba_tree.specs.Faults as tree;
ghost use Rattle.aseba_check.specs.Looked.{looked};
ghost use Rattle.aseba_check.specs.Told.{fault_view};
ghost use Rattle.aseba_check.specs.Cycles as told;
ghost use Rattle.aseba_check.specs.Cycles.{call_view};

use crate::fault::{Fault, Rule, fault_if, least};
use crate::order::order_of;
use crate::reach::leads;
use crate::sub_calls::{SubCall, sub_calls};
use crate::table::Table;
use aseba_tree::Handler;
use aseba_words::{Mem, Name};
use std::alloc::Global;

/// The first by place of the calls that close a cycle with those before them in the text.
///
/// Where the calls in front go down in some rank, none of them closes one, which takes one pass to
/// see; the others are looked at one by one, as long as they stand before the first that is known.
/// In a text that is one call at most, since the ranks are found for as many calls as have any.
pub fn recursion_fault(alloc: Global, parts: &[Handler]) -> Result<Option<Fault>, Mem>
    ensures { IfOk result (λ fault. option_map fault_view fault ≡ tree.first_fault (tree.recursion_faults [] (tree.sub_calls (map handler_view parts.now)))) }
{
    let calls = sub_calls(alloc, parts)?;
    let calls = calls.as_slice();
    let order = order_of(alloc, parts, calls)?;
    let front = descending(&order.ranks, calls);
    closing_fault(alloc, calls, order.places.as_slice(), front)
}

/// How many calls in front go down in rank.
fn descending(ranks: &Table<usize>, calls: &[SubCall]) -> usize
    ensures within { result ≤ length calls.now }
    ensures ranked { told.Ranked (told.rank_by (looked ranks.now)) (map call_view (take result calls.now)) }
{
    for (place, call) in calls.iter().enumerate() {
        if !goes_down(ranks, call) {
            return place;
        }
    }
    calls.len()
}

fn goes_down(ranks: &Table<usize>, call: &SubCall) -> bool
    ensures { IsTrue result ↔ told.GoesDown (told.rank_by (looked ranks.now)) (call_view call.now) }
{
    rank(ranks, call.called) < rank(ranks, call.caller)
}

/// The rank of a name, 0 where it has none.
fn rank(ranks: &Table<usize>, name: &Name) -> usize
    ensures { result ≡ told.rank_by (looked ranks.now) name.now }
{
    ranks.find(name).unwrap_or(0)
}

/// The first by place of the calls behind the first ones that close a cycle with those before them.
fn closing_fault(
    alloc: Global,
    calls: &[SubCall],
    order: &[usize],
    front: usize,
) -> Result<Option<Fault>, Mem>
    requires { front ≤ length calls.now }
    ensures { IfOk result (λ fault. fault ≡ told.cycles_told (map call_view (take front calls.now)) None (map call_view (drop front calls.now))) }
{
    let mut fault = None;
    for place in front..calls.len() {
        fault = with_call(alloc, &calls[..place], order, &calls[place], fault)?;
    }
    Ok(fault)
}

/// The least of faults and that of a call behind calls, where it closes a cycle with them.
fn with_call(
    alloc: Global,
    calls: &[SubCall],
    order: &[usize],
    call: &SubCall,
    before: Option<Fault>,
) -> Result<Option<Fault>, Mem>
    ensures { IfOk result (λ fault. fault ≡ told.with_call (map call_view calls.now) before (call_view call.now)) }
{
    let own = Fault {
        at: call.at,
        rule: Rule::Recursion,
    };
    if !own.may_be_told(before) {
        return Ok(before);
    }
    let closes = leads(alloc, calls, order, call.called, call.caller)?;
    Ok(least(before, fault_if(closes, own.at, own.rule)))
}
