//! Which subroutines calls lead to.
ghost use Rattle.std.specs.Prelude.{◌≡◌, false, map, IfOk, OnOk};
ghost use Rattle.aseba_check.specs.Looked.{looked};
ghost use Rattle.aseba_check.specs.Cycles as told;
ghost use Rattle.aseba_check.specs.Cycles.{call_view};

use crate::sub_calls::SubCall;
use crate::table::Table;
use aseba_words::{Mem, Name};
use std::alloc::Global;

/// Whether calls lead from one subroutine to another. They are first followed in the given order,
/// by their places: where in it each stands behind those that lead to it, one pass over all of
/// them is enough then.
pub fn leads(
    alloc: Global,
    calls: &[SubCall],
    order: &[usize],
    from: &Name,
    to: &Name,
) -> Result<bool, Mem>
    ensures { IfOk result (λ led. led ≡ told.led (map call_view calls.now) from.now to.now) }
{
    let mut marks = Table::new(alloc);
    marks.set(alloc, from, ())?;
    follow(alloc, calls, order, &mut marks)?;
    loop {
        if !pass_all(alloc, calls, &mut marks)? {
            return Ok(marks.find(to).is_some());
        }
    }
}

/// Passes the calls at these places.
fn follow(
    alloc: Global,
    calls: &[SubCall],
    order: &[usize],
    marks: &mut Table<()>,
) -> Result<(), Mem>
    ensures { OnOk result (told.Spreads (map call_view calls.now) (looked marks.old) (looked marks.new)) }
{
    for place in order {
        if let Some(call) = calls.get(*place) {
            pass(alloc, call, marks)?;
        }
    }
    Ok(())
}

/// Passes all calls, and tells whether one of them led on.
fn pass_all(alloc: Global, calls: &[SubCall], marks: &mut Table<()>) -> Result<bool, Mem>
    ensures more { IfOk result (λ more. more ≡ told.any_leads_on false (looked marks.old) (map call_view calls.now)) }
    ensures marks { OnOk result (looked marks.new ≡ told.all_passed (looked marks.old) (map call_view calls.now)) }
{
    let mut more = false;
    for call in calls {
        more |= pass(alloc, call, marks)?;
    }
    Ok(more)
}

/// Marks the name that a call leads to from a marked one, and tells whether it wasn't marked.
fn pass(alloc: Global, call: &SubCall, marks: &mut Table<()>) -> Result<bool, Mem>
    ensures more { IfOk result (λ more. more ≡ told.leads_on (looked marks.old) (call_view call.now)) }
    ensures marks { OnOk result (looked marks.new ≡ told.passed (looked marks.old) (call_view call.now)) }
{
    if marks.find(call.caller).is_some() && marks.find(call.called).is_none() {
        marks.set(alloc, call.called, ())?;
        Ok(true)
    } else {
        Ok(false)
    }
}
