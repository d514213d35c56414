//! A machine that is driven through a script.

ghost use Rattle.std.specs.Prelude.{◌≡◌, ◌<◌, ◌≤◌, ◌^◌, ◌∷◌, [], length, map, All, IfOk, OnOk, OnErr};
ghost use Rattle.aseba_edge.specs.Counts.{Counts};
ghost use Rattle.aseba_edge.specs.Sink.{Took, TookFirst};
ghost use Rattle.aseba_tree.specs.Line.{lines_text};
ghost use Rattle.aseba_tree.specs.View.{placed_view, project_view};
ghost use Rattle.aseba_driver.specs.Driven.{after_entry, after_script, due_by, end_line, ending_text, entry_text, run_text, script_text, var_lines, IsAt, IsKnown};
ghost use Rattle.aseba_driver.specs.Grammar.{AreInOrder};
ghost use Rattle.aseba_driver.specs.Unwritten.{is_write_fault};

use crate::acting::act;
use crate::entry::Entry;
use crate::legend::Legend;
use crate::moment::Moment;
use crate::putting::{Unwritten, put_text};
use crate::report::{push_end, push_variable};
use crate::ticking::{advance, part};
use aseba_edge::Sink;
use aseba_text::Text;
use aseba_tree::Placed;
use aseba_vm::Machine;
use std::alloc::Global;

/// Drives a machine through a script for so many ticks, counted from 0, and writes what the run tells
/// and leaves, line by line. Before each tick the entries of its time are done in order; those of
/// later times are left out. Where it isn't written whole, what was written begins it.
pub fn drive<S: Sink>(
    alloc: Global,
    machine: &mut Machine,
    legend: &Legend,
    script: &[Entry],
    ticks: u32,
    out: &mut S,
) -> Result<(), Unwritten>
    requires known { All (IsKnown (project_view legend.now.project.now) (map placed_view legend.now.places.now)) script.now }
    requires order { AreInOrder script.now }
    requires own { length legend.now.project.now.node.variables ≤ length legend.now.places.now }
    ensures whole { OnOk result (Took (S.taken out.old) (run_text legend.now script.now ticks machine.old) (S.taken out.new)) }
    ensures part { OnErr result (TookFirst (S.taken out.old) (run_text legend.now script.now ticks machine.old) (S.taken out.new)) }
    ensures count { Counts (is_write_fault result) (S.faults out.old) (S.faults out.new) }
{
    let end = run_script(alloc, machine, legend, script, ticks, out)?;
    put_ending(alloc, legend.own_places(), machine.cells(), end, out)
}

/// Does the ticks with the script, and writes their lines.
fn run_script<S: Sink>(
    alloc: Global,
    machine: &mut Machine,
    legend: &Legend,
    script: &[Entry],
    ticks: u32,
    out: &mut S,
) -> Result<Moment, Unwritten>
    requires known { All (IsKnown (project_view legend.now.project.now) (map placed_view legend.now.places.now)) script.now }
    requires order { AreInOrder script.now }
    ensures end { IfOk result (λ end. IsAt (after_script legend.now script.now ticks machine.old) end machine.new) }
    ensures whole { OnOk result (Took (S.taken out.old) (script_text legend.now script.now ticks machine.old) (S.taken out.new)) }
    ensures part { OnErr result (TookFirst (S.taken out.old) (script_text legend.now script.now ticks machine.old) (S.taken out.new)) }
    ensures count { Counts (is_write_fault result) (S.faults out.old) (S.faults out.new) }
{
    let mut moment = Moment {
        ticks: 0,
        effects: 0,
    };
    let until = u64::from(ticks);
    let entries = due(script, until);
    for entry in entries {
        moment = do_entry(alloc, machine, legend, moment, entry, out)?;
    }
    advance(alloc, machine, legend, moment, until, out)
}

/// The entries in front of the first one whose time isn't below a number.
fn due(script: &[Entry], ticks: u64) -> &[Entry]
    ensures { result.now ≡ due_by ticks script.now }
{
    for (i, entry) in script.iter().enumerate() {
        if entry.time >= ticks {
            return &script[..i];
        }
    }
    script
}

/// Ticks up to the time of an entry, and then does the entry.
fn do_entry<S: Sink>(
    alloc: Global,
    machine: &mut Machine,
    legend: &Legend,
    moment: Moment,
    entry: &Entry,
    out: &mut S,
) -> Result<Moment, Unwritten>
    requires known { IsKnown (project_view legend.now.project.now) (map placed_view legend.now.places.now) entry.now }
    requires order { moment.ticks ≤ entry.now.time }
    requires effects { moment.effects ≤ moment.ticks }
    requires few { entry.now.time < 2 ^ 63 }
    ensures end { IfOk result (λ end. IsAt (after_entry legend.now moment machine.old entry.now) end machine.new) }
    ensures few { IfOk result (λ end. end.effects ≤ end.ticks) }
    ensures whole { OnOk result (Took (S.taken out.old) (entry_text legend.now moment machine.old entry.now) (S.taken out.new)) }
    ensures part { OnErr result (TookFirst (S.taken out.old) (entry_text legend.now moment machine.old entry.now) (S.taken out.new)) }
    ensures count { Counts (is_write_fault result) (S.faults out.old) (S.faults out.new) }
{
    let now = advance(alloc, machine, legend, moment, entry.time, out)?;
    act(alloc, machine, legend, now, entry, out)?;
    Ok(now)
}

/// Writes the lines of the variables and the last line.
fn put_ending<S: Sink>(
    alloc: Global,
    variables: &[Placed],
    cells: &[i16],
    end: Moment,
    out: &mut S,
) -> Result<(), Unwritten>
    ensures whole { OnOk result (Took (S.taken out.old) (ending_text (map placed_view variables.now) cells.now end) (S.taken out.new)) }
    ensures part { OnErr result (TookFirst (S.taken out.old) (ending_text (map placed_view variables.now) cells.now end) (S.taken out.new)) }
    ensures count { Counts (is_write_fault result) (S.faults out.old) (S.faults out.new) }
{
    put_variables(alloc, variables, cells, out)?;
    put_end(alloc, end, out)
}

/// Writes the lines of the variables.
fn put_variables<S: Sink>(
    alloc: Global,
    variables: &[Placed],
    cells: &[i16],
    out: &mut S,
) -> Result<(), Unwritten>
    ensures whole { OnOk result (Took (S.taken out.old) (lines_text (var_lines cells.now (map placed_view variables.now))) (S.taken out.new)) }
    ensures part { OnErr result (TookFirst (S.taken out.old) (lines_text (var_lines cells.now (map placed_view variables.now))) (S.taken out.new)) }
    ensures count { Counts (is_write_fault result) (S.faults out.old) (S.faults out.new) }
{
    for variable in variables {
        put_variable(alloc, variable, cells, out)?;
    }
    Ok(())
}

/// Writes the line of a variable.
#[tactic(auto, using(aseba_edge::proofs::Puts::put_steps))]
fn put_variable<S: Sink>(
    alloc: Global,
    variable: &Placed,
    cells: &[i16],
    out: &mut S,
) -> Result<(), Unwritten>
    ensures whole { OnOk result (Took (S.taken out.old) (lines_text (var_lines cells.now (placed_view variable.now ∷ []))) (S.taken out.new)) }
    ensures part { OnErr result (TookFirst (S.taken out.old) (lines_text (var_lines cells.now (placed_view variable.now ∷ []))) (S.taken out.new)) }
    ensures count { Counts (is_write_fault result) (S.faults out.old) (S.faults out.new) }
{
    let mut text = Text::new(alloc);
    let held = part(cells, variable.start, variable.size);
    push_variable(&mut text, variable.name.as_bytes(), held)?;
    put_text(out, &text)
}

/// Writes the last line.
#[tactic(auto, using(aseba_edge::proofs::Puts::put_steps))]
fn put_end<S: Sink>(alloc: Global, end: Moment, out: &mut S) -> Result<(), Unwritten>
    ensures whole { OnOk result (Took (S.taken out.old) (lines_text (end_line end)) (S.taken out.new)) }
    ensures part { OnErr result (TookFirst (S.taken out.old) (lines_text (end_line end)) (S.taken out.new)) }
    ensures count { Counts (is_write_fault result) (S.faults out.old) (S.faults out.new) }
{
    let mut text = Text::new(alloc);
    push_end(&mut text, end)?;
    put_text(out, &text)
}
