//! The entries of a script, done to a machine.

ghost use Rattle.std.specs.Prelude.{◌≡◌, ◌++◌, map, OnOk, OnErr};
ghost use Rattle.aseba_edge.specs.Counts.{Counts};
ghost use Rattle.aseba_edge.specs.Sink.{Took, TookFirst};
ghost use Rattle.aseba_tree.specs.Line.{named, told};
ghost use Rattle.aseba_tree.specs.Run.{meeting_reports};
ghost use Rattle.aseba_tree.specs.View.{placed_view, project_view};
ghost use Rattle.aseba_target.specs.MachineRun.{meeting_of};
ghost use Rattle.aseba_driver.specs.Driven.{act_text, after_act, told_by, IsKnown};
ghost use Rattle.aseba_driver.specs.Unwritten.{is_write_fault};

use crate::entry::{Act, Entry};
use crate::legend::Legend;
use crate::moment::Moment;
use crate::putting::{Unwritten, put_text};
use crate::report::{EventName, Report, push_told};
use aseba_edge::Sink;
use aseba_text::Text;
use aseba_vm::{Arrival, Machine};
use aseba_words::Mem;
use std::alloc::Global;

/// Does an entry, whatever its time, and writes what comes of it.
#[tactic(auto, using(aseba_edge::proofs::Puts::put_steps))]
pub fn act<S: Sink>(
    alloc: Global,
    machine: &mut Machine,
    legend: &Legend,
    moment: Moment,
    entry: &Entry,
    out: &mut S,
) -> Result<(), Unwritten>
    requires { IsKnown (project_view legend.now.project.now) (map placed_view legend.now.places.now) entry.now }
    ensures machine { machine.new ≡ after_act legend.now machine.old entry.now }
    ensures whole { OnOk result (Took (S.taken out.old) (act_text legend.now moment machine.old entry.now) (S.taken out.new)) }
    ensures part { OnErr result (TookFirst (S.taken out.old) (act_text legend.now moment machine.old entry.now) (S.taken out.new)) }
    ensures count { Counts (is_write_fault result) (S.faults out.old) (S.faults out.new) }
{
    let mut text = Text::new(alloc);
    push_act(&mut text, machine, legend, moment, entry)?;
    put_text(out, &text)
}

/// Does an entry, and adds what comes of it.
fn push_act(
    text: &mut Text,
    machine: &mut Machine,
    legend: &Legend,
    moment: Moment,
    entry: &Entry,
) -> Result<(), Mem>
    requires { IsKnown (project_view legend.now.project.now) (map placed_view legend.now.places.now) entry.now }
    ensures machine { machine.new ≡ after_act legend.now machine.old entry.now }
    ensures told { OnOk result (text.new ≡ text.old ++ act_text legend.now moment machine.old entry.now) }
{
    let name = entry.name.as_bytes();
    match &entry.act {
        Act::Event {
            event,
            source,
            args,
        } => {
            let met = machine.arrive(*event, *source, args.as_slice());
            push_met(text, legend, moment, name, met)
        }
        Act::Set { start, values } => {
            // Values that pass the last cell are refused, and nothing changes: the same as here.
            let _refused = machine.hold_write(*start, values.as_slice());
            push_told(text, moment, Report::WasSet(name))
        }
    }
}

/// Adds what an event met.
#[tactic(auto, using(crate::proofs::LineTexts::two_lines))]
fn push_met(
    text: &mut Text,
    legend: &Legend,
    moment: Moment,
    name: &[u8],
    met: Arrival,
) -> Result<(), Mem>
    ensures { OnOk result (text.new ≡ text.old ++ told_by legend.now (map (told moment.ticks moment.effects) (meeting_reports (named name.now) (meeting_of met)))) }
{
    let event = EventName::Named(name);
    match met {
        Arrival::NoHandler => push_told(text, moment, Report::Ignored(event)),
        Arrival::Dropped => push_told(text, moment, Report::Dropped(event)),
        Arrival::Started => push_told(text, moment, Report::Began(event)),
        Arrival::Killed { pc } => {
            let line = legend.line_of(pc);
            push_told(text, moment, Report::Killed { line })?;
            push_told(text, moment, Report::Began(event))
        }
    }
}
