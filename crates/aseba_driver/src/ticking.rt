//! The ticks of a machine, and what they tell.

ghost use Rattle.std.specs.Prelude.{◌≡◌, ◌<◌, ◌≤◌, ◌^◌, ◌∷◌, [], take, drop, IfOk, OnOk, OnErr};
ghost use Rattle.aseba_edge.specs.Counts.{Counts};
ghost use Rattle.aseba_edge.specs.Sink.{Took, TookFirst};
ghost use Rattle.aseba_tree.specs.Events.{event_of};
ghost use Rattle.aseba_tree.specs.Line.{lines_text, told};
ghost use Rattle.aseba_tree.specs.Run.{counted};
ghost use Rattle.aseba_tree.specs.View.{project_view};
ghost use Rattle.aseba_target.specs.MachineRun as machine_run;
ghost use Rattle.aseba_driver.specs.Driven.{after_tick, after_ticks, tick_text, ticks_text, IsAt};
ghost use Rattle.aseba_driver.specs.Reported.{name_view, report_text, report_view};
ghost use Rattle.aseba_driver.specs.Unwritten.{is_write_fault};

use crate::legend::Legend;
use crate::moment::Moment;
use crate::putting::{Unwritten, put_text};
use crate::report::{EventName, Report, push_told};
use aseba_edge::Sink;
use aseba_text::Text;
use aseba_tree::Project;
use aseba_vm::{Machine, Notice, Tick};
use aseba_words::Mem;
use std::alloc::Global;

/// Ticks until so many are done, and writes their lines. A machine that is idle or paused is left as
/// it is: its ticks are only counted.
#[tactic(auto, using(aseba_edge::proofs::Puts::put_steps))]
pub fn advance<S: Sink>(
    alloc: Global,
    machine: &mut Machine,
    legend: &Legend,
    moment: Moment,
    until: u64,
    out: &mut S,
) -> Result<Moment, Unwritten>
    requires order { moment.ticks ≤ until }
    requires effects { moment.effects ≤ moment.ticks }
    requires few { until < 2 ^ 63 }
    ensures end { IfOk result (λ end. IsAt (after_ticks legend.now until moment machine.old) end machine.new) }
    ensures few { IfOk result (λ end. end.effects ≤ end.ticks) }
    ensures whole { OnOk result (Took (S.taken out.old) (ticks_text legend.now until moment machine.old) (S.taken out.new)) }
    ensures part { OnErr result (TookFirst (S.taken out.old) (ticks_text legend.now until moment machine.old) (S.taken out.new)) }
    ensures count { Counts (is_write_fault result) (S.faults out.old) (S.faults out.new) }
{
    let mut now = moment;
    for _tick in moment.ticks..until {
        if !is_running(machine) {
            return Ok(Moment {
                ticks: until,
                effects: now.effects,
            });
        }
        now = tick(alloc, machine, legend, now, out)?;
    }
    Ok(now)
}

/// Whether a handler is active and not paused.
fn is_running(machine: &Machine) -> bool
    ensures { result ≡ machine_run.is_running machine.now }
{
    machine.active() && !machine.paused()
}

/// Does one tick and writes its line, if it has one.
pub fn tick<S: Sink>(
    alloc: Global,
    machine: &mut Machine,
    legend: &Legend,
    moment: Moment,
    out: &mut S,
) -> Result<Moment, Unwritten>
    requires ticks { moment.ticks < 2 ^ 63 }
    requires effects { moment.effects < 2 ^ 63 }
    ensures next { IfOk result (λ next. IsAt (after_tick legend.now moment machine.old) next machine.new) }
    ensures whole { OnOk result (Took (S.taken out.old) (tick_text legend.now moment machine.old) (S.taken out.new)) }
    ensures part { OnErr result (TookFirst (S.taken out.old) (tick_text legend.now moment machine.old) (S.taken out.new)) }
    ensures count { Counts (is_write_fault result) (S.faults out.old) (S.faults out.new) }
{
    let answer = machine.tick();
    let effects = effects_with(legend.cells, answer, moment.effects);
    if let Tick::Sent(notice) = answer {
        let now = Moment {
            ticks: moment.ticks,
            effects,
        };
        let text = notice_text(alloc, legend, now, notice, machine.cells())?;
        put_text(out, &text)?;
    }
    Ok(Moment {
        ticks: moment.ticks + 1,
        effects,
    })
}

/// The effects up to a tick, where the variables have so many cells: a store behind them is none.
fn effects_with(cells: u16, tick: Tick, effects: u64) -> u64
    requires { effects < 2 ^ 63 }
    ensures { result ≡ counted (machine_run.is_effect cells tick) effects }
{
    let counts = match tick {
        Tick::Stored { address } => address < cells,
        Tick::Effect | Tick::Sent(_) => true,
        Tick::Idle | Tick::Paused | Tick::Quiet => false,
    };
    if counts { effects + 1 } else { effects }
}

/// The line of a notice. A node error has none. Where a notice has a place of the code, its source
/// line is told.
fn notice_text(
    alloc: Global,
    legend: &Legend,
    moment: Moment,
    notice: Notice,
    cells: &[i16],
) -> Result<Text, Mem>
    ensures { IfOk result (λ text. text ≡ report_text legend.now moment (machine_run.notice_report (project_view legend.now.project.now) cells.now notice)) }
{
    match notice {
        Notice::Emit { event, start, len } => {
            let event = event_name(legend.project, event);
            told_text(alloc, moment, Report::Sent(event, part(cells, start, len)))
        }
        Notice::Bounds { pc, size, index } => {
            let line = legend.line_of(pc);
            told_text(alloc, moment, Report::Bounds { line, size, index })
        }
        Notice::Division { pc } => {
            let line = legend.line_of(pc);
            told_text(alloc, moment, Report::Division { line })
        }
        Notice::NodeError { .. } => Ok(Text::new(alloc)),
    }
}

/// The line of what happens at a moment.
fn told_text(alloc: Global, moment: Moment, report: Report) -> Result<Text, Mem>
    ensures { IfOk result (λ text. text ≡ lines_text (told moment.ticks moment.effects (report_view report.entry) ∷ [])) }
{
    let mut text = Text::new(alloc);
    push_told(&mut text, moment, report)?;
    Ok(text)
}

/// The name of an event, or its number where the project doesn't have it.
fn event_name(project: &Project, event: u16) -> EventName<'_>
    ensures { name_view result ≡ event_of (project_view project.now) event }
{
    let events = project.events.as_slice();
    let number = usize::from(event);
    if number >= events.len() {
        return EventName::Numbered(event);
    }
    EventName::Named(events[number].name.as_bytes())
}

/// The cells from a start on, as many as there are up to a number.
pub fn part(cells: &[i16], start: u16, size: u16) -> &[i16]
    ensures { result.now ≡ take size (drop start cells.now) }
{
    let start = usize::from(start).min(cells.len());
    let rest = &cells[start..];
    let size = usize::from(size).min(rest.len());
    &rest[..size]
}
