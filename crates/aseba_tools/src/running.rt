//! The run of a program's words, written line by line.

ghost use Rattle.std.specs.Prelude.{◌≡◌, ◌≤◌, All, IfOk, OnErr, OnOk, length, map};
ghost use Rattle.aseba_edge.specs.Counts.{Counts};
ghost use Rattle.aseba_edge.specs.Sink.{Took, TookFirst};
ghost use Rattle.aseba_tree.specs.Inside.{InsideProject};
ghost use Rattle.aseba_tree.specs.View.{placed_view, project_view};
ghost use Rattle.aseba_target.specs.Node.{started};
ghost use Rattle.aseba_driver.specs.Driven.{IsKnown};
ghost use Rattle.aseba_driver.specs.Grammar.{AreInOrder};
ghost use Rattle.aseba_driver.specs.Unwritten.{is_write_fault};
ghost use Rattle.aseba_tools.specs.SimText.{sim_text};

use crate::putting::put_code;
use aseba_compile::Program;
use aseba_driver::{Entry, Legend, Unwritten, drive};
use aseba_edge::Sink;
use aseba_target::shape;
use aseba_tree::Project;
use aseba_vm::Machine;
use aseba_words::Mem;
use std::alloc::Global;

/// Runs a program's words on a project's node for so many ticks with the entries of a script, and
/// writes the words and what the run tells, line by line. Where it isn't written whole, what was
/// written begins it.
pub fn simulate<S: Sink>(
    alloc: Global,
    project: &Project,
    program: &Program,
    script: &[Entry],
    ticks: u32,
    out: &mut S,
) -> Result<(), Unwritten>
    requires inside { InsideProject project.now }
    requires fits { length program.now.image.words ≤ project.now.node.code }
    requires places { length project.now.node.variables ≤ length program.now.places }
    requires known { All (IsKnown (project_view project.now) (map placed_view program.now.places)) script.now }
    requires order { AreInOrder script.now }
    ensures whole { OnOk result (Took (S.taken out.old) (sim_text project.now program.now script.now ticks) (S.taken out.new)) }
    ensures part { OnErr result (TookFirst (S.taken out.old) (sim_text project.now program.now script.now ticks) (S.taken out.new)) }
    ensures count { Counts (is_write_fault result) (S.faults out.old) (S.faults out.new) }
{
    let words = program.image.words.as_slice();
    let places = program.places.as_slice();
    let lines = program.image.lines.as_slice();
    let mut machine = loaded_machine(alloc, project, words)?;
    put_code(alloc, words, out)?;
    let legend = Legend {
        project,
        places,
        cells: program.image.temp_start,
        lines,
    };
    drive(alloc, &mut machine, &legend, script, ticks, out)
}

/// The machine of a project's node with these words, at the beginning of their init code.
fn loaded_machine(alloc: Global, project: &Project, words: &[u16]) -> Result<Machine, Mem>
    requires inside { InsideProject project.now }
    requires fits { length words.now ≤ project.now.node.code }
    ensures { IfOk result (λ machine. machine ≡ started (project_view project.now) words.now) }
{
    let mut machine = Machine::new(alloc, &shape(project), project.id)?;
    match machine.load(0, words) {
        Ok(()) => {}
        Err(_) => unreachable!(),
    }
    machine.reset(false);
    Ok(machine)
}
