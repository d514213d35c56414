//! What is said in several frames: a description part by part, and cells run by run.
ghost use Rattle.std.specs.Prelude.{◌≡◌, ◌+◌, ◌≤◌, [], ◌∷◌, All, IfOk, OnOk, length, map};
ghost use Rattle.aseba_tree.specs.Inside.{InsideDescription, InsideLocal, InsideNative, InsideSized};
ghost use Rattle.aseba_node.specs.Saying.{also_said};
ghost use Rattle.aseba_node.specs.Told.{description_of, head_of, local_of, native_of, runs_of, variable_of, words_of};

use crate::cells::words_of;
use crate::outbox::Outbox;
use aseba_payload::Payload;
use aseba_tree::{Description, Local, Native, Sized};
use aseba_words::Mem;

/// The version of the messages.
pub const VERSION: u16 = 5;

/// How many cells a frame tells at most.
const RUN: usize = 255;

/// Says a description: its head, and then each part in order.
pub fn say_description(outbox: &mut Outbox, description: &Description) -> Result<(), Mem>
    requires { InsideDescription description.now }
    ensures { OnOk result (outbox.new ≡ also_said (description_of description.now) outbox.old) }
{
    say_head(outbox, description)?;
    say_variables(outbox, description.variables.as_slice())?;
    say_locals(outbox, description.locals.as_slice())?;
    say_natives(outbox, description.natives.as_slice())
}

/// Says how much of each there is.
fn say_head(outbox: &mut Outbox, description: &Description) -> Result<(), Mem>
    requires { InsideDescription description.now }
    ensures { OnOk result (outbox.new ≡ also_said (head_of description.now ∷ []) outbox.old) }
{
    let name = description.name.copy(outbox.alloc())?;
    outbox.say(&Payload::Describe {
        name,
        version: VERSION,
        code: description.code,
        stack: description.stack,
        cells: description.cells,
        variables: description.variables.as_slice().len() as u16,
        locals: description.locals.as_slice().len() as u16,
        natives: description.natives.as_slice().len() as u16,
    })
}

/// Says each named variable.
fn say_variables(outbox: &mut Outbox, variables: &[Sized]) -> Result<(), Mem>
    requires { All (InsideSized 1 4096) variables.now }
    ensures { OnOk result (outbox.new ≡ also_said (map variable_of variables.now) outbox.old) }
{
    for variable in variables {
        let name = variable.name.copy(outbox.alloc())?;
        outbox.say(&Payload::Variable {
            size: variable.size,
            name,
        })?;
    }
    Ok(())
}

/// Says each local event.
fn say_locals(outbox: &mut Outbox, locals: &[Local]) -> Result<(), Mem>
    requires { All InsideLocal locals.now }
    ensures { OnOk result (outbox.new ≡ also_said (map local_of locals.now) outbox.old) }
{
    for local in locals {
        let name = local.name.copy(outbox.alloc())?;
        let text = local.text.copy(outbox.alloc())?;
        outbox.say(&Payload::LocalEvent { name, text })?;
    }
    Ok(())
}

/// Says each native function.
fn say_natives(outbox: &mut Outbox, natives: &[Native]) -> Result<(), Mem>
    requires { All InsideNative natives.now }
    ensures { OnOk result (outbox.new ≡ also_said (map native_of natives.now) outbox.old) }
{
    for native in natives {
        let Native { name, text, params } = native.copy(outbox.alloc())?;
        outbox.say(&Payload::NativeOf { name, text, params })?;
    }
    Ok(())
}

/// Says cells, of which the first is at an address, in runs of 255 and a last one with the rest.
pub fn say_cells(outbox: &mut Outbox, start: u16, cells: &[i16]) -> Result<(), Mem>
    requires { start + length cells.now ≤ 65535 }
    ensures { OnOk result (outbox.new ≡ also_said (runs_of start (words_of cells.now)) outbox.old) }
{
    for which in 0..cells.len().div_ceil(RUN) {
        let first = RUN * which;
        let end = (first + RUN).min(cells.len());
        let words = words_of(outbox.alloc(), &cells[first..end])?;
        outbox.say(&Payload::Variables {
            start: start + first as u16,
            words,
        })?;
    }
    Ok(())
}
