//! The table of messages: the name of each in a line, and how its fields stand there.
ghost use Rattle.std.specs.Prelude.{◌≡◌, [], ◌∷◌, ◌++◌, codes, map, OnOk};
ghost use Rattle.aseba_dump.specs.Field as field;
ghost use Rattle.aseba_dump.specs.Said.{said, says};
ghost use Rattle.aseba_dump.specs.Adding.{with_said};

use crate::events::push_event;
use crate::fields;
use aseba_payload::Payload;
use aseba_text::Text;
use aseba_tree::{Param, Project};
use aseba_words::Mem;
use std::alloc::Global;

/// A row for each message of numbers alone, and then the others.
macro_rules! tell {
    (
        ($out:ident $payload:ident)
        $($name:literal $variant:ident { $($field:ident),* })*
        $(; $other:pat => $told:expr)*
    ) => {
        match $payload {
            $(Payload::$variant { $($field),* } => push_numbers($out, $name, &[$(*$field),*]),)*
            $($other => $told,)*
        }
    };
}

/// Adds what a message says: its name and its fields.
pub fn push_said(
    alloc: Global,
    out: &mut Text,
    project: &Project,
    payload: &Payload,
) -> Result<(), Mem>
    ensures { OnOk result (out.new ≡ with_said out.old (said project.now payload.now)) }
{
    tell!(
        (out payload)
        b"division" DivisionAt { pc }
        b"killed" KilledAt { pc }
        b"state" State { pc, flags }
        b"breakpoint" BreakSet { pc, result }
        b"present" Present { version }
        b"get-description" GetDescription { version }
        b"reset" Reset { node }
        b"run" Run { node }
        b"pause" Pause { node }
        b"step" Step { node }
        b"stop" Stop { node }
        b"get-state" GetState { node }
        b"set-breakpoint" SetBreak { node, pc }
        b"clear-breakpoint" ClearBreak { node, pc }
        b"clear-breakpoints" ClearBreaks { node }
        b"get-variables" GetVariables { node, start, length }
        b"get-node-description" GetNodeDescription { node, version }
        b"list-nodes" ListNodes { version };
        Payload::User { kind, words } => push_user(out, project, *kind, words.as_slice());
        Payload::Describe { name, version, code, stack, cells, variables, locals, natives } => {
            let numbers = [*version, *code, *stack, *cells, *variables, *locals, *natives];
            push_text_first(alloc, out, b"description", name.as_bytes(), &numbers)
        };
        Payload::Variable { size, name } => push_text(alloc, out, b"variable", *size, name.as_bytes());
        Payload::LocalEvent { name, text } => push_local(alloc, out, name.as_bytes(), text.as_bytes());
        Payload::NativeOf { name, text, params } => {
            push_native(alloc, out, name.as_bytes(), text.as_bytes(), params.as_slice())
        };
        Payload::Variables { start, words } => push_cells(out, b"variables", &[*start], words.as_slice());
        Payload::BoundsAt { pc, size, index } => push_bounds(out, &[*pc, *size], *index);
        Payload::ErrorAt { pc, text } => push_text(alloc, out, b"error", *pc, text.as_bytes());
        Payload::SetBytecode { node, start, words } => push_code(out, b"set-bytecode", &[*node, *start], words.as_slice());
        Payload::SetVariables { node, start, words } => {
            push_cells(out, b"set-variables", &[*node, *start], words.as_slice())
        }
    )
}

/// Adds a message of numbers.
#[tactic(auto, using(crate::proofs::Added::numbers_added))]
fn push_numbers(out: &mut Text, name: &[u8], numbers: &[u16]) -> Result<(), Mem>
    ensures { OnOk result (out.new ≡ with_said out.old (says name.now (map field.number numbers.now))) }
{
    out.push(name)?;
    fields::push_numbers(out, numbers)
}

/// Adds a message of a number and a text.
fn push_text(
    alloc: Global,
    out: &mut Text,
    name: &[u8],
    number: u16,
    text: &[u8],
) -> Result<(), Mem>
    ensures { OnOk result (out.new ≡ with_said out.old (says name.now (field.number number ∷ field.text text.now ∷ []))) }
{
    push_numbers(out, name, &[number])?;
    fields::push_quoted(alloc, out, text)
}

/// Adds a message of numbers and cells.
#[tactic(auto, using(crate::proofs::Added::one_more))]
fn push_cells(out: &mut Text, name: &[u8], numbers: &[u16], words: &[u16]) -> Result<(), Mem>
    ensures { OnOk result (out.new ≡ with_said out.old (says name.now (map field.number numbers.now ++ field.cells words.now ∷ []))) }
{
    push_numbers(out, name, numbers)?;
    fields::push_signed_words(out, words)
}

/// Adds a message of numbers and words of code.
#[tactic(auto, using(crate::proofs::Added::one_more))]
fn push_code(out: &mut Text, name: &[u8], numbers: &[u16], words: &[u16]) -> Result<(), Mem>
    ensures { OnOk result (out.new ≡ with_said out.old (says name.now (map field.number numbers.now ++ field.code words.now ∷ []))) }
{
    push_numbers(out, name, numbers)?;
    fields::push_code(out, words)
}

#[tactic(auto, using(crate::proofs::Added::one_more))]
fn push_bounds(out: &mut Text, numbers: &[u16], index: u16) -> Result<(), Mem>
    ensures { OnOk result (out.new ≡ with_said out.old (says (codes "bounds") (map field.number numbers.now ++ field.signed index ∷ []))) }
{
    push_numbers(out, b"bounds", numbers)?;
    fields::push_signed_word(out, index)
}

/// Adds a message of a text and numbers.
#[tactic(auto, using(crate::proofs::Added::numbers_added))]
fn push_text_first(
    alloc: Global,
    out: &mut Text,
    name: &[u8],
    text: &[u8],
    numbers: &[u16],
) -> Result<(), Mem>
    ensures { OnOk result (out.new ≡ with_said out.old (says name.now (field.text text.now ∷ map field.number numbers.now))) }
{
    out.push(name)?;
    fields::push_quoted(alloc, out, text)?;
    fields::push_numbers(out, numbers)
}

fn push_local(alloc: Global, out: &mut Text, name: &[u8], text: &[u8]) -> Result<(), Mem>
    ensures { OnOk result (out.new ≡ with_said out.old (says (codes "local") (field.text name.now ∷ field.text text.now ∷ []))) }
{
    out.push(b"local")?;
    fields::push_quoted(alloc, out, name)?;
    fields::push_quoted(alloc, out, text)
}

fn push_native(
    alloc: Global,
    out: &mut Text,
    name: &[u8],
    text: &[u8],
    params: &[Param],
) -> Result<(), Mem>
    ensures { OnOk result (out.new ≡ with_said out.old (says (codes "native") (field.text name.now ∷ field.text text.now ∷ field.params params.now ∷ []))) }
{
    out.push(b"native")?;
    fields::push_quoted(alloc, out, name)?;
    fields::push_quoted(alloc, out, text)?;
    fields::push_params(alloc, out, params)
}

/// Adds an event.
fn push_user(out: &mut Text, project: &Project, kind: u16, words: &[u16]) -> Result<(), Mem>
    ensures { OnOk result (out.new ≡ with_said out.old (said project.now (Payload.User kind words.now))) }
{
    push_event(out, project, kind)?;
    fields::push_signed_words(out, words)
}
