//! The line of a program's words, and how a call that writes a text ended.

ghost use Rattle.std.specs.Prelude.{◌≡◌, IfOk, OnOk, OnErr};
ghost use Rattle.aseba_edge.specs.Counts.{Counts};
ghost use Rattle.aseba_edge.specs.Sink.{Took, TookFirst};
ghost use Rattle.aseba_driver.specs.Unwritten.{is_write_fault};
ghost use Rattle.aseba_tools.specs.CodeLine.{code_line};
ghost use Rattle.aseba_tools.specs.Unwritten.{ended_by};

use crate::status::Status;
use aseba_driver::{Unwritten, put_text};
use aseba_edge::Sink;
use aseba_text::Text;
use aseba_words::Mem;
use std::alloc::Global;

/// Puts the line of a program's words.
#[tactic(auto, using(aseba_edge::proofs::Puts::put_steps))]
pub fn put_code<S: Sink>(alloc: Global, words: &[u16], out: &mut S) -> Result<(), Unwritten>
    ensures whole { OnOk result (Took (S.taken out.old) (code_line words.now) (S.taken out.new)) }
    ensures part { OnErr result (TookFirst (S.taken out.old) (code_line words.now) (S.taken out.new)) }
    ensures count { Counts (is_write_fault result) (S.faults out.old) (S.faults out.new) }
{
    let line = words_line(alloc, words)?;
    put_text(out, &line)
}

/// The line of a program's words.
fn words_line(alloc: Global, words: &[u16]) -> Result<Text, Mem>
    ensures { IfOk result (λ text. text ≡ code_line words.now) }
{
    let mut text = Text::new(alloc);
    text.push(b"code")?;
    text.push_words(words)?;
    text.push(b"\n")?;
    Ok(text)
}

/// The status of a call that wrote a text, or didn't write it whole.
pub fn status_of(written: Result<(), Unwritten>) -> Status
    ensures { result ≡ ended_by written }
{
    match written {
        Ok(()) => Status::Done,
        Err(unwritten) => Status::from(unwritten),
    }
}
