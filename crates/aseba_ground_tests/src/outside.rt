//! Code over the traits of the outside, and tests of it over each of their forms.
ghost use Rattle.std.specs.Prelude.{◌≡◌, ◌++◌, [], None, Some, codes, IfOk, IfSome, IsErrOf, OnOk};
ghost use Rattle.aseba_edge.specs.Counts.{Rose};
ghost use Rattle.aseba_edge.specs.Link.{Gave};
ghost use Rattle.aseba_edge.specs.Sink.{Took, TookFirst};
ghost use Rattle.aseba_ground_tests.specs.declared.outside.Trouble.TheVariants.{Missing, Read, Write};

mod links;
mod memory;
mod system;
mod tcp;

use aseba_edge::{FileAnswer, Files, LinkIn, PutFault, Sink};
use aseba_words::List;
use std::alloc::Global;

/// What a program over files and a sink may end with.
#[derive(Debug, Drop, PartialEq)]
pub enum Trouble {
    Missing,
    Long,
    Read,
    Write,
    Memory,
}

impl From<PutFault> for Trouble {
    ghost from_gives = { λ _ trouble. trouble ≡ Write };

    fn from(_fault: PutFault) -> Trouble {
        Trouble::Write
    }
}

/// Code over the traits can give a cause for each of its answers, and can't invent one.
pub fn load<F: Files>(alloc: Global, files: &mut F, name: &str) -> Result<List<u8>, Trouble>
    ensures bytes { IfOk result (λ bytes. IfSome (F.contents files.old) (λ held. held name.now ≡ Some bytes)) }
    ensures missing { IsErrOf result Missing →
        IfSome (F.contents files.old) (λ held. held name.now ≡ None) }
    ensures read { IsErrOf result Read → Rose (F.faults files.old) (F.faults files.new) }
    ensures write { IsErrOf result Write → ⊥ }
    ensures kept { F.contents files.new ≡ F.contents files.old }
{
    match files.read(alloc, name, 8) {
        FileAnswer::Bytes(bytes) => Ok(bytes),
        FileAnswer::Absent => Err(Trouble::Missing),
        FileAnswer::TooBig => Err(Trouble::Long),
        FileAnswer::Failed => Err(Trouble::Read),
        FileAnswer::Mem => Err(Trouble::Memory),
    }
}

/// Puts in a row take a text, or its first bytes.
#[tactic(auto, using(aseba_edge::proofs::Puts::puts))]
pub fn copy_line<F: Files, S: Sink>(
    alloc: Global,
    files: &mut F,
    name: &str,
    out: &mut S,
) -> Result<List<u8>, Trouble>
    ensures whole { IfOk result (λ bytes.
        Took (S.taken out.old) (name.now ++ codes ": " ++ bytes ++ codes "\n") (S.taken out.new)) }
    ensures read { IsErrOf result Read → Rose (F.faults files.old) (F.faults files.new) }
    ensures write { IsErrOf result Write → Rose (S.faults out.old) (S.faults out.new) }
{
    let bytes = load(alloc, files, name)?;
    out.put(name.as_bytes())?;
    out.put(b": ")?;
    out.put(bytes.as_slice())?;
    out.put(b"\n")?;
    Ok(bytes)
}

#[tactic(auto, using(aseba_edge::proofs::Puts::puts))]
pub fn put_three<S: Sink>(
    out: &mut S,
    first: &[u8],
    second: &[u8],
    third: &[u8],
) -> Result<(), Trouble>
    ensures whole { OnOk result
        (Took (S.taken out.old) (first.now ++ second.now ++ third.now) (S.taken out.new)) }
    ensures part { TookFirst (S.taken out.old) (first.now ++ second.now ++ third.now) (S.taken out.new) }
    ensures write { IsErrOf result Write → Rose (S.faults out.old) (S.faults out.new) }
{
    out.put(first)?;
    out.put(second)?;
    out.put(third)?;
    Ok(())
}

/// Reading a link to its end gives what it had left.
pub fn read_all<I: LinkIn>(alloc: Global, input: &mut I) -> Result<Vec<u8>, Trouble>
    ensures bytes { IfOk result (λ bytes. Gave (I.contents input.old) bytes.items (I.contents input.new)) }
    ensures ended { OnOk result (IfSome (I.contents input.new) (λ input. input.left ≡ [])) }
    ensures read { IsErrOf result Read → Rose (I.faults input.old) (I.faults input.new) }
{
    let mut bytes = Vec::new(alloc);
    let mut piece = [0u8; 3];
    for _ in 0..u64::MAX {
        let Ok(count) = input.read(&mut piece) else {
            return Err(Trouble::Read);
        };
        if count == 0 {
            return Ok(bytes);
        }
        if bytes.extend_from_slice(&piece[..count]).is_err() {
            return Err(Trouble::Memory);
        }
    }
    Err(Trouble::Memory)
}
