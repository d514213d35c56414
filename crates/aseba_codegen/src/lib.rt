//! The words of a source in element form: the generator, the definitions over which the compiler
//! speaks, and the laws that the machine runs generated code as its core does and that the bits of
//! `when`s stand at their places. The laws are functions with an empty body, so that a check proves
//! what they say.
#![tactic(auto)]

ghost use Rattle.aseba_codegen.specs.CodeRuns.{CodeCalls, CodeRuns};
ghost use Rattle.aseba_codegen.specs.Places.{BitsStandAtPlaces};
ghost use Rattle.aseba_codegen.specs.PlacesByText.{BitsByText, HasBitsByText, PlacesByText};
ghost use Rattle.aseba_codegen.specs.WorkedCode.{BranchesWorked, CallsWorked, DividingWorked, FarWorked, LoopsWorked};

mod code;
mod coded;
mod error;
mod image;
mod parts;
mod stack;
mod starts;
mod statements;
mod words;

pub use coded::Coded;
pub use error::GenError;
pub use image::{Image, generate};

/// The code of any core that its node has room for runs as the core does, whatever arrives, as long
/// as the natives that are called are known: with the lines of its steps, at its pace, and without
/// a node error. Where the next tick is an effect, machine and core call the same native or none,
/// also one that isn't known.
pub fn code_runs()
    ensures runs { CodeRuns }
    ensures calls { CodeCalls }
{}

/// Where the branch words of `when`s have their bits, the bits by places are these.
pub fn bits_stand_at_places()
    ensures { BitsStandAtPlaces }
{}

/// The bits of `when`s go by the text, also where the code has its parts in another order.
pub fn whens_by_text()
    ensures places { PlacesByText }
    ensures bits { BitsByText }
    ensures has_bits { HasBitsByText }
{}

/// Small cores have the words that were worked by hand, and come to their lines.
pub fn worked_codes()
    ensures branches { BranchesWorked }
    ensures loops { LoopsWorked }
    ensures calls { CallsWorked }
    ensures dividing { DividingWorked }
    ensures far { FarWorked }
{}
