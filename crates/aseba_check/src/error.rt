ghost use Rattle.aseba_check.specs.declared.error.CheckError.TheVariants as Error;
ghost use Rattle.std.specs.Prelude.{◌≡◌, Some};
ghost use Rattle.aseba_tree.specs.Soundness.{broken};
ghost use Rattle.aseba_check.specs.Refused.{refusal_of};
ghost use Rattle.aseba_check.specs.Told.{fault_view};

use crate::fault::{Fault, Rule};
use aseba_tree::Pos;
use aseba_words::Mem;
use thiserror::Error;

/// Why a source is refused in its project: the first rule in the text that it breaks; else that its
/// variables have no room, or that a subroutine begins where no call reaches it.
#[derive(Clone, Copy, Debug, PartialEq, Eq, Error)]
pub enum CheckError {
    /// A name that no declaration before it and no constant, node variable, event, native or subroutine
    /// has, in the role in which it is used.
    #[error("{}:{}: there is nothing of this name", .at.line, .at.col)]
    Unknown { at: Pos },
    /// A name that was given before.
    #[error("{}:{}: this name was given before", .at.line, .at.col)]
    Duplicate { at: Pos },
    /// A size, a bound, a step or the end of a range that isn't built of numbers and constants.
    #[error("{}:{}: numbers and constants have to stand here", .at.line, .at.col)]
    NotConstant { at: Pos },
    /// A division by zero among numbers and constants.
    #[error("{}:{}: this divides by zero", .at.line, .at.col)]
    ConstantDivision { at: Pos },
    /// A step of 0.
    #[error("{}:{}: this step is 0", .at.line, .at.col)]
    ZeroStep { at: Pos },
    /// Numbers of cells that differ, or a size that no array has.
    #[error("{}:{}: {want} cells belong here, and not {got}", .at.line, .at.col)]
    BadSize { at: Pos, want: i64, got: i64 },
    /// An index or the end of a range outside a variable of that size, or before the first end.
    #[error("{}:{}: {index} is no index here", .at.line, .at.col)]
    IndexOut { at: Pos, size: i64, index: i64 },
    /// More than one cell where one is needed.
    #[error("{}:{}: one cell belongs here", .at.line, .at.col)]
    NotScalar { at: Pos },
    /// An event that is sent with another number of cells than it has.
    #[error("{}:{}: this event has {want} cells, and not {got}", .at.line, .at.col)]
    EventSize { at: Pos, want: i64, got: i64 },
    /// A native that is called with another number of arguments than it takes.
    #[error("{}:{}: this native takes {want} arguments, and not {got}", .at.line, .at.col)]
    ArgCount { at: Pos, want: i64, got: i64 },
    /// A call by which a subroutine leads back to itself.
    #[error("{}:{}: this call leads back to its subroutine", .at.line, .at.col)]
    Recursion { at: Pos },
    /// More cells than the node has.
    #[error("the variables need {need} cells, and the node has {have}")]
    VariablesFull { need: u64, have: u64 },
    /// A subroutine that begins where no call of a large node reaches.
    #[error("{}:{}: no call reaches this subroutine at {start}", .at.line, .at.col)]
    SubroutineFar { at: Pos, start: u64 },
    #[error("out of memory")]
    Mem,
}

impl From<Mem> for CheckError {
    ghost from_gives = { λ _ e. e ≡ Error.Mem };

    fn from(_mem: Mem) -> CheckError {
        CheckError::Mem
    }
}

/// The error that tells of a fault.
pub fn error_of(fault: Fault) -> CheckError
    ensures { refusal_of result ≡ Some (broken (fault_view fault)) }
{
    let at = fault.at;
    match fault.rule {
        Rule::Unknown => CheckError::Unknown { at },
        Rule::Duplicate => CheckError::Duplicate { at },
        Rule::NotConstant => CheckError::NotConstant { at },
        Rule::ConstantDivision => CheckError::ConstantDivision { at },
        Rule::ZeroStep => CheckError::ZeroStep { at },
        Rule::BadSize { want, got } => CheckError::BadSize { at, want, got },
        Rule::IndexOut { size, index } => CheckError::IndexOut { at, size, index },
        Rule::NotScalar => CheckError::NotScalar { at },
        Rule::EventSize { want, got } => CheckError::EventSize { at, want, got },
        Rule::ArgCount { want, got } => CheckError::ArgCount { at, want, got },
        Rule::Recursion => CheckError::Recursion { at },
    }
}
