ghost use Rattle.std.specs.Prelude.{◌≡◌};
ghost use Rattle.aseba_record.specs.declared.fault.LineFault.TheVariants as fault;
ghost use Rattle.aseba_record.specs.declared.fault.RecordError.TheVariants as error;

use aseba_words::Mem;
use thiserror::Error;

/// Why a text gives no recording.
#[derive(Clone, Copy, Debug, PartialEq, Eq, Error)]
pub enum RecordError {
    /// The first bad line, counted from 1: the line behind the last where a head isn't whole.
    #[error("line {n} is bad")]
    Line { n: u64 },
    #[error("out of memory")]
    Mem,
}

impl From<Mem> for RecordError {
    ghost from_gives = { λ _ e. e ≡ error.Mem };

    fn from(_mem: Mem) -> RecordError {
        RecordError::Mem
    }
}

/// Why a line isn't taken.
#[derive(Debug, Drop)]
pub enum LineFault {
    /// It is none of its format, or one that may not stand behind those before it.
    Bad,
    Mem,
}

impl From<Mem> for LineFault {
    ghost from_gives = { λ _ e. e ≡ fault.Mem };

    fn from(_error: Mem) -> LineFault {
        LineFault::Mem
    }
}
