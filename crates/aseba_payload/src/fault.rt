ghost use Rattle.aseba_payload.specs.declared.fault.Fault.TheVariants as Faults;
ghost use Rattle.std.specs.Prelude.{◌≡◌};
ghost use Rattle.aseba_payload.specs.Reading.{error_of};

use crate::error::PayloadError;
use aseba_words::Mem;
use std::alloc::{AllocError, AllocFailed};

/// Why a field or a row can't be read from the bytes at hand.
#[derive(Clone, Copy, Debug, PartialEq, Eq)]
pub enum Fault {
    /// The bytes end too early.
    Short,
    /// Bytes stand at this place, behind the row.
    Long { at: usize },
    /// The bytes of a list of words, an odd number.
    NotWords { len: usize },
    UnknownType,
    Mem,
}

impl Fault {
    /// The error of a whole payload of that type and length.
    pub fn in_payload(self, kind: u16, len: usize) -> PayloadError
        ensures { result ≡ error_of kind len self }
    {
        match self {
            Fault::Short => PayloadError::Short { at: len },
            Fault::Long { at } => PayloadError::Long { at },
            Fault::NotWords { len } => PayloadError::NotWords { len },
            Fault::UnknownType => PayloadError::UnknownType { kind },
            Fault::Mem => PayloadError::Mem,
        }
    }
}

impl From<Mem> for Fault {
    ghost from_gives = { λ _ e. e ≡ Faults.Mem };

    fn from(_mem: Mem) -> Fault {
        Fault::Mem
    }
}

impl From<AllocError> for Fault {
    ghost from_gives = { λ _ e. e ≡ Faults.Mem };

    fn from(_error: AllocError) -> Fault {
        Fault::Mem
    }
}

impl<T: Drop> From<AllocFailed<T>> for Fault {
    ghost from_gives = { λ _ e. e ≡ Faults.Mem };

    fn from(_error: AllocFailed<T>) -> Fault {
        Fault::Mem
    }
}
