ghost use Rattle.std.specs.Prelude.{◌≡◌};
ghost use Rattle.aseba_driver.specs.declared.fault.LineFault.TheVariants as fault;
ghost use Rattle.aseba_driver.specs.declared.fault.ScriptError.TheVariants as error;

use aseba_words::Mem;
use thiserror::Error;

/// Why a text gives no script.
#[derive(Clone, Copy, Debug, PartialEq, Eq, Error)]
pub enum ScriptError {
    /// The first bad line, counted from 1.
    #[error("line {n} is bad")]
    Line { n: u64 },
    #[error("out of memory")]
    Mem,
}

impl From<Mem> for ScriptError {
    ghost from_gives = { λ _ e. e ≡ error.Mem };

    fn from(_mem: Mem) -> ScriptError {
        ScriptError::Mem
    }
}

/// Why a line isn't taken.
#[derive(Debug, Drop)]
pub enum LineFault {
    /// It says no entry, or one whose time is before that of an earlier entry.
    Bad,
    Mem,
}

impl From<Mem> for LineFault {
    ghost from_gives = { λ _ e. e ≡ fault.Mem };

    fn from(_error: Mem) -> LineFault {
        LineFault::Mem
    }
}
