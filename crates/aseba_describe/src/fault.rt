ghost use Rattle.aseba_describe.specs.declared.fault.LineFault.TheVariants as fault;
ghost use Rattle.aseba_describe.specs.declared.fault.ProjectError.TheVariants as error;
ghost use Rattle.std.specs.Prelude.{◌≡◌};

use aseba_words::Mem;
use thiserror::Error;

/// Why a text gives no project.
#[derive(Clone, Copy, Debug, PartialEq, Eq, Error)]
pub enum ProjectError {
    /// The first line that breaks a rule, counted from 1: the line behind the last where one is
    /// missing.
    #[error("line {n} breaks a rule")]
    Line { n: u64 },
    #[error("out of memory")]
    Mem,
}

impl From<Mem> for ProjectError {
    ghost from_gives = { λ _ e. e ≡ error.Mem };

    fn from(_mem: Mem) -> ProjectError {
        ProjectError::Mem
    }
}

/// Why a line isn't taken.
#[derive(Debug, Drop)]
pub enum LineFault {
    /// It breaks a rule.
    Bad,
    Mem,
}

impl From<Mem> for LineFault {
    ghost from_gives = { λ _ e. e ≡ fault.Mem };

    fn from(_error: Mem) -> LineFault {
        LineFault::Mem
    }
}
