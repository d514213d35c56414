ghost use Rattle.std.specs.Prelude.{◌≡◌};
ghost use Rattle.aseba_expand.specs.declared.error.ExpandError.TheVariants as Error;

use aseba_words::Mem;
use thiserror::Error;

/// Why a checked source has no element form on its node.
#[derive(Clone, Copy, Debug, PartialEq, Eq, Error)]
pub enum ExpandError {
    /// The variables and the temporaries need more cells than the node has.
    #[error("the variables and temporaries need {need} cells, and the node has {have}")]
    VariablesFull { need: u64, have: u64 },
    #[error("out of memory")]
    Mem,
}

impl From<Mem> for ExpandError {
    ghost from_gives = { λ _ e. e ≡ Error.Mem };

    fn from(_mem: Mem) -> ExpandError {
        ExpandError::Mem
    }
}
