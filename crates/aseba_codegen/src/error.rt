ghost use Rattle.aseba_codegen.specs.declared.error.GenError.TheVariants as Error;
ghost use Rattle.std.specs.Prelude.{◌≡◌};

use aseba_words::Mem;
use thiserror::Error;

/// Why a core has no code on a node: what it needs, and what the node has.
#[derive(Clone, Copy, Debug, PartialEq, Eq, Error)]
pub enum GenError {
    #[error("the code takes {need} words, and the node has {have}")]
    CodeFull { need: u64, have: u64 },
    #[error("the code takes {need} stack cells, and the node has {have}")]
    StackFull { need: u64, have: u64 },
    #[error("out of memory")]
    Mem,
}

impl From<Mem> for GenError {
    ghost from_gives = { λ _ e. e ≡ Error.Mem };

    fn from(_mem: Mem) -> GenError {
        GenError::Mem
    }
}
