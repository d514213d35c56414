ghost use Rattle.aseba_lexer.specs.declared.error.LexError.TheVariants as Error;
ghost use Rattle.std.specs.Prelude.{◌≡◌};

use aseba_tree::Pos;
use aseba_words::Mem;
use thiserror::Error;

/// Why a text has no tokens. The place is the first where no blank, comment or token begins.
#[derive(Clone, Copy, Debug, PartialEq, Eq, Error)]
pub enum LexError {
    /// A byte that begins nothing.
    #[error("{}:{}: no token begins here", .at.line, .at.col)]
    BadByte { at: Pos },
    /// A word that begins with a digit, and is no number or too large a one.
    #[error("{}:{}: this is no number", .at.line, .at.col)]
    BadNumber { at: Pos },
    /// A `#*` that is never closed.
    #[error("{}:{}: this comment is never closed", .at.line, .at.col)]
    OpenComment { at: Pos },
    #[error("out of memory")]
    Mem,
}

impl From<Mem> for LexError {
    ghost from_gives = { λ _ e. e ≡ Error.Mem };

    fn from(_mem: Mem) -> LexError {
        LexError::Mem
    }
}
