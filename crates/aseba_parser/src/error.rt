ghost use Rattle.aseba_parser.specs.declared.error.SyntaxError.TheVariants as Error;
ghost use Rattle.std.specs.Prelude.{◌≡◌};

use aseba_tree::Pos;
use aseba_words::Mem;
use thiserror::Error;

/// Why tokens are no program.
#[derive(Clone, Copy, Debug, PartialEq, Eq, Error)]
pub enum SyntaxError {
    /// The tokens before that place begin a program, and with the one there they begin none. At
    /// the end of the text the place is the one after the last byte.
    #[error("{}:{}: this can't stand here", .at.line, .at.col)]
    Syntax { at: Pos },
    /// The token at that place opens the 65th level of blocks, brackets and prefix operators.
    #[error("{}:{}: this is nested too deep", .at.line, .at.col)]
    TooDeep { at: Pos },
    #[error("out of memory")]
    Mem,
}

impl From<Mem> for SyntaxError {
    ghost from_gives = { λ _ e. e ≡ Error.Mem };

    fn from(_mem: Mem) -> SyntaxError {
        SyntaxError::Mem
    }
}
