ghost use Rattle.std.specs.Prelude.{◌≡◌};
ghost use Rattle.aseba_parser.specs.declared.fault.Fault.TheVariants as fault;

use aseba_tree::Token;
use aseba_words::Mem;

/// Why a reading stops. What is left begins with the token that it stops at; nothing is left at
/// the end of the text.
#[derive(Clone, Copy)]
pub enum Fault<'t> {
    /// The token can't stand here.
    Syntax(&'t [Token]),
    /// The token opens a level too many.
    TooDeep(&'t [Token]),
    Mem,
}

/// What was read, with the tokens behind it.
pub type Parsed<'t, T> = Result<(T, &'t [Token]), Fault<'t>>;

impl From<Mem> for Fault<'_> {
    ghost from_gives = { λ _ e. e ≡ fault.Mem };

    fn from(_mem: Mem) -> Self {
        Fault::Mem
    }
}
