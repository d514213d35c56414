/// How far the session of a link has come.
#[derive(Clone, Copy, Debug, PartialEq, Eq)]
pub(crate) enum Stage {
    /// It hasn't joined.
    Away,
    /// It has joined, and its link is read.
    There,
    /// It has left, and its link isn't read any more.
    Gone,
}

impl Stage {
    ghost use Rattle.std.specs.Prelude.{◌≡◌};
    ghost use Rattle.aseba_router.specs.Turns.{is_away, is_there};

    /// Whether the session hasn't joined.
    pub fn is_away(self) -> bool
        ensures { result ≡ is_away self }
    {
        match self {
            Stage::Away => true,
            Stage::There | Stage::Gone => false,
        }
    }

    /// Whether the session is read.
    pub fn is_there(self) -> bool
        ensures { result ≡ is_there self }
    {
        match self {
            Stage::There => true,
            Stage::Away | Stage::Gone => false,
        }
    }
}
