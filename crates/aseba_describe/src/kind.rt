ghost use Rattle.std.specs.Prelude.{◌≡◌};
ghost use Rattle.aseba_describe.specs.Kinds.{rank_of};

/// The kinds of lines, in their order. The first five are needed once each; each of the others may be
/// missing or stand more than once.
#[derive(Clone, Copy)]
pub enum Kind {
    Node,
    Code,
    Vars,
    Stack,
    Id,
    Variable,
    Local,
    Native,
    Event,
    Const,
}

impl Kind {
    /// How many kinds come before this one.
    pub fn rank(self) -> u8
        ensures { result ≡ rank_of self }
    {
        self as u8
    }
}
