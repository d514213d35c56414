/// What a piece of a link's bytes did to the frame that is read.
#[derive(Clone, Copy, Debug, PartialEq, Eq)]
pub(crate) enum Step {
    /// It goes on.
    More,
    /// It is whole.
    Whole,
    /// It doesn't come: the link failed or is at its end, or its length is one that no frame has.
    Over,
}
