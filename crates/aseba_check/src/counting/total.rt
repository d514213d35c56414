/// The numbers of a source's plain code.
#[derive(Clone, Copy, Debug, PartialEq, Eq)]
pub struct Numbers {
    /// Words of code, the event table included.
    pub size: u64,
    /// Stack cells, at the deepest point of its init code and its handlers.
    pub depth: u64,
    /// Temporaries, in cells.
    pub room: u64,
}
