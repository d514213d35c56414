/// An answer of a polled input in memory: the length of a piece, or that nothing has come yet.
#[derive(Clone, Copy, Debug, PartialEq, Eq)]
pub(crate) enum Turn {
    Piece(usize),
    Wait,
}
