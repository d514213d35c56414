/// A word of code.
#[derive(Clone, Copy, Debug, PartialEq, Eq)]
pub struct Coded {
    pub word: u16,
    /// The source line of the effect that is next from the word, 0 in the event table.
    pub line: u32,
    /// Whether it is the branch of a `when`, whose bit 9 changes as it runs.
    pub is_edge: bool,
}
