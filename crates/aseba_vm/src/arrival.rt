/// What became of an event that arrived.
#[derive(Clone, Copy, Debug, PartialEq, Eq)]
pub enum Arrival {
    /// The code has no handler for it, and nothing changed.
    NoHandler,
    /// The machine is paused inside a handler, and nothing changed.
    Dropped,
    /// Its handler began in the place of another, which was killed at this counter.
    Killed { pc: u16 },
    /// Its handler began.
    Started,
}
