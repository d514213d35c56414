/// A connection to the hub, from its join to its leave.
#[derive(Clone, Copy, Debug, PartialEq, Eq)]
pub struct Session {
    /// The port that it holds. A port has at most one session at a time.
    pub port: u16,
    /// Which of its port's sessions it is, counted from 0.
    pub nth: u64,
}
