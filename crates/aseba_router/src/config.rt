/// How a switch is set up.
#[derive(Clone, Copy, Debug, PartialEq, Eq)]
pub struct HubConfig {
    /// How many ports there are: 1 to 64.
    pub ports: u16,
    /// How many entries the queue of a port holds: 1 to 65536.
    pub queue: u32,
    /// Whether a session gets what it says itself, too.
    pub echo: bool,
    /// After how many connections none is accepted any more, 0 for no such limit.
    pub sessions: u32,
}
