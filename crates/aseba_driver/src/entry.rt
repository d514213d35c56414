use aseba_words::{List, Name};

/// What a script does before a tick.
#[derive(Debug, Drop)]
pub struct Entry {
    /// The number of the tick, counted from 0.
    pub time: u64,
    /// The name of the event that arrives, or of the variable that is set.
    pub name: Name,
    pub act: Act,
}

/// What is done to the machine.
#[derive(Debug, Drop)]
pub enum Act {
    /// The event of this number arrives from a source with its arguments.
    Event {
        event: u16,
        source: u16,
        args: List<i16>,
    },
    /// The cells from an address on are set to these values.
    Set {
        start: u16,
        values: List<i16>,
    },
}
