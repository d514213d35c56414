use aseba_tree::Param;
use aseba_words::{List, Name};

/// What a message says. Its type and how its fields are spelled stand in the table of rows; the
/// fields are in the order of their bytes.
#[derive(Debug, Drop)]
pub enum Payload {
    /// A global event: its number, which is below 0x8000, and its arguments.
    User {
        kind: u16,
        words: List<u16>,
    },
    /// A node is there: its name, its version of the protocol, how many words of code, cells of
    /// stack and cells it has, and how many variables, local events and natives it tells of next.
    Describe {
        name: Name,
        version: u16,
        code: u16,
        stack: u16,
        cells: u16,
        variables: u16,
        locals: u16,
        natives: u16,
    },
    /// One of a node's variables.
    Variable {
        size: u16,
        name: Name,
    },
    /// One of a node's local events.
    LocalEvent {
        name: Name,
        text: Name,
    },
    /// One of a node's native functions.
    NativeOf {
        name: Name,
        text: Name,
        params: List<Param>,
    },
    /// The values of cells, from the cell `start` on.
    Variables {
        start: u16,
        words: List<u16>,
    },
    /// A handler stopped at an index outside its array.
    BoundsAt {
        pc: u16,
        size: u16,
        index: u16,
    },
    /// A handler stopped at a division by zero.
    DivisionAt {
        pc: u16,
    },
    /// An event killed a handler.
    KilledAt {
        pc: u16,
    },
    /// A node met an error, which the text names.
    ErrorAt {
        pc: u16,
        text: Name,
    },
    /// Where a node stands. Bit 0 of the flags is active, bit 1 is paused.
    State {
        pc: u16,
        flags: u16,
    },
    /// Whether a breakpoint was set: 1, or 0.
    BreakSet {
        pc: u16,
        result: u16,
    },
    /// A node is there.
    Present {
        version: u16,
    },
    /// Asks every node to describe itself.
    GetDescription {
        version: u16,
    },
    /// Words for a node's code, from the word `start` on.
    SetBytecode {
        node: u16,
        start: u16,
        words: List<u16>,
    },
    Reset {
        node: u16,
    },
    Run {
        node: u16,
    },
    Pause {
        node: u16,
    },
    Step {
        node: u16,
    },
    Stop {
        node: u16,
    },
    GetState {
        node: u16,
    },
    SetBreak {
        node: u16,
        pc: u16,
    },
    ClearBreak {
        node: u16,
        pc: u16,
    },
    ClearBreaks {
        node: u16,
    },
    /// Asks for as many cells as `length` says, from the cell `start` on.
    GetVariables {
        node: u16,
        start: u16,
        length: u16,
    },
    /// Values for cells, from the cell `start` on.
    SetVariables {
        node: u16,
        start: u16,
        words: List<u16>,
    },
    /// Asks one node to describe itself.
    GetNodeDescription {
        node: u16,
        version: u16,
    },
    /// Asks every node whether it is there.
    ListNodes {
        version: u16,
    },
}
