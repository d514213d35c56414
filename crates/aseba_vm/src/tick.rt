/// What one tick did.
#[derive(Clone, Copy, Debug, PartialEq, Eq)]
pub enum Tick {
    /// Nothing: no handler is active.
    Idle,
    /// Nothing: a handler is active, and the machine is paused.
    Paused,
    /// An instruction that changed only the stack and the counter.
    Quiet,
    /// A store into the cell at this address.
    Stored { address: u16 },
    /// A jump, a test, a call, a return or the end of a handler.
    Effect,
    /// A message to the outside.
    Sent(Notice),
}

/// What a machine sends. All but an emit have ended the handler and paused the machine.
#[derive(Clone, Copy, Debug, PartialEq, Eq)]
pub enum Notice {
    /// The event with this number, and as its arguments `len` cells from `start` on.
    Emit { event: u16, start: u16, len: u16 },
    /// At `pc` an index was below 0 or not below the size.
    Bounds { pc: u16, size: u16, index: i16 },
    /// At `pc` a divisor was 0.
    Division { pc: u16 },
    /// The code can't be run on from `pc`.
    NodeError { pc: u16, fault: NodeFault },
}

/// Why code can't be run on.
#[derive(Clone, Copy, Debug, PartialEq, Eq)]
pub enum NodeFault {
    /// The stack has too few values, or no room for another.
    Stack,
    /// A cell, or a cell of an emitted range, isn't there, or a range is too long.
    Address,
    /// The word is no instruction, or its operator isn't there.
    Word,
    /// A native function can't be called so.
    Native,
    /// The counter, a further word of the instruction or its target is outside the code.
    Code,
}
