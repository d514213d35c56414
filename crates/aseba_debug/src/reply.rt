use aseba_vm::Tick;

/// What a debugger answers. Bit 0 of the flags says that a handler is active, bit 1 that the machine
/// is paused.
#[derive(Clone, Copy, Debug, PartialEq, Eq)]
pub enum Reply {
    /// Breakpoints were taken away, of which nothing is told.
    Nothing,
    /// Where the machine stands behind the command.
    State { pc: u16, flags: u16 },
    /// A tick was done: what it answered, and where the machine stands behind it.
    Stepped { tick: Tick, pc: u16, flags: u16 },
    /// Whether there is a breakpoint at the address now.
    Break { pc: u16, taken: bool },
}
