/// What is asked of a debugger.
#[derive(Clone, Copy, Debug, PartialEq, Eq)]
pub enum Command {
    /// Begins the program anew, paused.
    Reset,
    /// Clears the paused flag.
    Run,
    /// Sets the paused flag.
    Pause,
    /// Does one tick of a paused handler.
    Step,
    /// Ends the handler, and clears the paused flag.
    Stop,
    /// Asks only where the machine stands.
    State,
    /// Sets a breakpoint at an address.
    Set(u16),
    /// Takes the breakpoint at an address away.
    Clear(u16),
    /// Takes all breakpoints away.
    ClearAll,
}
