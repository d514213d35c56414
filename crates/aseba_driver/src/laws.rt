//! What is read of a line is spelled so, and what is spelled so is read. A law is a function with an
//! empty body, so that a check proves what it says.
ghost use Rattle.aseba_driver.specs.Spelled.{LinesAreSpelled};

/// A line says an entry exactly where it is spelled as one: the time, and behind a blank an event
/// with its source and arguments, or a variable with the values that are set.
pub fn lines_are_spelled()
    ensures { LinesAreSpelled }
{}
