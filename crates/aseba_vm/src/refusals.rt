use thiserror::Error;

/// Words that pass the end of the code.
#[derive(Clone, Copy, Debug, PartialEq, Eq, Error)]
#[error("words up to {end} for a code of {size}")]
pub struct OutOfCode {
    /// The place behind the last of them.
    pub end: u64,
    /// The words of code that the machine has.
    pub size: u16,
}

/// Values that pass the last cell.
#[derive(Clone, Copy, Debug, PartialEq, Eq, Error)]
#[error("values up to {end} for {size} cells")]
pub struct OutOfCells {
    /// The address behind the last of them.
    pub end: u64,
    /// The cells that the machine has.
    pub size: u16,
}
