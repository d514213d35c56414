use thiserror::Error;

/// Why the bytes of a frame are no payload of its type.
#[derive(Clone, Copy, Debug, PartialEq, Eq, Error)]
pub enum PayloadError {
    /// The payload ends where its type needs a byte.
    #[error("the payload ends at {at}")]
    Short { at: usize },
    /// Bytes stand at this place, behind all that the type has.
    #[error("the payload goes on at {at}")]
    Long { at: usize },
    /// A list of words has so many bytes, an odd number.
    #[error("{len} bytes are no words")]
    NotWords { len: usize },
    /// No message has this type.
    #[error("no message has the type {kind}")]
    UnknownType { kind: u16 },
    #[error("out of memory")]
    Mem,
}
