use std::alloc::{AllocError, AllocFailed};
use thiserror::Error;

/// Want of memory. Every call that takes memory may answer it.
#[derive(Clone, Copy, Debug, PartialEq, Eq, Error)]
#[error("out of memory")]
pub struct Mem;

impl From<AllocError> for Mem {
    fn from(_error: AllocError) -> Mem {
        Mem
    }
}

impl<T: Drop> From<AllocFailed<T>> for Mem {
    fn from(_error: AllocFailed<T>) -> Mem {
        Mem
    }
}
