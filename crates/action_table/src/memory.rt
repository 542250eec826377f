use std::alloc::{AllocError, AllocFailed};

/// Memory was asked for and refused. It is the one answer that no contract ties to a cause.
#[derive(Clone, Copy, Debug, PartialEq, Eq)]
pub struct WantMemory;

impl From<AllocError> for WantMemory {
    fn from(_: AllocError) -> Self {
        WantMemory
    }
}

impl<T: Drop> From<AllocFailed<T>> for WantMemory {
    fn from(_: AllocFailed<T>) -> Self {
        WantMemory
    }
}
