// Why views are not told.
use std::alloc::{AllocError, AllocFailed};

/// Why the views that are not in use are not told.
#[derive(Clone, Copy, Debug, PartialEq, Eq)]
pub enum CleanFault {
    /// There was no memory for their numbers.
    Memory,
}

impl<T: Drop> From<AllocFailed<T>> for CleanFault {
    fn from(_: AllocFailed<T>) -> CleanFault {
        CleanFault::Memory
    }
}

impl From<AllocError> for CleanFault {
    fn from(_: AllocError) -> CleanFault {
        CleanFault::Memory
    }
}
