// Why there are no plans.
use small_types::CopyFault;
use std::alloc::{AllocError, AllocFailed};

/// Why there are no plans of data files.
#[derive(Clone, Copy, Debug, PartialEq, Eq)]
pub enum MigrateFault {
    /// There was no memory for them.
    Memory,
}

impl From<AllocError> for MigrateFault {
    fn from(_: AllocError) -> MigrateFault {
        MigrateFault::Memory
    }
}

impl<T: Drop> From<AllocFailed<T>> for MigrateFault {
    fn from(_: AllocFailed<T>) -> MigrateFault {
        MigrateFault::Memory
    }
}

impl From<CopyFault> for MigrateFault {
    fn from(_: CopyFault) -> MigrateFault {
        MigrateFault::Memory
    }
}
