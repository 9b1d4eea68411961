ghost use Rattle.std.specs.Prelude.{◌≡◌};
ghost use Rattle.table_log.specs.declared.fault.StepFault.TheVariants.{Memory};

use std::alloc::AllocError;

/// Why no tables are read.
#[derive(Clone, Copy, Debug, PartialEq, Eq)]
pub enum OpenFault {
    /// The disk's bytes are no tables in a journal.
    NotTables,
    /// The disk failed.
    DiskFault,
    /// There was no memory.
    Memory,
}

/// Why a change was not made.
#[derive(Clone, Copy, Debug, PartialEq, Eq)]
pub enum StepFault {
    /// The disk failed.
    DiskFault,
    /// There was no memory.
    Memory,
}

impl From<AllocError> for StepFault {
    ghost from_gives = { λ _ e. e ≡ Memory };

    fn from(_: AllocError) -> StepFault {
        StepFault::Memory
    }
}
