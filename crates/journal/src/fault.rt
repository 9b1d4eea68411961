ghost use Rattle.std.specs.Prelude.{◌≡◌};
ghost use Rattle.journal.specs.declared.fault.LogFault.TheVariants.{DiskFault, Memory};

use outside::Failed;
use std::alloc::AllocError;

/// Why a call of the log failed.
#[derive(Clone, Copy, Debug, PartialEq, Eq)]
pub enum LogFault {
    /// The entry or the tables need more bytes than the half has room for.
    NoRoom { need: u64, room: u64 },
    /// The disk failed.
    DiskFault,
    /// The bytes are no journal.
    NotALog,
    /// There was no memory.
    Memory,
}

impl From<Failed> for LogFault {
    ghost from_gives = { λ _ e. e ≡ DiskFault };

    fn from(_: Failed) -> Self {
        LogFault::DiskFault
    }
}

impl From<AllocError> for LogFault {
    ghost from_gives = { λ _ e. e ≡ Memory };

    fn from(_: AllocError) -> Self {
        LogFault::Memory
    }
}
