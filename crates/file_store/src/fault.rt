ghost use Rattle.std.specs.Prelude.{◌≡◌};
ghost use Rattle.file_store.specs.declared.fault.FileFault.TheVariants.{DiskFault, Memory};

use outside::Failed;
use std::alloc::AllocError;
use std::error::Error;
use std::fmt;

/// Why a call of the file store failed.
#[derive(Clone, Copy, Debug, PartialEq, Eq)]
pub enum FileFault {
    /// More blocks are needed than are free.
    Full { need: u64, free: u64 },
    /// The disk failed: its count of faults rose.
    DiskFault,
    /// There was no memory.
    Memory,
}

impl fmt::Display for FileFault {
    fn fmt<W: fmt::Write>(&self, f: &mut fmt::Formatter<W>) -> fmt::Result {
        match self {
            FileFault::Full { need, free } => {
                write!(f, "{need} blocks are needed and {free} are free")
            }
            FileFault::DiskFault => write!(f, "the disk failed"),
            FileFault::Memory => write!(f, "out of memory"),
        }
    }
}

impl Error for FileFault {}

impl From<Failed> for FileFault {
    ghost from_gives = { λ _ e. e ≡ DiskFault };

    fn from(_: Failed) -> Self {
        FileFault::DiskFault
    }
}

impl From<AllocError> for FileFault {
    ghost from_gives = { λ _ e. e ≡ Memory };

    fn from(_: AllocError) -> Self {
        FileFault::Memory
    }
}
