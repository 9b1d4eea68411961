ghost use Rattle.std.specs.Prelude.{◌≡◌};
ghost use Rattle.block_files.specs.declared.fault.PartFault.TheVariants.{DiskFault, Memory};

use outside::Failed;
use std::alloc::AllocError;
use std::error::Error;
use std::fmt;

/// Why a part of a content was not read.
#[derive(Clone, Copy, Debug, PartialEq, Eq)]
pub enum PartFault {
    /// The disk failed: its count of faults rose.
    DiskFault,
    /// There was no memory for the part.
    Memory,
}

impl fmt::Display for PartFault {
    fn fmt<W: fmt::Write>(&self, f: &mut fmt::Formatter<W>) -> fmt::Result {
        match self {
            PartFault::DiskFault => write!(f, "the disk failed"),
            PartFault::Memory => write!(f, "out of memory"),
        }
    }
}

impl Error for PartFault {}

impl From<Failed> for PartFault {
    ghost from_gives = { λ _ e. e ≡ DiskFault };

    fn from(_: Failed) -> Self {
        PartFault::DiskFault
    }
}

impl From<AllocError> for PartFault {
    ghost from_gives = { λ _ e. e ≡ Memory };

    fn from(_: AllocError) -> Self {
        PartFault::Memory
    }
}
