// Why a file did not come, or why none became durable.
ghost use Rattle.std.specs.Prelude.{◌≡◌};

use causes::Cause;
use fetcher::FetchFault;
use file_store::FileFault;
use small_types::{List, Target};
use std::error::Error;
use std::fmt;

/// Why a file did not come into a draft, or why the drafts did not become durable.
#[derive(Drop, Debug, PartialEq, Eq)]
pub enum DraftFault {
    /// No link gave the file: one cause for each link, in their order.
    AllLinks { target: Target, causes: List<Cause> },
    /// More blocks are needed than are free.
    Full { need: u64, free: u64 },
    /// The disk failed: its count of faults rose.
    DiskFault,
    /// There was no memory.
    Memory,
}

impl fmt::Display for DraftFault {
    fn fmt<W: fmt::Write>(&self, f: &mut fmt::Formatter<W>) -> fmt::Result {
        match self {
            DraftFault::AllLinks { .. } => write!(f, "no link served"),
            DraftFault::Full { need, free } => {
                write!(f, "{need} blocks are needed and {free} are free")
            }
            DraftFault::DiskFault => write!(f, "the disk failed"),
            DraftFault::Memory => write!(f, "out of memory"),
        }
    }
}

impl Error for DraftFault {}

impl From<FileFault> for DraftFault {
    ghost use Rattle.line_drafts.specs.Faults.{fault_of_files};

    ghost from_gives = { λ fault e. e ≡ fault_of_files fault };

    fn from(fault: FileFault) -> DraftFault {
        match fault {
            FileFault::Full { need, free } => DraftFault::Full { need, free },
            FileFault::DiskFault => DraftFault::DiskFault,
            FileFault::Memory => DraftFault::Memory,
        }
    }
}

impl From<FetchFault> for DraftFault {
    ghost use Rattle.line_drafts.specs.Faults.{fault_of_fetch};

    ghost from_gives = { λ fault e. e ≡ fault_of_fetch fault };

    fn from(fault: FetchFault) -> DraftFault {
        match fault {
            FetchFault::AllLinks { target, causes } => DraftFault::AllLinks { target, causes },
            FetchFault::BasketFault => DraftFault::DiskFault,
            FetchFault::Memory => DraftFault::Memory,
        }
    }
}
