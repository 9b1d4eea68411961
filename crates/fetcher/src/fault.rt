// Why nothing was fetched.
ghost use Rattle.std.specs.Prelude.{◌≡◌};
ghost use Rattle.fetcher.specs.declared.fault.FetchFault.TheVariants.{Memory};

use causes::Cause;
use links::WantFault;
use small_types::{CopyFault, List, Target};
use std::alloc::AllocFailed;
use std::error::Error;
use std::fmt;

/// Why nothing was fetched.
#[derive(Drop, Debug, PartialEq, Eq)]
pub enum FetchFault {
    /// No link served: one cause for each link, in their order.
    AllLinks { target: Target, causes: List<Cause> },
    /// The basket failed: its count of faults rose.
    BasketFault,
    /// There was no memory for it.
    Memory,
}

impl fmt::Display for FetchFault {
    fn fmt<W: fmt::Write>(&self, f: &mut fmt::Formatter<W>) -> fmt::Result {
        match self {
            FetchFault::AllLinks { .. } => write!(f, "no link served"),
            FetchFault::BasketFault => write!(f, "the basket failed"),
            FetchFault::Memory => write!(f, "out of memory"),
        }
    }
}

impl Error for FetchFault {}

impl From<WantFault> for FetchFault {
    ghost from_gives = { λ _ e. e ≡ Memory };

    fn from(_: WantFault) -> FetchFault {
        FetchFault::Memory
    }
}

impl From<CopyFault> for FetchFault {
    ghost from_gives = { λ _ e. e ≡ Memory };

    fn from(_: CopyFault) -> FetchFault {
        FetchFault::Memory
    }
}

impl<T: Drop> From<AllocFailed<T>> for FetchFault {
    ghost from_gives = { λ _ e. e ≡ Memory };

    fn from(_: AllocFailed<T>) -> FetchFault {
        FetchFault::Memory
    }
}
