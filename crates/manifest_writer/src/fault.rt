// Memory ran out, wherever it did.
ghost use Rattle.std.specs.Prelude.{◌≡◌};

use manifest_tree::WriteFault;
use small_types::{CopyFault, PrintFault};
use std::alloc::{AllocError, AllocFailed};

/// Memory ran out while a tree was made.
#[derive(Clone, Copy, Debug, PartialEq, Eq)]
pub(crate) struct NoMemory;

impl From<AllocError> for NoMemory {
    fn from(_: AllocError) -> Self {
        NoMemory
    }
}

impl<T: Drop> From<AllocFailed<T>> for NoMemory {
    fn from(_: AllocFailed<T>) -> Self {
        NoMemory
    }
}

impl From<PrintFault> for NoMemory {
    fn from(_: PrintFault) -> Self {
        NoMemory
    }
}

impl From<NoMemory> for WriteFault {
    ghost use Rattle.manifest_tree.specs.declared.write.WriteFault.TheVariants.{Memory};

    ghost from_gives = { λ _ e. e ≡ Memory };

    fn from(_: NoMemory) -> Self {
        WriteFault::Memory
    }
}
