// Why a release is not made.
ghost use Rattle.std.specs.Prelude.{◌≡◌};
ghost use Rattle.generated_release.specs.declared.fault.GenerationFault.TheVariants.{Memory};

use std::alloc::{AllocError, AllocFailed};
use std::error::Error;
use std::fmt;

/// Why a release is not made.
#[derive(Clone, Copy, Debug, PartialEq, Eq)]
pub enum GenerationFault {
    /// The publisher refuses the generated files.
    Refused,
    /// There was no memory.
    Memory,
}

impl fmt::Display for GenerationFault {
    fn fmt<W: fmt::Write>(&self, f: &mut fmt::Formatter<W>) -> fmt::Result {
        match self {
            GenerationFault::Refused => write!(f, "the generated files can't be published"),
            GenerationFault::Memory => write!(f, "out of memory"),
        }
    }
}

impl Error for GenerationFault {}

impl From<AllocError> for GenerationFault {
    ghost from_gives = { λ _ e. e ≡ Memory };

    fn from(_: AllocError) -> GenerationFault {
        GenerationFault::Memory
    }
}

impl<T: Drop> From<AllocFailed<T>> for GenerationFault {
    ghost from_gives = { λ _ e. e ≡ Memory };

    fn from(_: AllocFailed<T>) -> GenerationFault {
        GenerationFault::Memory
    }
}
