// Copies that may fail for want of memory.
ghost use Rattle.std.specs.Prelude.{◌≡◌, IfOk};
ghost use Rattle.small_types.specs.declared.duplicate.CopyFault.TheVariants.{Memory};

use std::alloc::{AllocError, AllocFailed, Global};
use std::error::Error;
use std::fmt;

/// A copy found no memory.
#[derive(Clone, Copy, Debug, PartialEq, Eq)]
pub enum CopyFault {
    Memory,
}

impl fmt::Display for CopyFault {
    fn fmt<W: fmt::Write>(&self, f: &mut fmt::Formatter<W>) -> fmt::Result {
        write!(f, "out of memory")
    }
}

impl Error for CopyFault {}

impl From<AllocError> for CopyFault {
    ghost from_gives = { λ _ e. e ≡ Memory };

    fn from(_: AllocError) -> Self {
        CopyFault::Memory
    }
}

impl<T: Drop> From<AllocFailed<T>> for CopyFault {
    ghost from_gives = { λ _ e. e ≡ Memory };

    fn from(_: AllocFailed<T>) -> Self {
        CopyFault::Memory
    }
}

/// A value of which an equal one can be made.
pub trait Duplicate: Sized {
    /// An equal value. It fails only for want of memory.
    fn copy(&self, alloc: Global) -> Result<Self, CopyFault>
        ensures { IfOk result (λ made. made ≡ self.now) };
}

impl Duplicate for u32 {
    fn copy(&self, _alloc: Global) -> Result<Self, CopyFault> {
        Ok(*self)
    }
}

impl Duplicate for u64 {
    fn copy(&self, _alloc: Global) -> Result<Self, CopyFault> {
        Ok(*self)
    }
}

impl<T: Duplicate> Duplicate for Option<T> {
    fn copy(&self, alloc: Global) -> Result<Self, CopyFault> {
        match self {
            Some(value) => Ok(Some(value.copy(alloc)?)),
            None => Ok(None),
        }
    }
}
