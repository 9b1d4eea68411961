ghost use Rattle.std.specs.Prelude.{◌≡◌};

use std::alloc::{AllocError, AllocFailed};

/// Why bytes could not be read.
#[derive(Clone, Copy, Debug, PartialEq, Eq)]
pub enum CodecFault {
    /// They are no encoding: the field that begins at the place cannot be read, or bytes are left
    /// over from there on.
    Bad { place: u64 },
    /// There was no memory for what they encode.
    Memory,
}

impl From<AllocError> for CodecFault {
    ghost use Rattle.record_fields.specs.declared.fault.CodecFault.TheVariants.{Memory};

    ghost from_gives = { λ _ e. e ≡ Memory };

    fn from(_: AllocError) -> CodecFault {
        CodecFault::Memory
    }
}

impl<T: Drop> From<AllocFailed<T>> for CodecFault {
    ghost use Rattle.record_fields.specs.declared.fault.CodecFault.TheVariants.{Memory};

    ghost from_gives = { λ _ e. e ≡ Memory };

    fn from(_: AllocFailed<T>) -> CodecFault {
        CodecFault::Memory
    }
}
