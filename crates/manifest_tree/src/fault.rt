// What is wrong with a text, and where.
ghost use Rattle.std.specs.Prelude.{◌≡◌};
ghost use Rattle.manifest_tree.specs.declared.fault.Stop.TheVariants.{Memory};

use small_types::limits::{LEVEL_LIMIT, MANIFEST_LIMIT};
use std::alloc::{AllocError, AllocFailed};
use std::error::Error;
use std::fmt;

/// What is wrong with a text.
#[derive(Clone, Copy, Debug, PartialEq, Eq)]
pub enum TreeKind {
    /// The bytes are no UTF-8.
    NotUtf8,
    /// The bytes up to the place, itself included, begin no text, or the text ends too early.
    Syntax,
    /// An `&` begins no reference.
    Entity,
    /// An end tag has another name than the open element.
    TagMismatch,
    /// A tag has two attributes of one name.
    AttributeTwice,
    /// An element is at level 65.
    TooDeep,
    /// The text has more than 4,194,304 bytes.
    TooLong,
}

impl fmt::Display for TreeKind {
    fn fmt<W: fmt::Write>(&self, f: &mut fmt::Formatter<W>) -> fmt::Result {
        match self {
            TreeKind::NotUtf8 => write!(f, "not UTF-8"),
            TreeKind::Syntax => write!(f, "not well-formed"),
            TreeKind::Entity => write!(f, "no reference"),
            TreeKind::TagMismatch => write!(f, "end tag of another name"),
            TreeKind::AttributeTwice => write!(f, "attribute twice"),
            TreeKind::TooDeep => write!(f, "over {LEVEL_LIMIT} levels"),
            TreeKind::TooLong => write!(f, "over {MANIFEST_LIMIT} bytes"),
        }
    }
}

/// A fault of a text. The place counts bytes from 0, those of a byte order mark included.
#[derive(Clone, Copy, Debug, PartialEq, Eq)]
pub struct TreeFault {
    pub kind: TreeKind,
    pub place: u64,
}

impl fmt::Display for TreeFault {
    fn fmt<W: fmt::Write>(&self, f: &mut fmt::Formatter<W>) -> fmt::Result {
        write!(f, "{} at byte {}", self.kind, self.place)
    }
}

/// Why there is no tree.
#[derive(Clone, Copy, Debug, PartialEq, Eq)]
pub enum TreeError {
    /// The text spells none: its first fault.
    Refused { fault: TreeFault },
    /// Memory ran out.
    Memory,
}

impl fmt::Display for TreeError {
    fn fmt<W: fmt::Write>(&self, f: &mut fmt::Formatter<W>) -> fmt::Result {
        match self {
            TreeError::Refused { fault } => write!(f, "{fault}"),
            TreeError::Memory => write!(f, "out of memory"),
        }
    }
}

impl Error for TreeError {}

// Why reading stopped: a fault, with how many bytes stand from its place on; a part that is no
// UTF-8, which no UTF-8 text has; or want of memory.
#[derive(Clone, Copy, Debug, PartialEq, Eq)]
pub(crate) enum Stop {
    Fault { kind: TreeKind, left: usize },
    NotText,
    Memory,
}

impl From<AllocError> for Stop {
    ghost from_gives = { λ _ e. e ≡ Memory };

    fn from(_: AllocError) -> Self {
        Stop::Memory
    }
}

impl<T: Drop> From<AllocFailed<T>> for Stop {
    ghost from_gives = { λ _ e. e ≡ Memory };

    fn from(_: AllocFailed<T>) -> Self {
        Stop::Memory
    }
}
