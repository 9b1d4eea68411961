// Why a manifest is refused.
ghost use Rattle.std.specs.Prelude.{◌≡◌};
ghost use Rattle.manifest_parts.specs.declared.fault.ManifestFault.TheVariants.{Memory};

use identity::Version;
use manifest_tree::TreeFault;
use small_types::{CopyFault, Limit, Text};
use std::alloc::{AllocError, AllocFailed};
use std::error::Error;
use std::fmt;

// What there is too many of.
fn noun(what: Limit) -> &'static str {
    str::from_utf8(what.word()).unwrap_or("parts")
}

/// Why a manifest is refused.
#[derive(Drop, Debug, PartialEq, Eq)]
pub enum ManifestFault {
    /// The bytes are no text of the profile.
    Tree(TreeFault),
    /// An element or an attribute is missing. Names are local.
    Missing { what: Text },
    /// An element stands twice.
    Twice { what: Text },
    /// A value is out of its form or its limit.
    BadValue { what: Text },
    /// There is an element `Signature`.
    Signed,
    /// No digest of the file is of a known algorithm.
    NoDigest { file: Text },
    /// The name is no name of an installed file.
    BadName { file: Text },
    /// Two files have the name.
    TwiceNamed { file: Text },
    /// The minimum is above the version.
    MinimumAboveVersion { minimum: Version, version: Version },
    /// The application is not to be installed.
    OnlineOnly,
    /// There are more than are allowed.
    TooMany { what: Limit },
    /// There was no memory.
    Memory,
}

impl fmt::Display for ManifestFault {
    fn fmt<W: fmt::Write>(&self, f: &mut fmt::Formatter<W>) -> fmt::Result {
        match self {
            ManifestFault::Tree(fault) => write!(f, "{fault}"),
            ManifestFault::Missing { what } => write!(f, "no {}", what.as_str()),
            ManifestFault::Twice { what } => write!(f, "{} stands twice", what.as_str()),
            ManifestFault::BadValue { what } => write!(f, "bad value of {}", what.as_str()),
            ManifestFault::Signed => write!(f, "signed"),
            ManifestFault::NoDigest { file } => write!(f, "no known digest of {}", file.as_str()),
            ManifestFault::BadName { file } => write!(f, "no file name: {}", file.as_str()),
            ManifestFault::TwiceNamed { file } => write!(f, "two files named {}", file.as_str()),
            ManifestFault::MinimumAboveVersion { .. } => write!(f, "minimum above the version"),
            ManifestFault::OnlineOnly => write!(f, "only run online"),
            ManifestFault::TooMany { what } => write!(f, "too many {}", noun(*what)),
            ManifestFault::Memory => write!(f, "out of memory"),
        }
    }
}

impl Error for ManifestFault {}

impl From<AllocError> for ManifestFault {
    ghost from_gives = { λ _ e. e ≡ Memory };

    fn from(_: AllocError) -> Self {
        ManifestFault::Memory
    }
}

impl<T: Drop> From<AllocFailed<T>> for ManifestFault {
    ghost from_gives = { λ _ e. e ≡ Memory };

    fn from(_: AllocFailed<T>) -> Self {
        ManifestFault::Memory
    }
}

impl From<CopyFault> for ManifestFault {
    ghost from_gives = { λ _ e. e ≡ Memory };

    fn from(_: CopyFault) -> Self {
        ManifestFault::Memory
    }
}
