// Why a publish is refused.
ghost use Rattle.std.specs.Prelude.{◌≡◌};
ghost use Rattle.publisher.specs.Faults.{fault_of_putting, fault_of_reading};

use digest_list::Difference;
use folders::FolderFault;
use identity::Version;
use manifest_tree::WriteFault;
use publish_plan::PlanFault;
use small_types::{CopyFault, Limit, Name, Text};
use std::alloc::{AllocError, AllocFailed};
use std::error::Error;
use std::fmt;

/// Why a publish is refused, in the order in which the refusals are judged. Names of input files
/// are those below `from`.
#[derive(Drop)]
pub enum PublishFault {
    /// The word is `name` or `entry` where that is empty, has more than 100 bytes or a byte that is no letter, digit,
    /// `.`, `_`, `-` or space; `to` where `from` and `to` are equal or one lies below the other; `entry` where the name
    /// of the application manifest has more than 240 bytes.
    BadName { word: Text },
    /// The minimum is above the version.
    MinimumAbove { minimum: Version },
    /// The folder failed at a listing or a reading: its count rose. Over a folder that tells, some
    /// first part of the input files may be written, but not all, and neither manifest.
    ReadFault,
    /// The version's folder has a file, of which this is the first.
    VersionExists { file: Name },
    /// No file stands below `from`.
    EmptyInput,
    /// The first file that is below `.pre`, that has a name too long to be written, or whose written name is that of
    /// the application manifest.
    BadInput { file: Name },
    /// There are more than 16,384 files, or more than 256 data files.
    TooMany { what: Limit },
    /// The entry is not among the files, or a mark names it.
    NoEntryPoint,
    /// The first mark that names no file, or one that an earlier mark names, has this file.
    BadMark { file: Name },
    /// The first file that is longer than 268,435,456 bytes, or a data file that is longer than
    /// 1,048,576, and its length.
    FileTooLong { file: Name, length: u64 },
    /// A manifest is longer than 4,194,304 bytes: its length.
    ManifestTooLong { length: u64 },
    /// The folder failed at a writing: its count rose. Over a folder that tells, nothing else is
    /// refused, and some first part of the files and the manifests may be written, but not all.
    WriteFault,
    /// The bytes of a file changed while it was published: how those that were read again differ
    /// from those that were read first. Over a folder that tells it does not come.
    Changed { file: Name, difference: Difference },
    /// There was no memory.
    Memory,
}

// Writes the words around what a fault names.
fn around<W: fmt::Write>(
    f: &mut fmt::Formatter<W>,
    before: &str,
    named: &str,
    behind: &str,
) -> fmt::Result {
    write!(f, "{before}{named}{behind}")
}

// Writes what a minimum above the version is.
fn minimum_above<W: fmt::Write>(f: &mut fmt::Formatter<W>, minimum: &Version) -> fmt::Result {
    let Version { a, b, c, d } = minimum;
    write!(f, "the minimum {a}.{b}.{c}.{d} is above the version")
}

// Writes how long what is too long is.
fn too_long<W: fmt::Write>(f: &mut fmt::Formatter<W>, named: &str, length: u64) -> fmt::Result {
    write!(f, "{named} is too long, {length} bytes")
}

impl PublishFault {
    // The words of a fault that names nothing.
    fn words(&self) -> &'static str {
        match self {
            PublishFault::ReadFault => "the folder failed at a reading",
            PublishFault::EmptyInput => "there is no file to publish",
            PublishFault::TooMany {
                what: Limit::Locals,
            } => "too many data files",
            PublishFault::TooMany { .. } => "too many files",
            PublishFault::NoEntryPoint => {
                "the file that is started is not published, or has a mark"
            }
            PublishFault::WriteFault => "the folder failed at a writing",
            _ => "out of memory",
        }
    }
}

impl fmt::Display for PublishFault {
    fn fmt<W: fmt::Write>(&self, f: &mut fmt::Formatter<W>) -> fmt::Result {
        match self {
            PublishFault::BadName { word } => {
                around(f, "the option ", word.as_str(), " can't be published")
            }
            PublishFault::MinimumAbove { minimum } => minimum_above(f, minimum),
            PublishFault::VersionExists { file } => {
                around(f, "the version has a file, ", file.as_str(), "")
            }
            PublishFault::BadInput { file } => around(f, "", file.as_str(), " can't be written"),
            PublishFault::BadMark { file } => around(
                f,
                "a mark names ",
                file.as_str(),
                ", which is no file, or is marked",
            ),
            PublishFault::FileTooLong { file, length } => too_long(f, file.as_str(), *length),
            PublishFault::ManifestTooLong { length } => too_long(f, "a manifest", *length),
            PublishFault::Changed { file, .. } => around(f, "", file.as_str(), " changed"),
            _ => f.write_str(self.words()),
        }
    }
}

impl fmt::Debug for PublishFault {
    fn fmt<W: fmt::Write>(&self, f: &mut fmt::Formatter<W>) -> fmt::Result {
        fmt::Display::fmt(self, f)
    }
}

impl Error for PublishFault {}

/// What a fault of the folder is at a listing or a reading.
pub(crate) fn fault_of_reading(fault: FolderFault) -> PublishFault
    ensures { result ≡ fault_of_reading fault }
{
    match fault {
        FolderFault::Failed => PublishFault::ReadFault,
        FolderFault::Memory => PublishFault::Memory,
    }
}

/// What a fault of the folder is where a file is put.
pub(crate) fn fault_of_putting(fault: FolderFault) -> PublishFault
    ensures { result ≡ fault_of_putting fault }
{
    match fault {
        FolderFault::Failed => PublishFault::WriteFault,
        FolderFault::Memory => PublishFault::Memory,
    }
}

impl From<AllocError> for PublishFault {
    ghost use Rattle.publisher.specs.declared.fault.PublishFault.TheVariants.{Memory};

    ghost from_gives = { λ _ e. e ≡ Memory };

    fn from(_: AllocError) -> PublishFault {
        PublishFault::Memory
    }
}

impl<T: Drop> From<AllocFailed<T>> for PublishFault {
    ghost use Rattle.publisher.specs.declared.fault.PublishFault.TheVariants.{Memory};

    ghost from_gives = { λ _ e. e ≡ Memory };

    fn from(_: AllocFailed<T>) -> PublishFault {
        PublishFault::Memory
    }
}

impl From<CopyFault> for PublishFault {
    ghost use Rattle.publisher.specs.declared.fault.PublishFault.TheVariants.{Memory};

    ghost from_gives = { λ _ e. e ≡ Memory };

    fn from(_: CopyFault) -> PublishFault {
        PublishFault::Memory
    }
}

impl From<PlanFault> for PublishFault {
    ghost use Rattle.publisher.specs.Faults.{fault_of};

    ghost from_gives = { λ fault e. e ≡ fault_of fault };

    fn from(fault: PlanFault) -> PublishFault {
        match fault {
            PlanFault::BadName { word } => PublishFault::BadName { word },
            PlanFault::MinimumAbove { minimum } => PublishFault::MinimumAbove { minimum },
            PlanFault::VersionExists { file } => PublishFault::VersionExists { file },
            PlanFault::EmptyInput => PublishFault::EmptyInput,
            PlanFault::BadInput { file } => PublishFault::BadInput { file },
            PlanFault::TooMany { what } => PublishFault::TooMany { what },
            PlanFault::NoEntryPoint => PublishFault::NoEntryPoint,
            PlanFault::BadMark { file } => PublishFault::BadMark { file },
            PlanFault::Memory => PublishFault::Memory,
        }
    }
}

impl From<WriteFault> for PublishFault {
    ghost use Rattle.publisher.specs.Faults.{fault_of_writing};

    ghost from_gives = { λ fault e. e ≡ fault_of_writing fault };

    fn from(fault: WriteFault) -> PublishFault {
        match fault {
            WriteFault::TooLong { length } => PublishFault::ManifestTooLong { length },
            WriteFault::Memory => PublishFault::Memory,
        }
    }
}
