// Why nothing is published.
ghost use Rattle.std.specs.Prelude.{◌≡◌};
ghost use Rattle.publish_plan.specs.declared.fault.PlanFault.TheVariants.{Memory};

use identity::Version;
use small_types::{CopyFault, Limit, Name, Text};
use std::alloc::{AllocError, AllocFailed};
use std::error::Error;
use std::fmt;

/// Why nothing is published, before any file is read.
#[derive(Drop, Debug, PartialEq, Eq)]
pub enum PlanFault {
    /// The option of this word has no name that can be published.
    BadName { word: Text },
    /// The minimum is above the version.
    MinimumAbove { minimum: Version },
    /// The folder of the version has this file, and this is the first.
    VersionExists { file: Name },
    /// No file stands in the folder that is published.
    EmptyInput,
    /// The file, by its name below the folder that is published, can't be written, and this is the first.
    BadInput { file: Name },
    /// There are more files, or more data files, than an application may have.
    TooMany { what: Limit },
    /// The file that is started does not stand in the folder that is published, or it has a mark.
    NoEntryPoint,
    /// The first mark that names no file, or a file that an earlier mark named, names this one.
    BadMark { file: Name },
    /// There was no memory for the plan.
    Memory,
}

impl fmt::Display for PlanFault {
    fn fmt<W: fmt::Write>(&self, f: &mut fmt::Formatter<W>) -> fmt::Result {
        match self {
            PlanFault::BadName { word } => {
                write!(f, "the option {} can't be published", word.as_str())
            }
            PlanFault::MinimumAbove { minimum } => write!(
                f,
                "the minimum {}.{}.{}.{} is above the version",
                minimum.a, minimum.b, minimum.c, minimum.d
            ),
            PlanFault::VersionExists { file } => {
                write!(f, "the version has a file, {}", file.as_str())
            }
            PlanFault::EmptyInput => write!(f, "there is no file to publish"),
            PlanFault::BadInput { file } => write!(f, "{} can't be written", file.as_str()),
            PlanFault::TooMany {
                what: Limit::Locals,
            } => write!(f, "too many data files"),
            PlanFault::TooMany { .. } => write!(f, "too many files"),
            PlanFault::NoEntryPoint => {
                write!(
                    f,
                    "the file that is started is not published, or has a mark"
                )
            }
            PlanFault::BadMark { file } => {
                write!(
                    f,
                    "a mark names {}, which is no file, or is marked",
                    file.as_str()
                )
            }
            PlanFault::Memory => write!(f, "out of memory"),
        }
    }
}

impl Error for PlanFault {}

impl From<AllocError> for PlanFault {
    ghost from_gives = { λ _ e. e ≡ Memory };

    fn from(_: AllocError) -> PlanFault {
        PlanFault::Memory
    }
}

impl<T: Drop> From<AllocFailed<T>> for PlanFault {
    ghost from_gives = { λ _ e. e ≡ Memory };

    fn from(_: AllocFailed<T>) -> PlanFault {
        PlanFault::Memory
    }
}

impl From<CopyFault> for PlanFault {
    ghost from_gives = { λ _ e. e ≡ Memory };

    fn from(_: CopyFault) -> PlanFault {
        PlanFault::Memory
    }
}
