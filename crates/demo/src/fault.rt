// Why a generated run ends early.
ghost use Rattle.std.specs.Prelude.{◌≡◌};
ghost use Rattle.demo.specs.declared.fault.DemoFault.TheVariants.{Memory};

use generated_release::GeneratedRelease;
use small_types::CopyFault;
use std::alloc::{AllocError, AllocFailed};
use std::error::Error;
use std::fmt;

/// What a line of the run asks for.
#[derive(Clone, Copy, Debug, PartialEq, Eq)]
pub enum DemoLine {
    /// The install of the release.
    Install { release: GeneratedRelease },
    /// The launch of the application.
    Launch,
    /// The views that are not in use are to be taken away.
    Clean,
    /// The end of the lease.
    Finish,
}

impl fmt::Display for DemoLine {
    fn fmt<W: fmt::Write>(&self, f: &mut fmt::Formatter<W>) -> fmt::Result {
        match self {
            DemoLine::Install { release } => write!(f, "install {}", release.number()),
            DemoLine::Launch => write!(f, "launch"),
            DemoLine::Clean => write!(f, "clean"),
            DemoLine::Finish => write!(f, "finish"),
        }
    }
}

/// Why a generated run ends early.
#[derive(Clone, Copy, Debug, PartialEq, Eq)]
pub enum DemoFault {
    /// The disk failed.
    DiskFault,
    /// There was no memory.
    Memory,
    /// The store that was just made does not read as one.
    NotAStore,
    /// The publisher refuses the generated files of the release.
    NotPublished { release: GeneratedRelease },
    /// A line was answered otherwise than it must be. These are the first words of its answer.
    Answered { asked: DemoLine, came: &'static str },
    /// The install of the release heard other texts than were published.
    OtherTexts { release: GeneratedRelease },
    /// A file that is kept is not the generated one.
    OtherFiles,
}

impl fmt::Display for DemoFault {
    fn fmt<W: fmt::Write>(&self, f: &mut fmt::Formatter<W>) -> fmt::Result {
        match self {
            DemoFault::DiskFault => write!(f, "the disk failed"),
            DemoFault::Memory => write!(f, "out of memory"),
            DemoFault::NotAStore => write!(f, "the new store does not read as one"),
            DemoFault::NotPublished { release } => {
                write!(f, "release {} can't be published", release.number())
            }
            DemoFault::Answered { asked, came } => {
                write!(f, "'{asked}' was answered '{came}', not as it must be")
            }
            DemoFault::OtherTexts { release } => {
                write!(
                    f,
                    "'install {}' heard other texts than published",
                    release.number()
                )
            }
            DemoFault::OtherFiles => write!(f, "a kept file is not the generated one"),
        }
    }
}

impl Error for DemoFault {}

impl From<AllocError> for DemoFault {
    ghost from_gives = { λ _ e. e ≡ Memory };

    fn from(_: AllocError) -> DemoFault {
        DemoFault::Memory
    }
}

impl<T: Drop> From<AllocFailed<T>> for DemoFault {
    ghost from_gives = { λ _ e. e ≡ Memory };

    fn from(_: AllocFailed<T>) -> DemoFault {
        DemoFault::Memory
    }
}

impl From<CopyFault> for DemoFault {
    ghost from_gives = { λ _ e. e ≡ Memory };

    fn from(_: CopyFault) -> DemoFault {
        DemoFault::Memory
    }
}
