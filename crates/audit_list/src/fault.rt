// Why bytes are not the text of an audit's list.
ghost use Rattle.std.specs.Prelude.{◌≡◌};
ghost use Rattle.audit_list.specs.declared.fault.AuditTextFault.TheVariants.{Memory};

use std::alloc::AllocError;
use std::error::Error;
use std::fmt;

/// Why bytes are not read as an audit's list.
#[derive(Clone, Copy, Debug, PartialEq, Eq)]
pub enum AuditTextFault {
    /// The first line, from 0, that stands in no list's text behind the lines before it. Where a line is missing it is
    /// that line, and where more follow than the list has it is the first of them.
    Text { line: u64 },
    /// There was no memory for the list.
    Memory,
}

impl fmt::Display for AuditTextFault {
    fn fmt<W: fmt::Write>(&self, f: &mut fmt::Formatter<W>) -> fmt::Result {
        match self {
            AuditTextFault::Text { line } => write!(f, "no audit list at line {line}"),
            AuditTextFault::Memory => write!(f, "out of memory"),
        }
    }
}

impl Error for AuditTextFault {}

impl From<AllocError> for AuditTextFault {
    ghost from_gives = { λ _ e. e ≡ Memory };

    fn from(_: AllocError) -> AuditTextFault {
        AuditTextFault::Memory
    }
}
