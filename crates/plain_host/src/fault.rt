// What came of a connection.
ghost use Rattle.std.specs.Prelude.{◌≡◌};
ghost use Rattle.plain_host.specs.Connection.{fault_by};

use folders::FolderFault;
use std::error::Error;
use std::fmt;

/// How a connection was served.
#[derive(Clone, Copy, Debug, PartialEq, Eq)]
pub enum Served {
    /// An answer with this code was sent.
    Answered { code: u16 },
    /// The request was empty, and there was no answer.
    Silent,
}

/// Why a connection was not served.
#[derive(Clone, Copy, Debug, PartialEq, Eq)]
pub enum ServeFault {
    /// Receiving failed: the door's count of faults rose.
    ReadFault,
    /// Sending failed: the door's count of faults rose.
    WriteFault,
    /// The folder failed: its count of faults rose.
    FolderFault,
    /// There was no memory for the file that was asked for.
    Memory,
}

impl fmt::Display for ServeFault {
    fn fmt<W: fmt::Write>(&self, f: &mut fmt::Formatter<W>) -> fmt::Result {
        match self {
            ServeFault::ReadFault => write!(f, "receiving failed"),
            ServeFault::WriteFault => write!(f, "sending failed"),
            ServeFault::FolderFault => write!(f, "the folder failed"),
            ServeFault::Memory => write!(f, "out of memory"),
        }
    }
}

impl Error for ServeFault {}

/// What a fault of the folder is to a connection.
pub(crate) fn fault_of(fault: FolderFault) -> ServeFault
    ensures { result ≡ fault_by fault }
{
    match fault {
        FolderFault::Failed => ServeFault::FolderFault,
        FolderFault::Memory => ServeFault::Memory,
    }
}
