ghost use Rattle.std.specs.Prelude.{◌≡◌};

use small_types::{PrintFault, Text};
use std::alloc::AllocError;
use std::error::Error;
use std::fmt;
use url::ParseError;

/// Why a text is no address.
#[derive(Debug, Drop, PartialEq, Eq)]
pub enum UrlFault {
    /// It is no URL, is longer than the limit, has a user name, a password or no host.
    BadUrl,
    /// The scheme, in lower case, is not `http`.
    NotHttp { scheme: Text },
    /// There was no memory for the address, or the URL came to 4 GB on the way.
    Memory,
}

impl fmt::Display for UrlFault {
    fn fmt<W: fmt::Write>(&self, f: &mut fmt::Formatter<W>) -> fmt::Result {
        match self {
            UrlFault::BadUrl => write!(f, "no address"),
            UrlFault::NotHttp { scheme } => write!(f, "scheme {}, not http", scheme.as_str()),
            UrlFault::Memory => write!(f, "out of memory"),
        }
    }
}

impl Error for UrlFault {}

impl From<AllocError> for UrlFault {
    ghost use Rattle.addresses.specs.declared.fault.UrlFault.TheVariants.{Memory};

    ghost from_gives = { λ _ e. e ≡ Memory };

    fn from(_: AllocError) -> UrlFault {
        UrlFault::Memory
    }
}

impl From<PrintFault> for UrlFault {
    ghost use Rattle.addresses.specs.declared.fault.UrlFault.TheVariants.{Memory};

    ghost from_gives = { λ _ e. e ≡ Memory };

    fn from(_: PrintFault) -> UrlFault {
        UrlFault::Memory
    }
}

impl From<ParseError> for UrlFault {
    ghost use Rattle.addresses.specs.Fault.{fault_of};

    ghost from_gives = { λ error fault. fault ≡ fault_of error };

    fn from(error: ParseError) -> UrlFault {
        match error {
            ParseError::OutOfMemory | ParseError::Overflow => UrlFault::Memory,
            _ => UrlFault::BadUrl,
        }
    }
}
