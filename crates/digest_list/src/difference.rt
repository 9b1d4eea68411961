use crate::Algorithm;
use small_types::Bytes;
use std::fmt;

/// How bytes differ from what is listed.
#[derive(Drop, Debug, PartialEq, Eq)]
pub enum Difference {
    /// Their length is not the listed size.
    Size {
        listed: u64,
        found: u64,
    },
    /// Their length is the listed size, and this is the first listed digest, in the list's order, that is not theirs.
    /// `found` is the one that they have under its algorithm.
    Digest {
        algorithm: Algorithm,
        listed: Bytes,
        found: Bytes,
    },
}

impl fmt::Display for Difference {
    fn fmt<W: fmt::Write>(&self, f: &mut fmt::Formatter<W>) -> fmt::Result {
        match self {
            Difference::Size { listed, found } => write!(f, "{found} bytes, listed {listed}"),
            Difference::Digest { algorithm, .. } => {
                write!(f, "another {} digest than listed", algorithm.name())
            }
        }
    }
}
